// The theorems, each the contract of a small function.
ghost use Rattle.std.specs.Prelude.{◌≡◌, length};
ghost use Rattle.covers.specs.Equality.{IsEquality};
ghost use Rattle.covers.specs.Examples.{ExamplesHold, examples};
ghost use Rattle.covers.specs.RuleEquations.{RuleEquations};
ghost use Rattle.covers.specs.Theorems.{DigitsAndBack, WordsAndBack, ListsExact, ListsFew, ListsShortest, ListsWitnessed, LowerBound, SeveralRuns};

use super::symbol::Symbol;

// `==` of symbols is equality.
fn equality()
    ensures symbol { IsEquality ⟦<Symbol as PartialEq>⟧.eq }
{}

fn digits_and_back()
    ensures holds { DigitsAndBack }
{}

fn rules_as_equations()
    ensures holds { RuleEquations }
{}

fn lists_are_exact()
    ensures holds { ListsExact }
{}

fn witness_bounds_every_list()
    ensures holds { LowerBound }
{}

fn lists_have_witnesses()
    ensures holds { ListsWitnessed }
{}

fn lists_are_shortest()
    ensures holds { ListsShortest }
{}

fn several_runs_are_exact_and_bounded()
    ensures holds { SeveralRuns }
{}

fn words_and_back()
    ensures holds { WordsAndBack }
{}

fn lists_are_few()
    ensures holds { ListsFew }
{}

fn examples_follow_the_rules()
    ensures holds { ExamplesHold }
{}

// How many ranges the table of worked examples has, each with the rows that the rules give it.
pub fn worked_examples() -> usize
    ensures count { result ≡ length examples }
    ensures hold { ExamplesHold }
{
    examples_follow_the_rules();
    10
}
