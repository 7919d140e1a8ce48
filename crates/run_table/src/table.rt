// The table of runs, and its edits.
ghost use Rattle.std.specs.Prelude.{◌≡◌, ℕ, ◌-◌, ◌^◌, ◌<◌, ◌≤◌, true, false, [], ◌∷◌, length, Err};

use super::edited_set::EditedSet;
use super::run::{MOST_RUNS, any_contains};
use arrayvec::ArrayVec;
use rows::edit::Edit;
use rows::range::Range;
use rows::refusal::Refusal;
use rows::width::Width;

// What stands where no run does.
const NO_RUN: Range = Range { first: 0, last: 0 };

// At most 16 runs, of which the first `count` stand; what counts or lists them promises as much, and a list that becomes a
// table is asked for no more. Every value is a table: a higher count is read as 16.
// An array and a count, since the table is a plain value that is copied: the kit's `ArrayVec` is not `Copy`. No ghost
// field, since a filter over lent memory could then not stand in an `Option`.
#[derive(Clone, Copy)]
pub struct RunTable {
    runs: [Range; MOST_RUNS],
    count: usize,
}

impl RunTable {
    ghost use Rattle.covers.specs.Rivals.{NumberSet, in_ranges};
    ghost use Rattle.rows.specs.Widths.{places_of};
    ghost use Rattle.circle.specs.Runs.{run_at, runs};
    ghost use Rattle.rows.specs.declared.refusal.Refusal.TheVariants.{NumberOutsideWidth};
    ghost use Rattle.rows.specs.Edits.{edit_in_width};
    ghost use Rattle.run_table.specs.Answers.{EditRefusals, AnswersAsItsSet};
    ghost use Rattle.rows.specs.Ranges.{ranges_of};
    ghost use Rattle.run_table.specs.Tables.{TableOf, table_runs};

    // No runs: the table of the empty set.
    pub fn empty() -> RunTable
        ensures runs { table_runs result ≡ [] }
        ensures of_no_number { (n : ℕ) → TableOf n (λ _. false) result }
    {
        RunTable {
            runs: [NO_RUN; MOST_RUNS],
            count: 0,
        }
    }

    // The table of the whole circle.
    pub fn whole(width: Width) -> RunTable
        ensures runs { table_runs result ≡ (0, 2 ^ places_of width - 1) ∷ [] }
        ensures of_every_number { TableOf (places_of width) (λ _. true) result }
    {
        let circle = Range {
            first: 0,
            last: width.limit() - 1,
        };
        RunTable {
            runs: [circle; MOST_RUNS],
            count: 1,
        }
    }

    // How many runs stand.
    pub fn len(&self) -> usize
        ensures value { result ≡ length (table_runs self.now) }
        ensures high_bound { result ≤ 16 }
    {
        self.runs().len()
    }

    // Both ends of the run at an index, or nothing beyond the last.
    pub fn get(&self, i: usize) -> Option<(u64, u64)>
        ensures value { result ≡ run_at (table_runs self.now) i }
    {
        // a pair: what a report of a run tells
        self.runs().get(i).map(|run| (run.first, run.last))
    }

    // Whether one of the runs has the number.
    pub fn contains(&self, number: u64) -> bool
        ensures value { result ≡ in_ranges (table_runs self.now) number }
        ensures in_set { (n : ℕ) (S : NumberSet) → TableOf n S self.now → number < 2 ^ n → result ≡ S number }
    {
        any_contains(self.runs(), number)
    }

    /// The table of the set after the edit, where this is the table of a set at the width; of another table it is left
    /// free which one is answered. Refused 2 if an end of the edit is no number of the width, then 6 if the set has more
    /// than 16 runs, or, of a table that is that of no set, if the edit leaves more than 16 ranges.
    pub fn after_edit(&self, width: Width, edit: Edit) -> Result<RunTable, Refusal>
        ensures answer_else_left_free { AnswersAsItsSet (places_of width) edit self.now result }
        ensures outside { edit_in_width (places_of width) edit ≡ false →
            result ≡ Err NumberOutsideWidth }
        ensures free_refusals { EditRefusals (places_of width) edit (table_runs self.now) result }
    {
        if !edit.in_width(width) {
            return Err(Refusal::NumberOutsideWidth);
        }
        let set = EditedSet {
            runs: self.runs(),
            edit,
            width,
        };
        let mut runs = ArrayVec::new();
        set.list_runs(&mut runs);
        if runs.len() > MOST_RUNS {
            return Err(Refusal::TooManyRuns);
        }
        if runs.is_empty() && edit.adds() {
            // no run begins anywhere, and the set is not empty
            return Ok(RunTable::whole(width));
        }
        Ok(RunTable::holding(runs.as_slice()))
    }

    // The table of these runs.
    fn holding(runs: &[Range]) -> RunTable
        requires few { length runs.now ≤ 16 }
        ensures runs { table_runs result ≡ ranges_of runs.now }
    {
        let mut held = [NO_RUN; MOST_RUNS];
        held[0..runs.len()].copy_from_slice(runs);
        RunTable {
            runs: held,
            count: runs.len(),
        }
    }

    // The runs that stand.
    pub fn runs(&self) -> &[Range]
        ensures value { ranges_of result.now ≡ table_runs self.now }
        ensures of_set { (n : ℕ) (S : NumberSet) → TableOf n S self.now →
            ranges_of result.now ≡ runs n S }
        ensures few { length result.now ≤ 16 }
    {
        &self.runs[0..self.count.min(MOST_RUNS)]
    }
}
