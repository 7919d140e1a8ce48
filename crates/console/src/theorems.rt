// The theorems, each the contract of a small function.
ghost use Rattle.covers.specs.Equality.{IsEquality};
ghost use Rattle.console.specs.Theorems.{OutputExists, OutputDetermined};

use super::failure::Failure;

fn every_input_has_an_output()
    ensures holds { OutputExists }
{}

fn output_is_determined()
    ensures holds { OutputDetermined }
{}

// `==` of failures is equality.
fn equality()
    ensures failure { IsEquality ⟦<Failure as PartialEq>⟧.eq }
{}
