// What holds of the types, each the contract of a small function.
ghost use Rattle.covers.specs.Equality.{IsEquality};

use super::call::{FilterAnswer, RefusedCall};

// `==` of answers and of refusals is equality.
fn equality()
    ensures answer { IsEquality ⟦<FilterAnswer as PartialEq>⟧.eq }
    ensures refused { IsEquality ⟦<RefusedCall as PartialEq>⟧.eq }
{}
