// What holds of the types, each the contract of a small function.
ghost use Rattle.covers.specs.Equality.{IsEquality};

use super::flip::Flip;
use super::turn::Turn;

// `==` of line maps is equality.
fn equality()
    ensures flip { IsEquality ⟦<Flip as PartialEq>⟧.eq }
    ensures turn { IsEquality ⟦<Turn as PartialEq>⟧.eq }
{}
