// What holds of the types, each the contract of a small function.
ghost use Rattle.covers.specs.Equality.{IsEquality};

use super::sheet_size::SheetSize;

// `==` of sheet sizes is equality.
fn equality()
    ensures sheet_size { IsEquality ⟦<SheetSize as PartialEq>⟧.eq }
{}
