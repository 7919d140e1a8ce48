// The theorems, each the contract of a small function.
ghost use Rattle.std.specs.Prelude.{◌≡◌, ℕ, ◌≤◌};
ghost use Rattle.covers.specs.Rules.{most_rows};
ghost use Rattle.ranges.specs.FromZero.{RowsFromZero};

use super::range::MOST_ROWS;

fn rows_from_zero()
    ensures holds { RowsFromZero }
{}

// The room for a list is the most rows at the greatest width, and no width needs more.
fn most_rows_of_any_range()
    ensures at_width_32 { MOST_ROWS ≡ most_rows 32 }
    ensures at_every_width { (n : ℕ) → n ≤ 32 → most_rows n ≤ MOST_ROWS }
{}
