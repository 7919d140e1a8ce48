// Steps on the circle of the numbers of a width, where 0 follows the highest.
ghost use Rattle.std.specs.Prelude.{◌≡◌};
ghost use Rattle.circle.specs.Runs.{after, before};
ghost use Rattle.rows.specs.Widths.{places_of};
ghost use Rattle.run_table.specs.NewRuns.{steps};

use rows::width::Width;

// The number after this one.
pub(super) fn number_after(width: Width, number: u64) -> u64
    ensures value { result ≡ after (places_of width) number }
{
    number.wrapping_add(1) % width.limit()
}

// The number before this one.
pub(super) fn number_before(width: Width, number: u64) -> u64
    ensures value { result ≡ before (places_of width) number }
{
    number.wrapping_add(width.limit() - 1) % width.limit()
}

// How many steps up the circle lead from one number to another.
pub(super) fn steps_between(width: Width, from: u64, to: u64) -> u64
    ensures value { result ≡ steps (places_of width) from to }
{
    to.wrapping_sub(from) % width.limit()
}
