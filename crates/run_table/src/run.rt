// Runs of numbers: the ranges that a set consists of.
ghost use Rattle.std.specs.Prelude.{◌≡◌};
ghost use Rattle.covers.specs.Rivals.{in_ranges};
ghost use Rattle.rows.specs.Ranges.{ranges_of};

use rows::range::Range;

// The most runs of a table.
pub(super) const MOST_RUNS: usize = 16;

// Whether one of the runs has the number.
pub(super) fn any_contains(runs: &[Range], number: u64) -> bool
    ensures value { result ≡ in_ranges (ranges_of runs.now) number }
{
    runs.iter().any(|run| run.contains(number))
}
