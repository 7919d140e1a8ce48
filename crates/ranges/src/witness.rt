// The witness of a range.
ghost use Rattle.std.specs.Prelude.{◌≡◌, ℕ, ◌^◌, ◌<◌, true, List, ◌++◌, length, take, drop, is_err, IfOk};
ghost use Rattle.std.specs.List.{AllByRecursion};
ghost use Rattle.covers.specs.Rivals.{in_range, Pairs, Parted, Witness};
ghost use Rattle.covers.specs.Rules.{rows_of_range};
ghost use Rattle.covers.specs.WitnessNumbers.{numbers_of_range};
ghost use Rattle.arrayvec.specs.ArrayVec.{Extends};
ghost use Rattle.ranges.specs.Building.{HasRoom};
ghost use Rattle.ranges.specs.RangeRows.{range_answer};
ghost use Rattle.rows.specs.Widths.{places_of};

use super::beside::Beside;
use super::ends::Ends;
use super::lists::NumberList;
use super::memory::hand_over;
use arrayvec::ArrayVec;
use rows::range::Range;
use rows::refusal::Refusal;
use rows::width::Width;

// Writes numbers of the range at the start of memory, as many as its rows are, and answers how many they are. No row that
// keeps to the range takes two of them, so no list of rows for the range is shorter than they are many. Which numbers
// they are is left free. Refused as the rows of the range are.
pub fn witness_of_range(width: Width, range: Range, memory: &mut [u64]) -> Result<usize, Refusal>
    ensures answer { result ≡ range_answer (places_of width) range.first range.last (length memory.old) }
    ensures numbers_left_free { IfOk result (λ k. (numbers : List ℕ) × (length numbers ≡ k) × (memory.new ≡ numbers ++ drop k memory.old)) }
    ensures untouched_when_refused { is_err result ≡ true → memory.new ≡ memory.old }
    ensures as_many { IfOk result (λ k. k ≡ length (rows_of_range (places_of width) range.first range.last)) }
    ensures members { IfOk result (λ k. AllByRecursion (λ x. (x < 2 ^ places_of width) × (in_range range.first range.last x ≡ true)) (take k memory.new)) }
    ensures parted { IfOk result (λ k. Pairs (Parted (places_of width) (in_range range.first range.last)) (take k memory.new)) }
    ensures witness { IfOk result (λ k. Witness (places_of width) (in_range range.first range.last) (take k memory.new)) }
{
    let ends = Ends::of(width, range)?;
    let mut numbers = ArrayVec::new();
    write_numbers(ends, &mut numbers);
    hand_over(&numbers, memory)
}

// Adds the numbers of the range: of the whole circle one, else those beside the numbers before and after the range.
fn write_numbers(ends: Ends, numbers: &mut NumberList)
    requires room { HasRoom numbers.old (numbers_of_range ends.places ends.first ends.last) }
    ensures numbers { Extends numbers.old (numbers_of_range ends.places ends.first ends.last) numbers.new }
{
    let limit = ends.limit();
    // one line each, as in the steps of the run table; a call of a lower crate would be no shorter
    let before = (ends.first + limit - 1) % limit;
    let after = (ends.last + 1) % limit;
    if after == ends.first {
        numbers.push(ends.first);
    } else {
        let beside = Beside {
            before,
            after,
            places: ends.places,
        };
        beside.write(numbers);
    }
}
