// The rows of a range.
ghost use Rattle.std.specs.Prelude.{◌≡◌, ◌+◌, ◌^◌, ◌<◌, ◌≤◌, true, cond, ◌++◌, map, length, take, drop, Ok, Err, is_err, IfOk, nat_le, bit_and, count_ones};
ghost use Rattle.std.specs.List.{AllByRecursion};
ghost use Rattle.arrayvec.specs.ArrayVec.{Extends};
ghost use Rattle.covers.specs.Rivals.{in_range, Shortest, TakesPrecisely};
ghost use Rattle.covers.specs.Rules.{most_rows, rows_of_range};
ghost use Rattle.rows.specs.Memory.{words_of};
ghost use Rattle.rows.specs.declared.refusal.Refusal.TheVariants.{MemoryTooShort};
ghost use Rattle.ranges.specs.Building.{HasRoom, range_words};
ghost use Rattle.ranges.specs.FromZero.{rows_below};
ghost use Rattle.ranges.specs.RangeRows.{range_answer, rows_in};
ghost use Rattle.rows.specs.Widths.{places_of};

use super::ends::Ends;
use super::lists::RowList;
use super::memory::hand_over;
use super::stretch::Stretch;
use rows::range::Range;
use rows::refusal::Refusal;
use rows::row_words::RowWords;
use rows::width::Width;

// The most rows that a range of any width needs, and so the most numbers of a witness.
pub const MOST_ROWS: usize = 62;

// Writes the rows that take the numbers of the range at the start of memory, and answers how many they are. Refused if
// an end is no number of the width, then if memory is shorter than the list.
pub fn rows_of_range(width: Width, range: Range, memory: &mut [RowWords]) -> Result<usize, Refusal>
    ensures answer { result ≡ range_answer (places_of width) range.first range.last (length memory.old) }
    ensures written { IfOk result (λ k. memory.new ≡ map words_of (rows_of_range (places_of width) range.first range.last) ++ drop k memory.old) }
    ensures untouched_when_refused { is_err result ≡ true → memory.new ≡ memory.old }
    ensures by_the_rules { IfOk result (λ k. rows_in (places_of width) k memory.new ≡ rows_of_range (places_of width) range.first range.last) }
    ensures of_width { IfOk result (λ k.
        AllByRecursion (λ words. words.care < 2 ^ places_of width) (take k memory.new)) }
    ensures no_value_under_dashes { IfOk result (λ k.
        AllByRecursion (λ words. bit_and words.value words.care ≡ words.value) (take k memory.new)) }
    ensures rows_from_zero { range.first ≡ 0 → range.last + 1 < 2 ^ places_of width →
        IfOk result (λ k. take k memory.new ≡ rows_below (places_of width) (range.last + 1)) }
    ensures count_from_zero { range.first ≡ 0 → range.last < 2 ^ places_of width →
        result ≡ cond (nat_le (count_ones (range.last + 1)) (length memory.old))
        (Ok (count_ones (range.last + 1))) (Err MemoryTooShort) }
    ensures few { IfOk result (λ k. k ≤ most_rows (places_of width)) }
    ensures exact { IfOk result (λ k. TakesPrecisely (places_of width) (rows_in (places_of width) k memory.new) (in_range range.first range.last)) }
    ensures shortest { IfOk result (λ k. Shortest (places_of width) (rows_in (places_of width) k memory.new)) }
{
    let ends = Ends::of(width, range)?;
    let mut rows = RowList::new();
    write_rows(ends, &mut rows);
    hand_over(&rows, memory)
}

// Adds the rows of the range; the whole circle has one row, of dashes.
pub(super) fn write_rows(ends: Ends, rows: &mut RowList)
    requires room { HasRoom rows.old (range_words ends) }
    ensures rows { Extends rows.old (range_words ends) rows.new }
{
    if ends.is_whole() {
        return rows.push(RowWords { value: 0, care: 0 });
    }
    let mut stretch = Stretch::of(ends);
    stretch.write(rows);
}
