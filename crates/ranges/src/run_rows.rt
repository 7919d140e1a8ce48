// The rows of runs in the caller's memory.
ghost use Rattle.std.specs.Prelude.{◌≡◌, ◌-◌, ◌*◌, ◌^◌, ◌≤◌, min, true, ◌++◌, map, length, drop, is_err, IfOk};
ghost use Rattle.covers.specs.Rivals.{NumberSet, TakesPrecisely};
ghost use Rattle.circle.specs.Runs.{rows_of_set};
ghost use Rattle.rows.specs.Memory.{words_of};
ghost use Rattle.rows.specs.Ranges.{ranges_of};
ghost use Rattle.rows.specs.Widths.{places_of};
ghost use Rattle.ranges.specs.RangeRows.{rows_in};
ghost use Rattle.ranges.specs.RangesWithin.{rows_answer, rows_in_width, rows_of_ranges_within};
ghost use Rattle.ranges.specs.SeveralRanges.{RunsOf};

use super::range::{MOST_ROWS, rows_of_range};
use rows::range::Range;
use rows::refusal::Refusal;
use rows::row_words::RowWords;
use rows::width::Width;

/// How many rows the runs have together; one with an end outside the width has none. Only more than 2^58 runs, which no
/// memory has, can have more rows than a `usize` counts: then it is the highest `usize`.
pub fn row_count(width: Width, runs: &[Range]) -> usize
    ensures value { length runs.now ≤ 2 ^ 58 →
        result ≡ length (rows_of_ranges_within (places_of width) (ranges_of runs.now)) }
    ensures at_any_length { result ≡ min (length (rows_of_ranges_within (places_of width) (ranges_of runs.now))) (2 ^ 64 - 1) }
    ensures of_set { (S : NumberSet) → RunsOf (places_of width) S runs.now →
        result ≡ length (rows_of_set (places_of width) S) }
    ensures high_bound { result ≤ 62 * length runs.now }
    ensures few { length runs.now ≤ 16 → result ≤ 992 }
{
    let mut scratch = [RowWords { value: 0, care: 0 }; MOST_ROWS];
    let mut count: usize = 0;
    for run in runs {
        count = count.saturating_add(write_rows_of_run(width, *run, &mut scratch));
    }
    count
}

/// Writes the rows of the runs one run after the other at the start of memory, none for a run with an end outside the
/// width, and answers how many they are. Refused 3 if memory is shorter than the list. Where the runs are those of a set,
/// they are the rows of the set, and take precisely the set.
pub fn write_rows(width: Width, runs: &[Range], memory: &mut [RowWords]) -> Result<usize, Refusal>
    ensures answer { result ≡ rows_answer (rows_of_ranges_within (places_of width) (ranges_of runs.now)) (length memory.old) }
    ensures written { IfOk result (λ k. memory.new
        ≡ map words_of (rows_of_ranges_within (places_of width) (ranges_of runs.now)) ++ drop k memory.old) }
    ensures by_the_rules { (S : NumberSet) → RunsOf (places_of width) S runs.now →
        IfOk result (λ k. rows_in (places_of width) k memory.new ≡ rows_of_set (places_of width) S) }
    ensures exact { (S : NumberSet) → RunsOf (places_of width) S runs.now →
        IfOk result (λ k. TakesPrecisely (places_of width) (rows_in (places_of width) k memory.new) S) }
    ensures untouched_when_refused { is_err result ≡ true → memory.new ≡ memory.old }
{
    let count = row_count(width, runs);
    let room = memory.len();
    if count > room {
        return Err(Refusal::MemoryTooShort);
    }
    write_rows_of(width, runs, memory);
    Ok(count)
}

// Writes the rows of the runs at the start of memory.
fn write_rows_of(width: Width, runs: &[Range], memory: &mut [RowWords])
    requires room { length (rows_of_ranges_within (places_of width) (ranges_of runs.now)) ≤ length memory.old }
    ensures rows { memory.new ≡ map words_of (rows_of_ranges_within (places_of width) (ranges_of runs.now))
        ++ drop (length (rows_of_ranges_within (places_of width) (ranges_of runs.now))) memory.old }
{
    let mut next = 0;
    for run in runs {
        next += write_rows_of_run(width, *run, &mut memory[next..]);
    }
}

// Writes the rows of the run at the start of memory, none if an end is no number of the width.
fn write_rows_of_run(width: Width, run: Range, memory: &mut [RowWords]) -> usize
    requires room { length (rows_in_width (places_of width) (run.first, run.last)) ≤ length memory.old }
    ensures rows { memory.new ≡ map words_of (rows_in_width (places_of width) (run.first, run.last)) ++ drop result memory.old }
    ensures count { result ≡ length (rows_in_width (places_of width) (run.first, run.last)) }
{
    match rows_of_range(width, run, memory) {
        Ok(count) => count,
        Err(_) => 0,
    }
}
