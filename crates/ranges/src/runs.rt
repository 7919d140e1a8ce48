// The rows of runs.
ghost use Rattle.std.specs.Prelude.{◌≡◌, ◌+◌, ◌-◌, ◌^◌, ◌<◌, ◌≤◌, min, true, false, length, drop, is_err, Err, OnOk, IfOk, IfErr, bit_and};
ghost use Rattle.std.specs.List.{AllByRecursion};
ghost use Rattle.arrayvec.specs.ArrayVec.{Extends, array_vec_len};
ghost use Rattle.covers.specs.Rivals.{NumberSet, TakesPrecisely};
ghost use Rattle.circle.specs.Runs.{rows_of_set};
ghost use Rattle.rows.specs.declared.refusal.Refusal.TheVariants.{NumberOutsideWidth, TooManyRows};
ghost use Rattle.rows.specs.Memory.{rows_of};
ghost use Rattle.rows.specs.Ranges.{ranges_of};
ghost use Rattle.rows.specs.Widths.{places_of};
ghost use Rattle.ranges.specs.SeveralRanges.{all_in_width, rows_of_ranges, RowsAdded, RowsMade, RunsOf};

use super::ends::Ends;
use super::lists::RowList;
use super::range::write_rows;
use arrayvec::ArrayVec;
use rows::range::Range;
use rows::refusal::Refusal;
use rows::row_words::RowWords;
use rows::slots::MOST_SLOTS;
use rows::width::Width;

/// The rows of runs, at most as many as a device can have slots.
pub type RunRows = ArrayVec<RowWords, MOST_SLOTS>;

/// The rows of the runs, one run after the other: at most `room` of them, and at most 120. Where the runs are those of a
/// set, the rows take precisely the set. Refused 2 if an end of a run is no number of the width, then 7 if the rows are
/// more.
pub fn rows_of_runs(width: Width, runs: &[Range], room: usize) -> Result<RunRows, Refusal>
    ensures outside { all_in_width (places_of width) (ranges_of runs.now) ≡ false →
        result ≡ Err NumberOutsideWidth }
    ensures made { all_in_width (places_of width) (ranges_of runs.now) ≡ true →
        RowsMade (rows_of_ranges (places_of width) (ranges_of runs.now)) room result }
    ensures of_set { (S : NumberSet) → RunsOf (places_of width) S runs.now →
        RowsMade (rows_of_set (places_of width) S) room result }
    ensures by_the_rules { (S : NumberSet) → RunsOf (places_of width) S runs.now →
        IfOk result (λ rows. rows_of (places_of width) rows.items ≡ rows_of_set (places_of width) S) }
    ensures exact { (S : NumberSet) → RunsOf (places_of width) S runs.now →
        IfOk result (λ rows. TakesPrecisely (places_of width) (rows_of (places_of width) rows.items) S) }
    ensures few { IfOk result (λ rows. length rows.items ≤ min room 120) }
    ensures of_width { IfOk result (λ rows.
        AllByRecursion (λ words. words.care < 2 ^ places_of width) rows.items) }
    ensures no_value_under_dashes { IfOk result (λ rows.
        AllByRecursion (λ words. bit_and words.value words.care ≡ words.value) rows.items) }
{
    let mut rows = RunRows::new();
    add_rows_of_runs(width, runs, room, &mut rows)?;
    Ok(rows)
}

/// Adds the rows of the runs to the list, one run after the other: at most `room` of them. Refused 2 if an end of a run is
/// no number of the width, then 7 if the rows are more, or more than the list still takes; the list stays as it was then.
/// Where the runs are those of a set, the rows that are added take precisely the set.
///
/// It is the one function that makes the rows of a set for a filter: another maker of rows is to stand in its place. The
/// list is lent, since one for 120 rows takes longer to hand back than the rows of a short run take to make.
pub fn add_rows_of_runs(
    width: Width,
    runs: &[Range],
    room: usize,
    rows: &mut RunRows,
) -> Result<(), Refusal>
    ensures outside { all_in_width (places_of width) (ranges_of runs.now) ≡ false →
        result ≡ Err NumberOutsideWidth }
    ensures added { all_in_width (places_of width) (ranges_of runs.now) ≡ true →
        RowsAdded (rows_of_ranges (places_of width) (ranges_of runs.now)) room rows.old rows.new result }
    ensures of_set { (S : NumberSet) → RunsOf (places_of width) S runs.now →
        RowsAdded (rows_of_set (places_of width) S) room rows.old rows.new result }
    ensures by_the_rules { (S : NumberSet) → RunsOf (places_of width) S runs.now →
        OnOk result (rows_of (places_of width) (drop (array_vec_len rows.old) rows.new.items)
        ≡ rows_of_set (places_of width) S) }
    ensures exact { (S : NumberSet) → RunsOf (places_of width) S runs.now →
        OnOk result (TakesPrecisely (places_of width)
        (rows_of (places_of width) (drop (array_vec_len rows.old) rows.new.items)) S) }
    ensures few { OnOk result (array_vec_len rows.new
        ≤ array_vec_len rows.old + min room (120 - array_vec_len rows.old)) }
    ensures of_width { OnOk result (AllByRecursion (λ words. words.care < 2 ^ places_of width)
        (drop (array_vec_len rows.old) rows.new.items)) }
    ensures no_value_under_dashes { OnOk result
        (AllByRecursion (λ words. bit_and words.value words.care ≡ words.value)
        (drop (array_vec_len rows.old) rows.new.items)) }
    ensures untouched_when_refused { is_err result ≡ true → rows.new ≡ rows.old }
{
    if !all_within(width, runs) {
        return Err(Refusal::NumberOutsideWidth);
    }
    let before = rows.len();
    let most = room.saturating_add(before);
    for run in runs {
        let ends = Ends::of(width, *run)?;
        let mut more = RowList::new();
        write_rows(ends, &mut more);
        if let Err(refusal) = append(rows, &more, most) {
            rows.truncate(before);
            return Err(refusal);
        }
    }
    Ok(())
}

// Whether both ends of each run are numbers of the width.
fn all_within(width: Width, runs: &[Range]) -> bool
    ensures value { result ≡ all_in_width (places_of width) (ranges_of runs.now) }
{
    runs.iter().all(|run| run.is_within(width))
}

// Appends more rows; refused, and nothing appended, if they would then be more than `room`, or than 120.
fn append(rows: &mut RunRows, more: &[RowWords], room: usize) -> Result<(), Refusal>
    ensures appended { OnOk result (Extends rows.old more.now rows.new) }
    ensures few { OnOk result (array_vec_len rows.new ≤ min room 120) }
    ensures refusal { IfErr result (λ e. (e ≡ TooManyRows)
        × (min room 120 < array_vec_len rows.old + length more.now)) }
    ensures untouched_when_refused { is_err result ≡ true → rows.new ≡ rows.old }
{
    if rows.len() + more.len() > room {
        return Err(Refusal::TooManyRows);
    }
    rows.try_extend_from_slice(more)
        .map_err(|_| Refusal::TooManyRows)
}
