// Rows and witness of a range at width 32.
use super::stopwatch::timed;
use ranges::range::{MOST_ROWS, rows_of_range};
use ranges::witness::witness_of_range;
use rows::range::Range;
use rows::row_words::RowWords;
use rows::width::Width;
use shown::outcome::Outcome;
use std::io;
use std::rt::Clock;

const CALLS: u32 = 100_000;

// The range from a first number that rises with the calls.
fn shortened(range: Range, call: u32) -> Range {
    let first = range.first.wrapping_add(u64::from(call % 1024));
    Range::new(first, range.last)
}

fn measure_at<R: Print + Clock>(rt: &R, name: &str, range: Range) -> io::Result<()> {
    let width = Width::try_from(32).unwrap();
    let mut memory = [RowWords::default(); MOST_ROWS];
    let rows = timed(rt, CALLS, |call| {
        rows_of_range(width, shortened(range, call), &mut memory)
    })?;
    let mut memory = [0u64; MOST_ROWS];
    let numbers = timed(rt, CALLS, |call| {
        witness_of_range(width, shortened(range, call), &mut memory)
    })?;
    let rows = Outcome(rows.map(|time| time.in_unit("rows")));
    let numbers = Outcome(numbers.map(|time| time.in_unit("numbers")));
    println!(rt; "{name}: rows{rows}, witness{numbers}")
}

pub(super) fn measure<R: Print + Clock>(rt: &R) -> io::Result<()> {
    let ranges = [
        ("range overlapping the middle", Range::new(1, 4_294_967_294)),
        (
            "range apart from the middle",
            Range::new(1_431_655_766, 2_863_311_529),
        ),
        (
            "range round the circle",
            Range::new(2_863_311_530, 1_431_655_765),
        ),
    ];
    for (name, range) in ranges {
        measure_at(rt, name, range)?;
    }
    Ok(())
}
