// The rows of some ranges.
use super::show::ShownRows;
use ranges::range::{MOST_ROWS, rows_of_range};
use rows::range::Range;
use rows::refusal::Refusal;
use rows::row_words::RowWords;
use rows::width::Width;
use shown::outcome::Outcome;
use shown::range::ShownRange;
use shown::row_count::RowCount;
use std::{fmt, io};

// Rows, and before them how many they are.
#[derive(Clone, Copy)]
struct CountedRows<'a>(ShownRows<'a>);

impl fmt::Display for CountedRows<'_> {
    fn fmt<W: fmt::Write>(&self, f: &mut fmt::Formatter<W>) -> fmt::Result {
        write!(f, " {}:{}", RowCount(self.0.rows.len()), self.0)
    }
}

// The rows of a range at a width of so many places, written into memory.
fn rows_at(places: u64, range: Range, memory: &mut [RowWords]) -> Result<CountedRows<'_>, Refusal> {
    let width = Width::try_from(places)?;
    let count = rows_of_range(width, range, memory)?;
    let rows = &memory[..count];
    Ok(CountedRows(ShownRows { width, rows }))
}

// Prints the rows of a range, written into memory for so many rows.
fn account(rt: &impl Print, places: u64, range: Range, room: usize) -> io::Result<()> {
    let mut memory = [RowWords::default(); MOST_ROWS];
    let rows = Outcome(rows_at(places, range, &mut memory[..room.min(MOST_ROWS)]));
    println!(rt; "width {places}, {}:{rows}", ShownRange(range))
}

// Prints the rows of ranges at widths of so many places, with room for all rows.
fn account_all(rt: &impl Print, ranges: &[(u64, Range)]) -> io::Result<()> {
    for (places, range) in ranges {
        account(rt, *places, *range, MOST_ROWS)?;
    }
    Ok(())
}

pub(super) fn worked_ranges(rt: &impl Print) -> io::Result<()> {
    println!(rt; "Worked ranges")?;
    let ranges = [
        (3, Range::new(1, 6)),
        (3, Range::new(0, 4)),
        (3, Range::new(3, 7)),
        (3, Range::new(2, 5)),
        (3, Range::new(1, 5)),
        (3, Range::new(2, 6)),
        (4, Range::new(3, 12)),
        (4, Range::new(1, 12)),
        (3, Range::new(6, 4)),
        (2, Range::new(3, 0)),
    ];
    account_all(rt, &ranges)
}

pub(super) fn wide_ranges(rt: &impl Print) -> io::Result<()> {
    println!(rt; "Other widths, single numbers and the whole circle")?;
    let ranges = [
        (32, Range::new(1, 4_294_967_294)),
        (32, Range::new(0, 4_294_967_295)),
        (32, Range::new(4_294_967_295, 0)),
        (32, Range::new(2_147_483_648, 2_147_483_647)),
        (31, Range::new(1, 2_147_483_646)),
        (31, Range::new(1_073_741_825, 1_073_741_823)),
        (2, Range::new(1, 2)),
        (2, Range::new(2, 2)),
        (1, Range::new(0, 0)),
        (1, Range::new(1, 0)),
        (1, Range::new(0, 1)),
    ];
    account_all(rt, &ranges)
}

pub(super) fn refused_ranges(rt: &impl Print) -> io::Result<()> {
    println!(rt; "Refused")?;
    let refused = [
        (3, Range::new(1, 8), MOST_ROWS),
        (3, Range::new(8, 1), MOST_ROWS),
        (3, Range::new(1, 6), 2),
        (3, Range::new(1, 6), 0),
        (3, Range::new(8, 8), 0),
        (0, Range::new(0, 0), MOST_ROWS),
        (33, Range::new(0, 0), MOST_ROWS),
    ];
    for (places, range, room) in refused {
        account(rt, places, range, room)?;
    }
    Ok(())
}
