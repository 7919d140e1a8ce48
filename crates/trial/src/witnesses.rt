// Ranges with their rows, and beside the rows a witness that no list is shorter.
use ranges::range::{MOST_ROWS, rows_of_range};
use ranges::witness::witness_of_range;
use rows::range::Range;
use rows::refusal::Refusal;
use rows::row::Row;
use rows::row_words::RowWords;
use rows::width::Width;
use shown::outcome::Outcome;
use shown::range::ShownRange;
use std::{fmt, io};

// A range's rows, and beside each of them a number of the witness: two arrays and a count, since two calls fill them.
#[derive(Drop)]
struct Witnessed {
    width: Width,
    rows: [RowWords; MOST_ROWS],
    numbers: [u64; MOST_ROWS],
    count: usize,
}

impl Witnessed {
    fn of_range(places: u64, range: Range) -> Result<Witnessed, Refusal> {
        let width = Width::try_from(places)?;
        let mut rows = [RowWords::default(); MOST_ROWS];
        let mut numbers = [0; MOST_ROWS];
        rows_of_range(width, range, &mut rows)?;
        let count = witness_of_range(width, range, &mut numbers)?;
        Ok(Witnessed {
            width,
            rows,
            numbers,
            count,
        })
    }
}

impl fmt::Display for Witnessed {
    fn fmt<W: fmt::Write>(&self, f: &mut fmt::Formatter<W>) -> fmt::Result {
        let places = self.width.places() as usize;
        let pairs = self.rows.iter().zip(self.numbers.iter());
        for (words, number) in pairs.take(self.count) {
            let row = Row::from(*words).text(self.width);
            write!(f, " {row}/{number:0places$b}")?;
        }
        Ok(())
    }
}

pub(super) fn rows_and_witnesses(rt: &impl Print) -> io::Result<()> {
    println!(rt; "Rows, and beside them numbers no two of which one row can take")?;
    let ranges = [
        (3, Range::new(1, 6)),
        (3, Range::new(0, 4)),
        (4, Range::new(3, 12)),
        (4, Range::new(1, 12)),
        (3, Range::new(6, 4)),
        (2, Range::new(3, 0)),
        (5, Range::new(31, 30)),
        (5, Range::new(17, 15)),
        (3, Range::new(1, 8)),
    ];
    for (places, range) in ranges {
        let shown = Outcome(Witnessed::of_range(places, range));
        println!(rt; "width {places}, {}:{shown}", ShownRange(range))?;
    }
    Ok(())
}
