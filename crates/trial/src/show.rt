// How lists of rows are printed.
use rows::row::Row;
use rows::row_words::RowWords;
use rows::width::Width;
use std::fmt;

// At most four rows on a line, and how many more there are.
#[derive(Clone, Copy)]
pub(super) struct ShownRows<'a> {
    pub(super) width: Width,
    pub(super) rows: &'a [RowWords],
}

impl fmt::Display for ShownRows<'_> {
    fn fmt<W: fmt::Write>(&self, f: &mut fmt::Formatter<W>) -> fmt::Result {
        for words in self.rows.iter().take(4) {
            write!(f, " {}", Row::from(*words).text(self.width))?;
        }
        if self.rows.len() > 4 {
            let more = self.rows.len() - 4;
            write!(f, " and {more} more")?;
        }
        Ok(())
    }
}
