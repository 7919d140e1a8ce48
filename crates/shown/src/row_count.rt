// Counts of rows as they are printed.
ghost use Rattle.std.specs.Prelude.{Some};
ghost use Rattle.shown.specs.Counts.{count_text};

use std::fmt;

// How many rows there are, as "1 row" and "2 rows".
#[derive(Clone, Copy)]
pub struct RowCount(pub usize);

impl fmt::Display for RowCount {
    ghost output = { λ count. Some (count_text count.0) };

    fn fmt<W: fmt::Write>(&self, f: &mut fmt::Formatter<W>) -> fmt::Result {
        match self.0 {
            1 => write!(f, "1 row"),
            count => write!(f, "{count} rows"),
        }
    }
}
