// Ranges as they are printed.
ghost use Rattle.std.specs.Prelude.{Some};
ghost use Rattle.shown.specs.Counts.{range_text};

use rows::range::Range;
use std::fmt;

// The first number and the last, as "3 to 12".
#[derive(Clone, Copy)]
pub struct ShownRange(pub Range);

impl fmt::Display for ShownRange {
    ghost output = { λ shown. Some (range_text shown.0) };

    fn fmt<W: fmt::Write>(&self, f: &mut fmt::Formatter<W>) -> fmt::Result {
        let Range { first, last } = self.0;
        write!(f, "{first} to {last}")
    }
}
