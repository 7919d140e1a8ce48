// A range of numbers.
ghost use Rattle.std.specs.Prelude.{◌≡◌};
ghost use Rattle.covers.specs.Rivals.{in_range};
ghost use Rattle.rows.specs.Widths.{places_of, in_width};

use super::width::Width;

// From its first number up the circle to its last: one whose first number is above its last goes round.
#[derive(Clone, Copy, PartialEq, Eq, Default, Debug)]
pub struct Range {
    pub first: u64,
    pub last: u64,
}

impl Range {
    pub fn new(first: u64, last: u64) -> Range
        ensures first { result.first ≡ first }
        ensures last { result.last ≡ last }
    {
        Range { first, last }
    }

    // Whether both ends are numbers of the width.
    pub fn is_within(self, width: Width) -> bool
        ensures value { result ≡ in_width (places_of width) self.first self.last }
    {
        let limit = width.limit();
        self.first < limit && self.last < limit
    }

    // Whether the range has the number: it is no more steps above the first number than the last one is, on the circle of
    // all words. One comparison, since a processor cannot foresee which of several decides.
    pub fn contains(self, number: u64) -> bool
        ensures value { result ≡ in_range self.first self.last number }
    {
        number.wrapping_sub(self.first) <= self.last.wrapping_sub(self.first)
    }
}
