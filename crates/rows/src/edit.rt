// An edit of a set of numbers.
ghost use Rattle.std.specs.Prelude.{◌≡◌};
ghost use Rattle.rows.specs.Edits.{adding, edit_in_width, edited};
ghost use Rattle.rows.specs.Widths.{places_of};

use super::range::Range;
use super::width::Width;

/// A range to add to a set of numbers, or to drop from it.
#[derive(Clone, Copy, PartialEq, Eq, Debug)]
pub enum Edit {
    Add(Range),
    Drop(Range),
}

impl Edit {
    /// Whether both ends are numbers of the width.
    pub fn in_width(self, width: Width) -> bool
        ensures value { result ≡ edit_in_width (places_of width) self }
    {
        match self {
            Edit::Add(range) | Edit::Drop(range) => range.is_within(width),
        }
    }

    /// Whether it adds its range.
    pub fn adds(self) -> bool
        ensures value { result ≡ adding self }
    {
        matches!(self, Edit::Add(_))
    }

    /// Whether a number is in the set after the edit, where `before` says whether it was.
    pub fn keeps(self, before: bool, number: u64) -> bool
        ensures value { result ≡ edited self (λ _. before) number }
    {
        match self {
            Edit::Add(range) => before || range.contains(number),
            Edit::Drop(range) => before && !range.contains(number),
        }
    }
}
