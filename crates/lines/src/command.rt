// What a line asks of the console.
use rows::edit::Edit;

/// A line after the first: an edit of the set of numbers, or the question whether a number is in it.
#[derive(Clone, Copy, PartialEq, Eq, Debug)]
pub enum Command {
    Edit(Edit),
    Ask { number: u64 },
}

/// The first line: the width, and how many slots are wished.
#[derive(Clone, Copy, PartialEq, Eq, Debug)]
pub struct Setup {
    pub width: u64,
    pub slots: u64,
}
