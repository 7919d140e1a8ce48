// The size of a sheet.
use rows::width::Width;

// What the header of a sheet says: the width, and how many rows there are.
#[derive(Clone, Copy, PartialEq, Eq, Debug)]
pub struct SheetSize {
    pub width: Width,
    pub count: usize,
}
