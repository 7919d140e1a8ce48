// A row in memory.

// A row as it lies in memory: a plain pair of words, of which any two make a row.
#[derive(Clone, Copy, PartialEq, Eq, Default, Debug)]
pub struct RowWords {
    pub value: u32,
    pub care: u32,
}
