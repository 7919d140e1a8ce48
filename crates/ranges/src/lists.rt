// The lists on the stack, in which the rows or the numbers of one range are put together.
use super::range::MOST_ROWS;
use arrayvec::ArrayVec;
use rows::row_words::RowWords;

pub(super) type RowList = ArrayVec<RowWords, MOST_ROWS>;

pub(super) type NumberList = ArrayVec<u64, MOST_ROWS>;
