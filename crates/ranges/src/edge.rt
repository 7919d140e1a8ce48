// The rows of the lowest or the highest numbers behind a front.
ghost use Rattle.std.specs.Prelude.{◌≡◌, ◌+◌, ◌-◌, ◌^◌, ◌<◌, ◌≤◌, cond};

use super::front::Front;
use super::lists::RowList;
use rows::row_words::RowWords;

// The `count` lowest numbers of the front's free places or, exchanged, the highest.
#[derive(Clone, Copy)]
pub struct Edge {
    pub front: Front,
    pub count: u64,
    pub exchanged: bool,
    ghost some: { 1 ≤ count },
    ghost count_within: { count ≤ 2 ^ front.places },
}

impl Edge {
    ghost use Rattle.arrayvec.specs.ArrayVec.{Extends};
    ghost use Rattle.ranges.specs.Building.{HasRoom, edge_words};

    // Adds the rows of these numbers.
    pub(super) fn write(self, rows: &mut RowList)
        requires room { HasRoom rows.old (edge_words self) }
        ensures rows { Extends rows.old (edge_words self) rows.new }
    {
        if self.count == 1u64 << self.front.places {
            rows.push(self.front.words);
        } else {
            self.write_below(rows);
        }
    }

    // Adds a row for each 1 in the count, first place to last. So the list is full once it has as many rows as the count
    // has ones.
    fn write_below(self, rows: &mut RowList)
        requires not_all { self.count < 2 ^ self.front.places }
        requires room { HasRoom rows.old (edge_words self) }
        ensures rows { Extends rows.old (edge_words self) rows.new }
    {
        let full = rows.len() + self.count.count_ones() as usize;
        let mut left = self.count;
        while rows.len() < full {
            let bit = 1u64 << (63 - left.leading_zeros());
            rows.push(self.row_for_one(self.count - left, bit));
            left -= bit;
        }
    }

    // The row for a 1 of the count, which counts `bit`: the digits before it, which count `before`, then 0, then dashes.
    fn row_for_one(self, before: u64, bit: u64) -> RowWords
        requires some { 1 ≤ bit }
        requires within { before + bit ≤ 2 ^ self.front.places }
        ensures value { result.value ≡ self.front.words.value
            + cond self.exchanged (2 ^ self.front.places - bit - before) before }
        ensures care { result.care ≡ self.front.words.care + (2 ^ self.front.places - bit) }
    {
        let care = (1u64 << self.front.places) - bit;
        let value = if self.exchanged {
            care - before
        } else {
            before
        };
        RowWords {
            value: self.front.words.value + value as u32,
            care: self.front.words.care + care as u32,
        }
    }
}
