// A row: the numbers that it takes are those that agree with its value at every place where it cares.
ghost use Rattle.std.specs.Prelude.{◌≡◌, ℕ, ◌^◌, ◌<◌, ◌==◌, map, bit_and};
ghost use Rattle.covers.specs.Digits.{digits};
ghost use Rattle.covers.specs.Symbols.{letter, takes};
ghost use Rattle.covers.specs.Words.{symbol_at, symbols};
ghost use Rattle.rows.specs.Widths.{places_of};

use super::digit::has_one;
use super::row_words::RowWords;
use super::width::{MOST_PLACES, Width};
use arrayvec::ArrayString;
use covers::symbol::Symbol;

// A value and a care mask of 32 places each, never with a 1 in the value where it does not care.
#[derive(Clone, Copy, PartialEq, Eq, Debug)]
pub struct Row {
    value: u32,
    care: u32,
    ghost clean: { bit_and value care ≡ value },
}

/// A row as it is written, in fixed room: as many symbols as its width has places.
pub type RowText = ArrayString<MOST_PLACES>;

impl Row {
    // The row of a value and a care mask; ones of the value where it does not care are cleared.
    pub fn new(value: u32, care: u32) -> Row
        ensures value { result.value ≡ bit_and value care }
        ensures care { result.care ≡ care }
    {
        Row {
            value: value & care,
            care,
        }
    }

    pub fn value(self) -> u32
        ensures value { result ≡ self.value }
    {
        self.value
    }

    pub fn care(self) -> u32
        ensures value { result ≡ self.care }
    {
        self.care
    }

    // The symbol at a place; the last place is place 0, and beyond the 32 places there are dashes.
    pub fn symbol_at(self, place: u32) -> Symbol
        ensures value { result ≡ symbol_at self.value self.care place }
    {
        if !has_one(u64::from(self.care), place) {
            Symbol::Dash
        } else if has_one(u64::from(self.value), place) {
            Symbol::One
        } else {
            Symbol::Zero
        }
    }

    // Whether the row takes the number.
    pub fn takes(self, number: u64) -> bool
        ensures by_mask { result ≡ (bit_and number self.care == self.value) }
        ensures by_symbols { (n : ℕ) → self.care < 2 ^ n → result ≡ takes (symbols n self.value self.care) (digits n number) }
    {
        number & u64::from(self.care) == u64::from(self.value)
    }

    /// The row as it is written at a width: a symbol for each place, the first place first.
    pub fn text(self, width: Width) -> RowText
        ensures symbols { result.bytes ≡ map letter (symbols (places_of width) self.value self.care) }
    {
        let mut text = RowText::new();
        for place in (0..width.places()).rev() {
            text.push(char::from(self.symbol_at(place)));
        }
        text
    }
}

impl From<RowWords> for Row {
    ghost from_gives = { λ words row. (row.value ≡ bit_and words.value words.care) × (row.care ≡ words.care) };

    // The row that two words in memory stand for.
    fn from(words: RowWords) -> Row {
        Row::new(words.value, words.care)
    }
}

impl From<Row> for RowWords {
    ghost from_gives = { λ row words. (words.value ≡ row.value) × (words.care ≡ row.care) };

    // The row as words for memory.
    fn from(row: Row) -> RowWords {
        RowWords {
            value: row.value,
            care: row.care,
        }
    }
}
