// The body of a sheet: what stands after its header.
ghost use Rattle.std.specs.Prelude.{◌≡◌, ◌+◌, ◌*◌, ◌/◌, ◌^◌, ◌<◌, ◌≤◌, [], ◌∷◌, ◌++◌, length, take, drop};
ghost use Rattle.covers.specs.Digits.{all_zeros};
ghost use Rattle.covers.specs.Symbols.{Symbols};
ghost use Rattle.rows.specs.Memory.{words_of};
ghost use Rattle.sheet.specs.Reading.{symbol_if_coded};
ghost use Rattle.sheets.specs.Reading.{bits_of, code_at, symbols_of, unknown_code};

use super::codes::symbol_of;
use covers::symbol::Symbol;
use rows::row_words::RowWords;

// The codes of so many symbols, four to a byte, and the filling.
#[derive(Clone, Copy)]
pub(super) struct SheetBody<'a> {
    pub(super) bytes: &'a [u8],
    pub(super) symbols: usize,
    ghost inside: { symbols ≤ 4 * length bytes.now },
}

impl SheetBody<'_> {
    // Whether one of the codes is no symbol's.
    pub(super) fn has_unknown(&self) -> bool
        ensures value { result ≡ unknown_code (take (2 * self.now.symbols) (bits_of self.now.bytes.now)) }
    {
        (0..self.symbols).any(|index| self.symbol_at(index).is_none())
    }

    // Whether all bits after the symbols are zeros.
    pub(super) fn is_filled_with_zeros(&self) -> bool
        requires short { length self.now.bytes.now ≤ 960 }
        ensures value { result ≡ all_zeros (drop (2 * self.now.symbols) (bits_of self.now.bytes.now)) }
    {
        (self.symbols..4 * self.bytes.len()).all(|index| self.code_at(index) == 0)
    }

    // The row whose symbols begin at an index.
    pub(super) fn row_at(&self, first: usize, places: usize) -> RowWords
        requires narrow { places ≤ 32 }
        requires near { first ≤ 3840 }
        requires inside { first + places ≤ self.now.symbols }
        ensures words { result ≡ words_of (take places (drop first (symbols_of (bits_of self.now.bytes.now)))) }
    {
        let mut row = RowWords::default();
        // a `fold` was tried: it does not know that there is room for one more symbol
        for index in first..first + places {
            // every code is a symbol's when a row is read
            row = extended(row, self.symbol_at(index).unwrap_or(Symbol::Dash));
        }
        row
    }

    // The symbol at an index, where the code is one's.
    fn symbol_at(&self, index: usize) -> Option<Symbol>
        requires inside { index < self.now.symbols }
        ensures value { result ≡ symbol_if_coded (code_at (bits_of self.now.bytes.now) index) }
    {
        symbol_of(self.code_at(index))
    }

    // The code at an index.
    #[tactic(auto, using(sheets::proofs::Bodies::code_in_byte))]
    fn code_at(&self, index: usize) -> u8
        requires inside { index / 4 < length self.now.bytes.now }
        ensures value { result ≡ code_at (bits_of self.now.bytes.now) index }
    {
        let shift = 6 - 2 * (index % 4);
        (self.bytes[index / 4] >> shift) & 0b11
    }
}

// The row with a symbol put at its end.
fn extended(row: RowWords, symbol: Symbol) -> RowWords
    requires value_room { row.value < 2 ^ 31 }
    requires care_room { row.care < 2 ^ 31 }
    ensures words { (start : Symbols) → row ≡ words_of start → result ≡ words_of (start ++ (symbol ∷ [])) }
{
    let (value, care) = match symbol {
        Symbol::Zero => (0, 1),
        Symbol::One => (1, 1),
        Symbol::Dash => (0, 0),
    };
    RowWords {
        value: row.value * 2 + value,
        care: row.care * 2 + care,
    }
}
