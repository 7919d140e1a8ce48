// The symbols of a row.
ghost use Rattle.std.specs.Prelude.{◌≡◌, [], ◌∷◌, Some};
ghost use Rattle.covers.specs.Symbols.{letter};

use std::fmt;

// One symbol of a row: it asks for the digit 0, for the digit 1, or for neither.
#[derive(Clone, Copy, PartialEq, Eq, Debug)]
pub enum Symbol {
    Zero,
    One,
    Dash,
}

impl From<Symbol> for char {
    ghost from_gives = { λ symbol c. c ≡ letter symbol };

    // The character by which the symbol is written.
    fn from(symbol: Symbol) -> char {
        match symbol {
            Symbol::Zero => '0',
            Symbol::One => '1',
            Symbol::Dash => '-',
        }
    }
}

impl fmt::Display for Symbol {
    ghost output = { λ symbol. Some (letter symbol ∷ []) };

    fn fmt<W: fmt::Write>(&self, f: &mut fmt::Formatter<W>) -> fmt::Result {
        write!(f, "{}", char::from(*self))
    }
}
