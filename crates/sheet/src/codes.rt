// The codes of symbols: two bits each.
ghost use Rattle.std.specs.Prelude.{◌≡◌};
ghost use Rattle.sheet.specs.Reading.{symbol_if_coded};
ghost use Rattle.sheets.specs.Format.{code_number};

use covers::symbol::Symbol;

// The code of a symbol, by a match: the codes are the format's, and not the order of the enum's cases.
#[tactic(auto, unfolding(sheets::specs::Format::code_number, covers::specs::Digits::value))]
pub(super) fn code_of(symbol: Symbol) -> u8
    ensures value { result ≡ code_number symbol }
{
    match symbol {
        Symbol::Zero => 0b00,
        Symbol::One => 0b01,
        Symbol::Dash => 0b10,
    }
}

// The symbol of a code, where it is one's.
pub(super) fn symbol_of(code: u8) -> Option<Symbol>
    ensures value { result ≡ symbol_if_coded code }
{
    match code {
        0b00 => Some(Symbol::Zero),
        0b01 => Some(Symbol::One),
        0b10 => Some(Symbol::Dash),
        _ => None,
    }
}
