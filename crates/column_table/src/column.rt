// One column of a column table: which slots admit which digit at a place.
ghost use Rattle.std.specs.Prelude.{◌≡◌, ℕ, if◌then◌else◌, nat_eq};
ghost use Rattle.column_table.specs.Columns.{column_symbol};

use super::slot_set::SlotSet;
use super::table_slot::TableSlot;
use covers::symbol::Symbol;

// The slots that admit the digit 0, and those that admit the digit 1.
#[derive(Clone, Copy)]
pub struct Column {
    zeros: SlotSet,
    ones: SlotSet,
}

impl Column {
    // No slot admits a digit.
    pub(super) const BLANK: Column = Column {
        zeros: SlotSet::EMPTY,
        ones: SlotSet::EMPTY,
    };

    // The slots that admit the digit.
    pub(super) fn admitting(&self, one: bool) -> &SlotSet
        ensures value { result.now ≡ (if one then self.now.ones else self.now.zeros) }
    {
        if one { &self.ones } else { &self.zeros }
    }

    // What the slot asks for, or nothing if it admits neither digit.
    pub(super) fn symbol(self, slot: TableSlot) -> Option<Symbol>
        ensures value { result ≡ column_symbol self slot.index }
    {
        match (self.zeros.has(slot), self.ones.has(slot)) {
            (true, true) => Some(Symbol::Dash),
            (true, false) => Some(Symbol::Zero),
            (false, true) => Some(Symbol::One),
            (false, false) => None,
        }
    }

    // Has the slot admit the digits that the symbol admits, or neither.
    pub(super) fn write(&mut self, slot: TableSlot, symbol: Option<Symbol>)
        ensures value { (i : ℕ) → column_symbol self.new i ≡ (if nat_eq i slot.index then symbol else column_symbol self.old i) }
    {
        let zero = symbol.is_some_and(|symbol| symbol != Symbol::One);
        let one = symbol.is_some_and(|symbol| symbol != Symbol::Zero);
        self.zeros.set(slot, zero);
        self.ones.set(slot, one);
    }
}
