// The column table: a device that keeps its slots by columns.
ghost use Rattle.std.specs.Prelude.{◌≡◌, ℕ, ◌<◌, ◌≤◌, [], ◌&&◌, if◌then◌else◌, nat_eq, nat_lt, slice_index_or, IfOk, IfErr};
ghost use Rattle.covers.specs.Digits.{digit};
ghost use Rattle.rows.specs.declared.refusal.Refusal.TheVariants.{NoSuchSlot};
ghost use Rattle.rows.specs.Widths.{places_of};
ghost use Rattle.device.specs.States.{slot_takes};
ghost use Rattle.column_table.specs.Columns.{column_symbol, column_slot, row_symbol, blank_column};
ghost use Rattle.column_table.specs.ColumnTables.{slot_count};

use super::column::Column;
use super::slot_set::SlotSet;
use super::table_slot::TableSlot;
use covers::symbol::Symbol;
use device::checks::{check_number, check_row, check_slot};
use device::device::RowDevice;
use device::new_device::NewDevice;
use rows::digit::has_one;
use rows::refusal::Refusal;
use rows::row::Row;
use rows::row_words::RowWords;
use rows::slots::MOST_SLOTS;
use rows::width::Width;

/// A device by sets of slots: at each place, those with a row that admits a 0 there, and those with one that admits a 1.
// Of the wished count at most 120 are slots, so every value of the fields is a table.
#[derive(Drop)]
pub struct ColumnTable {
    width: Width,
    count: usize,
    columns: [Column; 32],
    muted: bool,
}

#[tactic(auto, using(crate::proofs::Columns::column_length))]
impl ColumnTable {
    // The slot of this index, refused if there are not so many slots.
    fn check_slot(&self, index: usize) -> Result<TableSlot, Refusal>
        ensures ok { IfOk result (λ slot. (slot.index ≡ index) × (index < slot_count self.now)) }
        ensures refusal { IfErr result (λ e. (e ≡ NoSuchSlot) × (slot_count self.now ≤ index)) }
    {
        check_slot(index, self.slot_count())?;
        Ok(TableSlot { index })
    }

    // The slots whose row takes the number: the sets of its digits, intersected.
    fn taking(&self, number: u64) -> SlotSet
        ensures value { (i : ℕ) → digit i result.bits ≡ (nat_lt i (slot_count self.now)
            && slot_takes (column_slot (places_of self.now.width) self.now.columns i) number) }
    {
        let places = self.width.places() as usize;
        let mut slots = SlotSet {
            bits: (1 << self.slot_count()) - 1,
        };
        for (place, column) in self.columns[..places].iter().enumerate() {
            slots.intersect(*column.admitting(has_one(number, place as u32)));
        }
        slots
    }

    // What lies in the slot, read column by column: nothing where a column has no symbol for it.
    fn content(&self, slot: TableSlot) -> Option<Row>
        ensures value { result ≡ column_slot (places_of self.now.width) self.now.columns slot.index }
    {
        let places = self.width.places() as usize;
        let mut words = RowWords::default();
        for (place, column) in self.columns[..places].iter().enumerate() {
            let bit = 1u32 << place;
            match column.symbol(slot)? {
                Symbol::Dash => {}
                Symbol::Zero => words.care |= bit,
                Symbol::One => {
                    words.care |= bit;
                    words.value |= bit;
                }
            }
        }
        Some(Row::from(words))
    }
}

#[tactic(auto, using(crate::proofs::Columns::column_length))]
impl RowDevice for ColumnTable {
    ghost use Rattle.column_table.specs.ColumnTables.{column_table_state};
    ghost use Rattle.column_table.specs.ColumnTableLaws.{column_table_lawful};

    ghost state = { λ t. column_table_state t };

    ghost lawful = { λ t. column_table_lawful t };

    ghost levels = { λ _. [] };

    ghost beneath = { λ _. tt };

    // nothing lies beside its meaning
    ghost keeps = { λ _ _ _. Unit {0} };

    ghost keeps_at_rest = { λ _. tt };

    ghost keeps_on = { λ _ _ _ _ _ _ _. tt };

    fn put(&mut self, slot: usize, row: Row) -> Result<(), Refusal> {
        let slot = self.check_slot(slot)?;
        check_row(row, self.width)?;
        write(&mut self.columns, slot, Some(row));
        Ok(())
    }

    fn empty(&mut self, slot: usize) -> Result<(), Refusal> {
        let slot = self.check_slot(slot)?;
        write(&mut self.columns, slot, None);
        Ok(())
    }

    fn read(&self, slot: usize) -> Result<Option<Row>, Refusal> {
        let slot = self.check_slot(slot)?;
        Ok(self.content(slot))
    }

    fn mute(&mut self, on: bool) {
        self.muted = on;
    }

    fn ask(&self, number: u64) -> Result<bool, Refusal> {
        check_number(number, self.width)?;
        Ok(!self.muted && !self.taking(number).is_empty())
    }

    fn width(&self) -> Width {
        self.width
    }

    fn slot_count(&self) -> usize {
        self.count.min(MOST_SLOTS)
    }
}

impl NewDevice for ColumnTable {
    fn new(width: Width, slots: usize) -> ColumnTable {
        ColumnTable {
            width,
            count: slots,
            columns: [Column::BLANK; 32],
            muted: false,
        }
    }
}

// Writes the row into the slot, column by column, or empties it.
fn write(columns: &mut [Column; 32], slot: TableSlot, row: Option<Row>)
    ensures value { (place i : ℕ) → place < 32 →
        column_symbol (slice_index_or columns.new place blank_column) i ≡
        (if nat_eq i slot.index then row_symbol row place
        else column_symbol (slice_index_or columns.old place blank_column) i) }
{
    for (place, column) in columns.iter_mut().enumerate() {
        column.write(slot, row.map(|row| row.symbol_at(place as u32)));
    }
}
