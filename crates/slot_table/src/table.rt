// The slot table: a device whose slots are records in the caller's memory.
ghost use Rattle.std.specs.Prelude.{◌≡◌, [], min, length, replicate, drop};
ghost use Rattle.rows.specs.Widths.{places_of};
ghost use Rattle.device.specs.States.{blank_state};

use super::record::SlotRecord;
use device::checks::{check_number, check_row, check_slot};
use device::device::RowDevice;
use rows::refusal::Refusal;
use rows::row::Row;
use rows::slots::MOST_SLOTS;
use rows::width::Width;

/// A device over records in the caller's memory, of which the first 120 are slots; the others are never touched.
#[derive(Drop)]
pub struct SlotTable<'a> {
    width: Width,
    records: &'a mut [SlotRecord],
    muted: bool,
}

impl<'a> SlotTable<'a> {
    ghost use Rattle.slot_table.specs.SlotTables.{memory_with, records_of, spare_records};

    /// A table over the caller's records, its slots empty and the mute off.
    pub fn new(width: Width, records: &'a mut [SlotRecord]) -> SlotTable<'a>
        ensures begins { ⟦<SlotTable<'a> as RowDevice>⟧.state result ≡
            blank_state (places_of width) (min 120 (length records.old)) }
        ensures no_levels { ⟦<SlotTable<'a> as RowDevice>⟧.levels result ≡ [] }
        ensures rest { spare_records result ≡ drop 120 records.old }
        ensures memory { records_of result ≡
            memory_with (replicate (min 120 (length records.old)) None) records.old }
        ensures same_memory { result.records.ghost_name ≡ records.entry.ghost_name }
    {
        let used = records.len().min(MOST_SLOTS);
        records[..used].fill(SlotRecord::EMPTY);
        SlotTable {
            width,
            records,
            muted: false,
        }
    }
}

#[tactic(auto, using(crate::proofs::Tables::table_length))]
impl RowDevice for SlotTable<'_> {
    ghost use Rattle.device.specs.Answers.{put_answer, after_put, empty_answer, after_empty, after_mute, written_by};
    ghost use Rattle.device.specs.Levels.{carryings};
    ghost use Rattle.slot_table.specs.SlotTables.{record_of, records_after, records_of, slot_table_state, spare_records, KeepsRecords};
    ghost use Rattle.slot_table.specs.SlotTableLaws.{table_lawful, keeps_at_rest, keeps_on};

    ghost state = { λ t. slot_table_state t };

    ghost lawful = { λ t. table_lawful t };

    ghost levels = { λ _. [] };

    ghost beneath = { λ _. tt };

    ghost keeps = { KeepsRecords };

    ghost keeps_at_rest = { λ t. keeps_at_rest t };

    ghost keeps_on = { λ t u v before after h k. keeps_on t u v before after h k };

    fn put(&mut self, slot: usize, row: Row) -> Result<(), Refusal>
        ensures answer { result ≡ put_answer (⟦<Self as RowDevice>⟧.state self.old) slot row }
        ensures after { ⟦<Self as RowDevice>⟧.state self.new ≡
            after_put (⟦<Self as RowDevice>⟧.state self.old) slot row }
        ensures beside { ⟦<Self as RowDevice>⟧.keeps self.old (written_by slot result) self.new }
        ensures same_ways { carryings (⟦<Self as RowDevice>⟧.levels self.new) ≡
            carryings (⟦<Self as RowDevice>⟧.levels self.old) }
        ensures rest { spare_records self.new ≡ spare_records self.old }
        ensures memory { records_of self.new ≡
            records_after result (records_of self.old) slot (record_of (Some row)) }
    {
        check_slot(slot, self.slot_count())?;
        check_row(row, self.width)?;
        self.records[slot] = SlotRecord::from(row);
        Ok(())
    }

    fn empty(&mut self, slot: usize) -> Result<(), Refusal>
        ensures answer { result ≡ empty_answer (⟦<Self as RowDevice>⟧.state self.old) slot }
        ensures after { ⟦<Self as RowDevice>⟧.state self.new ≡
            after_empty (⟦<Self as RowDevice>⟧.state self.old) slot }
        ensures beside { ⟦<Self as RowDevice>⟧.keeps self.old (written_by slot result) self.new }
        ensures same_ways { carryings (⟦<Self as RowDevice>⟧.levels self.new) ≡
            carryings (⟦<Self as RowDevice>⟧.levels self.old) }
        ensures rest { spare_records self.new ≡ spare_records self.old }
        ensures memory { records_of self.new ≡
            records_after result (records_of self.old) slot (record_of None) }
    {
        check_slot(slot, self.slot_count())?;
        self.records[slot] = SlotRecord::EMPTY;
        Ok(())
    }

    fn read(&self, slot: usize) -> Result<Option<Row>, Refusal> {
        check_slot(slot, self.slot_count())?;
        Ok(self.records[slot].row(self.width))
    }

    fn mute(&mut self, on: bool)
        ensures after { ⟦<Self as RowDevice>⟧.state self.new ≡
            after_mute (⟦<Self as RowDevice>⟧.state self.old) on }
        ensures beside { ⟦<Self as RowDevice>⟧.keeps self.old [] self.new }
        ensures same_ways { carryings (⟦<Self as RowDevice>⟧.levels self.new) ≡
            carryings (⟦<Self as RowDevice>⟧.levels self.old) }
        ensures rest { spare_records self.new ≡ spare_records self.old }
        ensures memory { records_of self.new ≡ records_of self.old }
    {
        self.muted = on;
    }

    fn ask(&self, number: u64) -> Result<bool, Refusal> {
        check_number(number, self.width)?;
        if self.muted {
            return Ok(false);
        }
        let count = self.slot_count();
        // by index, since there may be more records than slots
        for (slot, record) in self.records.iter().enumerate() {
            if slot >= count {
                break;
            }
            if record.row(self.width).is_some_and(|row| row.takes(number)) {
                return Ok(true);
            }
        }
        Ok(false)
    }

    fn width(&self) -> Width {
        self.width
    }

    fn slot_count(&self) -> usize {
        self.records.len().min(MOST_SLOTS)
    }
}
