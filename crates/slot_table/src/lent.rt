// Records lent to a slot table for a list of calls.
ghost use Rattle.std.specs.Prelude.{◌≡◌, min, length};
ghost use Rattle.rows.specs.Widths.{places_of};
ghost use Rattle.device.specs.States.{blank_state};
ghost use Rattle.device.specs.Exchanges.{calls_of};
ghost use Rattle.device.specs.Replays.{after_calls, answered};
ghost use Rattle.slot_table.specs.SlotTables.{memory_with};

use super::record::SlotRecord;
use super::table::SlotTable;
use device::call::DeviceExchange;
use device::replay::replay;
use rows::width::Width;

/// Makes the calls on a new table over the records, which ends after them: the records are then those of the slots that it
/// had, and the spare ones as they were.
pub fn replay_on_records(width: Width, records: &mut [SlotRecord], exchanges: &mut [DeviceExchange])
    ensures answers { exchanges.new ≡
        answered (blank_state (places_of width) (min 120 (length records.old))) exchanges.old }
    ensures memory { let begun = blank_state (places_of width) (min 120 (length records.old)) in
        records.new ≡ memory_with (after_calls begun (calls_of exchanges.old)).slots records.old }
{
    let mut table = SlotTable::new(width, records);
    replay(&mut table, exchanges);
}
