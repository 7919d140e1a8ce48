// Calls replayed on a filter over layers on a slot table, whose records are lent for them.
ghost use Rattle.std.specs.Prelude.{◌≡◌, [], min, length};
ghost use Rattle.rows.specs.Widths.{places_of};
ghost use Rattle.device.specs.States.{DeviceState, blank_state};
ghost use Rattle.slot_table.specs.SlotTables.{memory_with};
ghost use Rattle.filter_calls.specs.Promises.{PromiseOverLayers};

use filter_calls::call::FilterExchange;
use filter_calls::lent::replay_on_lent;
use layers::line_map::LineMap;
use rows::width::Width;
use slot_table::{SlotRecord, SlotTable};

// Lays two layers over a new slot table over the records, replays the calls on a filter over them, and lets everything
// end. The whole promise holds of the table as it was last; the records are then those of the slots that it had, and the
// spare ones as they were.
pub(super) fn replay_on_records<M: LineMap + Drop, N: LineMap + Drop>(
    outer: M,
    inner: N,
    width: Width,
    records: &mut [SlotRecord],
    tag: u64,
    exchanges: &mut [FilterExchange],
)
    ensures last_table { (t : DeviceState) × (records.new ≡ memory_with t.slots records.old) ×
        PromiseOverLayers (M.carrying outer) (N.carrying inner)
        (blank_state (places_of width) (min 120 (length records.old))) tag exchanges.old exchanges.new t [] }
{
    let mut table = SlotTable::new(width, records);
    replay_on_lent(outer, inner, &mut table, tag, exchanges);
}
