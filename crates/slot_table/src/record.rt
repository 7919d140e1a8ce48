// The record of one slot.
ghost use Rattle.std.specs.Prelude.{◌≡◌, Some};
ghost use Rattle.rows.specs.Widths.{places_of};

use rows::row::Row;
use rows::width::Width;

/// What lies in the caller's memory for one slot: a plain record, of which any one stands for a slot.
// a flag beside its words and no `Option`, since that is how the caller's memory is laid out
#[derive(Clone, Copy, PartialEq, Eq, Debug)]
pub struct SlotRecord {
    pub filled: bool,
    pub value: u32,
    pub care: u32,
}

impl SlotRecord {
    ghost use Rattle.slot_table.specs.SlotTables.{slot_of};

    /// A slot that holds nothing.
    pub const EMPTY: SlotRecord = SlotRecord {
        filled: false,
        value: 0,
        care: 0,
    };

    // The row that the record holds, made anew from its words, so that whatever lies in memory is a row of the width.
    pub(super) fn row(self, width: Width) -> Option<Row>
        ensures value { result ≡ slot_of (places_of width) self }
    {
        if self.filled {
            let care = u64::from(self.care) % width.limit();
            Some(Row::new(self.value, care as u32))
        } else {
            None
        }
    }
}

impl From<Row> for SlotRecord {
    ghost use Rattle.slot_table.specs.SlotTables.{record_of};

    ghost from_gives = { λ row r. r ≡ record_of (Some row) };

    /// The record of a slot that holds the row.
    fn from(row: Row) -> SlotRecord {
        SlotRecord {
            filled: true,
            value: row.value(),
            care: row.care(),
        }
    }
}
