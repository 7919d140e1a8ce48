// The slot table: a device over records in the caller's memory.
#![tactic(auto)]

mod lent;
mod record;
mod table;
mod theorems;

pub use lent::replay_on_records;
pub use record::SlotRecord;
pub use table::SlotTable;
