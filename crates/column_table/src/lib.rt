// The column table: a device that keeps its slots by columns.
#![tactic(auto)]

mod column;
mod slot_set;
mod table;
mod table_slot;

pub use table::ColumnTable;
