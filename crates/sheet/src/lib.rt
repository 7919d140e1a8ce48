// The packed sheet: rows written into bytes, and read from them.
#![tactic(auto)]

pub mod check;
mod codes;
pub mod pack;
pub mod read;
pub mod round_trip;
mod sheet_body;
mod sheet_rows;
pub mod sheet_size;
mod theorems;
