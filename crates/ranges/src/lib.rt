// The rows of a range and of several runs, and the witness of a range.
#![tactic(auto)]

mod across;
mod beside;
mod edge;
mod ends;
mod front;
mod lead;
mod lists;
mod memory;
pub mod range;
pub mod run_rows;
pub mod runs;
mod stretch;
mod theorems;
mod turned;
pub mod witness;
