// The runs of a set of numbers in a plain table, and its edits.
#![tactic(auto)]

mod circle_steps;
mod edited_set;
mod run;
pub mod table;
