// Widths, ranges, edits of sets, refusals, slot counts, rows, and the narrowest row of two numbers.
#![tactic(auto)]

pub mod digit;
pub mod edit;
pub mod narrowest;
pub mod range;
pub mod refusal;
pub mod row;
pub mod row_words;
pub mod slots;
mod theorems;
pub mod width;
