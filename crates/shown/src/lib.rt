// How printed accounts show slots, ranges, counts and refused answers.
#![tactic(auto)]

pub mod outcome;
pub mod range;
pub mod row_count;
pub mod slots;
