// Theory: digits, symbols, rows, the row rules, and the theorems about them.
#![tactic(auto)]

pub mod symbol;
pub mod theorems;
