//! The reference by which a filter is judged: definitions, and that the rows of a ledger are right.
#![tactic(auto)]

mod theorems;
