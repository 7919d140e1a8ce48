// Calls to a filter as values, any list of them replayed over any device, and the whole promise.
#![tactic(auto)]

pub mod alike;
pub mod call;
pub mod closing;
mod foreign;
pub mod layered;
pub mod lent;
mod no_slots;
mod player;
pub mod replay;
pub mod slots;
mod theorems;
