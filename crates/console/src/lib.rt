// The support desk's console: lines in, lines out, over the public calls of a filter.
#![tactic(auto)]

pub mod console;
pub mod failure;
pub mod help;
pub mod run;
pub mod session;
mod stage;
mod theorems;
