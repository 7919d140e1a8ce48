// The console's lines: which bytes are which command, and the bytes of every line that it prints.
#![tactic(auto)]

pub mod command;
pub mod line_buffer;
mod number;
pub mod parse;
pub mod print;
pub mod reply;
mod theorems;
