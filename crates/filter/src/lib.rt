//! The receiver's filter over any device.
#![tactic(auto)]

pub mod filter;
pub mod hold_token;
mod placing;
