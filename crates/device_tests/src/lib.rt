// Tests of the devices, and two devices written by an outsider.
#![tactic(auto)]

mod counting;
#[cfg(test)]
mod lent;
mod one_slot;
#[cfg(test)]
mod refusals;
