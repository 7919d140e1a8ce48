// Tests of the filter, by lists of calls.
#![tactic(auto)]

#[cfg(test)]
mod asked;
#[cfg(test)]
mod beside;
#[cfg(test)]
mod by_hand;
#[cfg(test)]
mod calls;
#[cfg(test)]
mod closing;
#[cfg(test)]
mod edits;
#[cfg(test)]
mod layered;
mod logged;
#[cfg(test)]
mod piles;
#[cfg(test)]
mod tokens;
