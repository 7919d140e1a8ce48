// Tests of the console.
#![tactic(auto)]

#[cfg(test)]
mod consoles;
#[cfg(test)]
mod loops;
#[cfg(test)]
mod parsing;
#[cfg(test)]
mod sessions;
