// Tests of the line maps and of the layers.
#![tactic(auto)]

#[cfg(test)]
mod maps;
#[cfg(test)]
mod piles;
