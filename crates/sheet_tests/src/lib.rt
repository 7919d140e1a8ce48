// Tests of the packed sheet: packing, reading, their checks and refusals, and one damaged bit at a time.
#![tactic(auto)]

#[cfg(test)]
mod checks;
#[cfg(test)]
mod damage;
#[cfg(test)]
mod packing;
#[cfg(test)]
mod reading;
#[cfg(test)]
mod refused;
