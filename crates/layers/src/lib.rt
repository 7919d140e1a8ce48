// Line maps, and layers of them over any device.
#![tactic(auto)]

pub mod flip;
pub mod layer;
pub mod line_map;
pub mod pile;
mod theorems;
pub mod turn;
