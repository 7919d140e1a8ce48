// Theory: the packed sheet as bits and bytes, and that every sheet has one reading.
#![tactic(auto)]

mod theorems;
