// Theory: the runs of a set of numbers on the circle, where 0 follows the highest number.
#![tactic(auto)]

mod theorems;
