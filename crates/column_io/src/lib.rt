// What a window of two rows does to the running values of the input and output columns.
#![tactic(auto)]

pub mod unchecked;
