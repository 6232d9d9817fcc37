// One row's step of the running values of the eleven columns.
#![tactic(auto)]

pub mod unchecked;
