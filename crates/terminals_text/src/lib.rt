// The text that the program `terminals` prints of the last row's cells.
#![tactic(auto)]

pub mod unchecked;
