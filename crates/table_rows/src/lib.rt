// The main table of the processor, row by row.
#![tactic(auto)]

pub mod unchecked;
