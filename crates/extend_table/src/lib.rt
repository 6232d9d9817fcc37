// The auxiliary table of the processor: eleven columns of three words, row by row.
#![tactic(auto)]

pub mod unchecked;
