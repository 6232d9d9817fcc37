// The denominators of a table's fractions, row by row.
#![tactic(auto)]

pub mod unchecked;
