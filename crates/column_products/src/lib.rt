// What the rows of the main table bring to the three product columns.
#![tactic(auto)]

pub mod unchecked;
