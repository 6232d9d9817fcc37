// The last row of the extension of a table of a few rows.
#![tactic(auto)]

pub mod unchecked;
