// The last row of the extension of a table that goes on with padding.
#![tactic(auto)]

pub mod unchecked;
