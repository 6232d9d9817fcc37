// From the parts of an opened batch to the last cells of its table.
#![tactic(auto)]

pub mod unchecked;
