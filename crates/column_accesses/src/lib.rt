// The factors that accesses of the RAM bring to its product column.
#![tactic(auto)]

pub mod unchecked;
