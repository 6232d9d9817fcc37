// Scans in place, by chunks.
#![tactic(auto)]

pub mod steps;
pub mod unchecked;
