// Numbers and words of a batch, little-endian.
#![tactic(auto)]

pub mod unchecked;
