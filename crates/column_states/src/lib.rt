// The words that the hash input and sponge columns absorb, under their weights.
#![tactic(auto)]

pub mod unchecked;
