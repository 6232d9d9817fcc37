// The indeterminates and weights of the columns, out of the record of challenges.
#![tactic(auto)]

pub mod ready;
pub mod unchecked;
