// The auxiliary table chunk by chunk: a first pass over each chunk, one inversion for all of them, and a second pass.
#![tactic(auto)]

pub mod unchecked;
