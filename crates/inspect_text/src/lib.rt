// The text that the program `inspect` prints of a trace.
#![tactic(auto)]

pub mod unchecked;
