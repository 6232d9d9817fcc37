// Numbers and refusals as the programs print them, in ASCII.
#![tactic(auto)]

pub mod unchecked;
