// What a window of two rows brings to the instruction lookup's column and to the clock jump difference lookup's.
#![tactic(auto)]

pub mod unchecked;
