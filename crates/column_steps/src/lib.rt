// What a window makes of the running value of an evaluation or product column.
#![tactic(auto)]

mod opcodes;
pub mod unchecked;
