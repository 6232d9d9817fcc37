// Lists of differences in ascending order.
#![tactic(auto)]

pub mod unchecked;
