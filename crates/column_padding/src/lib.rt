// What many padding rows make of a column's running value.
#![tactic(auto)]

pub mod unchecked;
