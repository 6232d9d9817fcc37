// Many inverses for one: each element times the product of those before it, one inversion, and back.
#![tactic(auto)]

pub mod unchecked;
