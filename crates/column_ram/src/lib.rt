// The factor that a window brings to the RAM's product column.
#![tactic(auto)]

pub mod unchecked;
