// The evaluation argument: the map r → challenge·r + symbol over a list of words, from 1.
#![tactic(auto)]

pub mod unchecked;
