// The columns of the processor table and the challenges, by name.
#![tactic(auto)]

mod aux_column;
mod challenge_id;
mod main_column;
pub mod unchecked;

// Where a main column stands in a row of words.
#[derive(Clone, Copy, PartialEq, Eq)]
pub struct MainIndex(pub usize);

// Where an auxiliary column stands in a row of elements.
#[derive(Clone, Copy, PartialEq, Eq)]
pub struct AuxIndex(pub usize);

// Where a challenge stands in the record of elements.
#[derive(Clone, Copy, PartialEq, Eq)]
pub struct ChallengeId(pub usize);

// The words of a row of auxiliary cells, of the record, and of the sampled challenges in it: three an element.
pub const AUX_WORDS: usize = AuxIndex::COUNT * 3;

pub const RECORD_WORDS: usize = ChallengeId::COUNT * 3;

pub const SAMPLED_WORDS: usize = (ChallengeId::COUNT - ChallengeId::NUM_DERIVED_CHALLENGES) * 3;

// The words of a program's digest.
pub const DIGEST_WORDS: usize = 5;
