// The pieces of a laid file, each at its tick: the state between them, and their bytes.
#![tactic(auto)]

pub mod clock;
pub mod pieces;
