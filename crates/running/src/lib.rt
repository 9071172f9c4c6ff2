// Records of a file run up to a limit, by a table of their closings.
#![tactic(auto)]

mod blocks;
pub mod tables;
