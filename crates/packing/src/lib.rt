// What C hands over and gets as numbers: a file's form, and each call's answer in one number, as specs/Words.antt packs it.
#![tactic(auto)]

pub mod answers;
pub mod words;
