// One step of a run: what a run holds, what a record does to it, and the buffers that it is loaded from and stored to.
#![tactic(auto, unfolding(crate::specs::Machines::held))]

pub mod buffers;
pub mod images;
pub mod progress;
pub mod steps;
pub mod store;
