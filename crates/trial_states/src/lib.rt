//! What the trials of steps have alike: a part of a state read from a case and set, and what came of a step in words.
#![tactic(auto)]

mod parts;
mod said;

pub use parts::{NoPart, Part};
pub use said::Said;
