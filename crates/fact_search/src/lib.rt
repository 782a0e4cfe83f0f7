//! Searches over a list of facts, for whoever has no index of them.
#![tactic(auto)]

mod answering;

pub use answering::{answer_over, last_answer_over};
