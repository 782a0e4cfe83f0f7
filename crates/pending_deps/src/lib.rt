//! Which refs wait for which, and which become ready by one fact more.
#![tactic(auto)]

mod arriving;
mod settling;

pub use arriving::arrive;
