//! The home of running threads: a place of a store with a place of an index.
#![tactic(auto)]

mod home;

pub use home::{LiveHome, LivePass};
