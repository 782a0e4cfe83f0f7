//! The home of a server: a store of packs on a disk, and an index, each in a lock, with a pass for each thread.
#![tactic(auto)]

mod opening;
mod passes;

pub use opening::{HomeFault, ServerHome, ServerPass, home_over, home_within};
