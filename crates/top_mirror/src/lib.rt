//! The store of a disk and peers, brought to one state: `mirror DIR ADDR..`.
#![tactic(auto)]

mod mirroring;

pub use mirroring::{mirror_run, round_status};
