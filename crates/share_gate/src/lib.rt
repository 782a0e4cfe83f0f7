//! The gate of shares: tables are gathered from a store once, and then no blob is read for a verdict
//! (`docs/shares.md`).
#![tactic(auto)]

mod building;
mod deletions;
mod gate;
mod keys;
mod links;
mod ref_map;
mod shares;

pub use gate::{ShareGate, ShareRow};
pub use share_model::{Rule, Verdict};
