//! The blobs that one peer has and another lacks are copied.
#![tactic(auto)]

mod copying;
mod syncing;

pub use syncing::{SyncFault, Synced, sync};
