//! Blobs that are copied between the store of a disk and a peer: `push DIR ADDR` and `pull DIR ADDR`.
#![tactic(auto)]

mod faults;
mod lines;
mod pulling;
mod pushing;

pub use faults::{pull_status, push_status};
pub use lines::push_decimal;
pub use pulling::pull;
pub use pushing::push;
