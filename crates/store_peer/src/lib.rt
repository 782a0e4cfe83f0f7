//! A store as a peer.
#![tactic(auto)]

mod store_peer;

pub use store_peer::StorePeer;
