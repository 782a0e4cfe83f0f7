//! Peers: other places of blobs, which are asked for a page of their refs and for a blob, and given a blob; and a peer
//! in memory. How a peer is reached is no matter here.
#![tactic(auto)]

mod held;
mod memory_peer;
mod peer;

pub use memory_peer::MemPeer;
pub use peer::{Peer, PeerFault};
