//! A server at an address as a peer (`docs/sync.md`): a part of the program's edge.
#![tactic(auto)]

mod address_dialer;

pub use address_dialer::{AddressDialer, DialedPeer, peer_at};
