//! A peer over HTTP: on ends that are given, and on ends that are made at its first call.
#![tactic(auto)]

mod answers;
mod calls;
mod dialer;
mod gathering;
mod link;
mod on_demand_peer;
mod replies;
mod wire_peer;

pub use dialer::Dialer;
pub use on_demand_peer::OnDemandPeer;
pub use wire_peer::WirePeer;
