//! A round over replicas: what each has is copied to a hub, and from there to all.
#![tactic(auto)]

mod rounds;

pub use rounds::{RingFault, ring_round};
