//! Threads share the place, and the seats can be sent from one thread to another.
use crate::seat::{SnapIndex, SnapSeat};
use claim_verify::Verifier;
use std::sync::Wait;

/// Threads can share a place of an index, and its seats can be sent to them, if the keys may be sent and shared, and
/// the handle may be sent.
pub fn threads_share_an_index<V: Verifier + Drop + Send + Sync, H: Wait + Drop + Send>() {
    is_shared::<SnapIndex<V, H>>();
    is_sent::<SnapSeat<V, H>>();
}

fn is_shared<T: Sync>() {}

fn is_sent<T: Send>() {}
