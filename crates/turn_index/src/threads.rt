//! Threads share the place, and its seats can be sent from one thread to another.
use crate::index::{IndexSeat, TurnIndex};
use claim_verify::Verifier;

/// Threads can share a place of an index, and its seats can be sent to them, if the keys may be sent.
pub fn threads_share_an_index<V: Verifier + Send>() {
    is_shared::<TurnIndex<V>>();
    is_sent::<IndexSeat<V>>();
}

fn is_shared<T: Sync>() {}

fn is_sent<T: Send>() {}
