//! Threads share the place, and its seats can be sent from one thread to another.
use crate::store::{StoreSeat, TurnStore};
use pack_disk::Disk;

/// Threads can share a place of a store, and its seats can be sent to them, if the disk may be sent.
pub fn threads_share_a_store<D: Disk + Send>() {
    is_shared::<TurnStore<D>>();
    is_sent::<StoreSeat<D>>();
}

fn is_shared<T: Sync>() {}

fn is_sent<T: Send>() {}
