//! What the turns of a store and of an index may add to their histories. No value of them is made.
use blobref::Ref;
use schema_fact::Fact;
use std::collections::LinkedList;

/// What a turn of a store may add.
pub enum StoreEvent {
    /// The blob arrived, under this number, counted from 0.
    Put {
        number: u64,
        r: Ref,
        bytes: LinkedList<u8>,
    },
    /// The disk failed: its count of faults at the end of the turn.
    Fault {
        faults: u64,
    },
    /// The bytes stored under a ref had another one, under the same digest.
    Damage {
        want: Ref,
        is: Ref,
    },
    /// There was no room: how many blobs there were, and the number of the last pack.
    Full {
        blobs: u64,
        pack: u32,
    },
}

/// What a turn of an index may add.
pub enum IndexEvent {
    /// A worker took the number in hand.
    Take { number: u64 },
    /// The fact of a blob was inserted under its ref and its number.
    Insert { number: u64, r: Ref, fact: Fact },
    /// A worker gave the number back.
    Return { number: u64 },
}

/// An Insert, with the turn that added it.
pub struct Insertion {
    pub turn: u64,
    pub number: u64,
    pub r: Ref,
    pub fact: Fact,
}
