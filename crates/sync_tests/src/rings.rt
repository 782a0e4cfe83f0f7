//! Rounds over peers in memory, and events of a ring.
use crate::peers::{ABC, NOTHING, failing, has, is_put};
use crate::syncs::size;
use blobref::{BlobList, NoMemory, Octets, Ref};
use edge_base::CallList;
use peer_base::{MemPeer, Peer, PeerFault};
use replica_ring::{Ring, RingEvent, RingEventList, run_ring};
use ring_rounds::{RingFault, ring_round};
use std::alloc::Global;
use sync_core::SyncFault;

// Two peers, the first with one blob; one call of the second may be to fail.
pub(crate) fn two(alloc: Global, fails: Option<u64>) -> Result<([MemPeer; 2], bool), NoMemory> {
    let mut first = MemPeer::empty(alloc, failing(alloc, None)?);
    let second = MemPeer::empty(alloc, failing(alloc, fails)?);
    let made = is_put(&mut first, NOTHING, b"");
    Ok(([first, second], made))
}

// A hub with another blob, and these two.
fn three(alloc: Global, fails: Option<u64>) -> Result<(MemPeer, [MemPeer; 2], bool), NoMemory> {
    let (peers, made) = two(alloc, fails)?;
    let mut hub = MemPeer::empty(alloc, CallList::empty(alloc));
    let put = is_put(&mut hub, ABC, b"abc");
    Ok((hub, peers, made && put))
}

// Whether a peer has both blobs and no other one.
pub(crate) fn has_both<P: Peer>(peer: &mut P) -> bool {
    has(peer, ABC, Some(b"abc")) && has(peer, NOTHING, Some(b"")) && size(peer) == 2
}

#[test]
fn a_round_brings_all_to_one_state(rt: HostRuntime) -> Result<(), NoMemory> {
    let alloc = rt.alloc();
    let (mut hub, mut peers, made) = three(alloc, None)?;
    let first = ring_round(alloc, &mut hub, &mut peers) == Ok(4);
    let equal = has_both(&mut hub) && has_both(&mut peers[0]) && has_both(&mut peers[1]);
    let again = ring_round(alloc, &mut hub, &mut peers) == Ok(0);
    assert!(rt; made && first && equal && again);
    Ok(())
}

// It is first called where its own blobs are listed; the other peer's were gathered before that.
#[test]
fn a_peer_that_fails_ends_the_round(rt: HostRuntime) -> Result<(), NoMemory> {
    let alloc = rt.alloc();
    let (mut hub, mut peers, made) = three(alloc, Some(0))?;
    let stopped = ring_round(alloc, &mut hub, &mut peers);
    let fault = SyncFault::Source(PeerFault::Failed);
    let named = stopped == Err(RingFault::Gather { peer: 1, fault });
    let left = size(&mut peers[0]) == 1 && size(&mut peers[1]) == 0;
    assert!(rt; made && named && has_both(&mut hub) && left);
    Ok(())
}

// The pulls over all ordered pairs of three stores, each of as many blobs as there are.
const PAIRS: [(u32, u32); 6] = [(0, 1), (0, 2), (1, 0), (1, 2), (2, 0), (2, 1)];

// The pairs in the order of this number, of 720: each digit to the base at hand names one of the pairs that are left.
fn order(number: usize) -> [(u32, u32); 6] {
    let mut pairs = PAIRS;
    let mut left = number;
    for i in 0..6usize {
        let base = 6 - i;
        pairs.swap(i, i + left % base);
        left /= base;
    }
    pairs
}

fn event(pair: (u32, u32)) -> RingEvent {
    RingEvent::Pull {
        source: pair.0,
        target: pair.1,
        count: u64::MAX,
    }
}

// One blob at the first store and one at the last, a stop of the other that adds nothing, and then the pulls.
fn events(alloc: Global, a: &Ref, e: &Ref, number: usize) -> Result<RingEventList, NoMemory> {
    let mut events = RingEventList::empty(alloc);
    events.push(RingEvent::Upload {
        store: 0,
        r: *a,
        bytes: Octets::copy(alloc, b"abc")?,
    })?;
    events.push(RingEvent::Upload {
        store: 2,
        r: *e,
        bytes: Octets::copy(alloc, b"")?,
    })?;
    events.push(RingEvent::Stop {
        store: 1,
        also: BlobList::empty(alloc),
    })?;
    for pair in order(number) {
        events.push(event(pair))?;
    }
    Ok(events)
}

fn holds(ring: &Ring, r: &Ref, bytes: &[u8]) -> bool {
    (0..3u32).all(|store| match ring.get(store, r) {
        Some(found) => found.as_slice() == bytes,
        None => false,
    })
}

// Whether all stores have both blobs after the pulls in the order of this number.
fn ends_equal(alloc: Global, number: usize) -> Result<bool, NoMemory> {
    let a = Ref::of(b"abc");
    let e = Ref::of(b"");
    let events = events(alloc, &a, &e, number)?;
    let ring = run_ring(Ring::of(alloc, 3)?, &events)?;
    Ok(holds(&ring, &a, b"abc") && holds(&ring, &e, b""))
}

#[test]
fn full_pulls_in_any_order_end_equal(rt: HostRuntime) -> Result<(), NoMemory> {
    let alloc = rt.alloc();
    let mut equal = true;
    for number in 0..720usize {
        equal &= ends_equal(alloc, number)?;
    }
    assert!(rt; equal);
    Ok(())
}
