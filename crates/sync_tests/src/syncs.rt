//! Copying between peers in memory.
use crate::peers::{ABC, NOTHING, OLDER_ABC, failing, has, is_put, puts};
use blobref::{NoMemory, Ref};
use peer_base::{MemPeer, Peer, PeerFault};
use std::alloc::Global;
use sync_core::{SyncFault, Synced, sync};

// A peer with this many blobs, which are its first calls; one call later on may be to fail.
pub(crate) fn peer_of(alloc: Global, count: u64, fails: Option<u64>) -> Result<MemPeer, NoMemory> {
    let mut peer = MemPeer::empty(alloc, failing(alloc, fails)?);
    for i in 0..count {
        let bytes = i.to_be_bytes();
        puts(&mut peer, &Ref::of(&bytes), &bytes);
    }
    Ok(peer)
}

// How many blobs a peer lists.
pub(crate) fn size<P: Peer>(peer: &mut P) -> usize {
    match peer.list(None, 9999) {
        Ok(page) => page.len(),
        Err(_) => 0,
    }
}

// Whether so many are copied and were there already.
pub(crate) fn copies<A: Peer, B: Peer>(
    alloc: Global,
    source: &mut A,
    target: &mut B,
    copied: u64,
    already: u64,
) -> bool {
    sync(alloc, source, target) == Ok(Synced { copied, already })
}

#[test]
fn all_blobs_are_copied_once(rt: HostRuntime) -> Result<(), NoMemory> {
    let alloc = rt.alloc();
    let mut source = peer_of(alloc, 2500, None)?;
    let mut target = MemPeer::empty(alloc, failing(alloc, None)?);
    let first = copies(alloc, &mut source, &mut target, 2500, 0);
    let again = copies(alloc, &mut source, &mut target, 0, 2500);
    assert!(rt; first && again && size(&mut target) == 2500);
    Ok(())
}

// The blobs that both have lie anywhere among the others.
#[test]
fn what_both_have_is_not_copied(rt: HostRuntime) -> Result<(), NoMemory> {
    let alloc = rt.alloc();
    let mut source = peer_of(alloc, 2500, None)?;
    let mut target = peer_of(alloc, 1234, None)?;
    let there = copies(alloc, &mut source, &mut target, 1266, 1234);
    let back = copies(alloc, &mut target, &mut source, 0, 2500);
    assert!(rt; there && back);
    Ok(())
}

// Blobs of older stores come with their names, and those of the same bytes under the other name beside them.
#[test]
fn both_names_are_copied(rt: HostRuntime) -> Result<(), NoMemory> {
    let alloc = rt.alloc();
    let mut source = peer_of(alloc, 0, None)?;
    let mut target = peer_of(alloc, 0, None)?;
    let made = is_put(&mut source, OLDER_ABC, b"abc")
        && is_put(&mut source, NOTHING, b"")
        && is_put(&mut target, ABC, b"abc");
    let copied = copies(alloc, &mut source, &mut target, 2, 0);
    let kept = has(&mut target, OLDER_ABC, Some(b"abc"))
        && has(&mut target, ABC, Some(b"abc"))
        && has(&mut target, NOTHING, Some(b""));
    assert!(rt; made && copied && kept && size(&mut source) == 2);
    Ok(())
}

// The source's calls are 2,500 puts, a page, 1,000 blobs, and then the second page.
#[test]
fn a_source_that_fails_at_its_second_page_stops_it(rt: HostRuntime) -> Result<(), NoMemory> {
    let alloc = rt.alloc();
    let mut source = peer_of(alloc, 2500, Some(3501))?;
    let mut target = peer_of(alloc, 0, None)?;
    let stopped = sync(alloc, &mut source, &mut target);
    let fault = Err(SyncFault::Source(PeerFault::Failed));
    assert!(rt; stopped == fault && size(&mut target) == 1000 && source.faults() == 1);
    assert!(rt; copies(alloc, &mut source, &mut target, 1500, 1000));
    Ok(())
}

// The target's calls are a page, 1,000 blobs, and then the second page.
#[test]
fn a_target_that_fails_at_its_second_page_stops_it(rt: HostRuntime) -> Result<(), NoMemory> {
    let alloc = rt.alloc();
    let mut source = peer_of(alloc, 2500, None)?;
    let mut target = peer_of(alloc, 0, Some(1001))?;
    let stopped = sync(alloc, &mut source, &mut target);
    let fault = Err(SyncFault::Target(PeerFault::Failed));
    assert!(rt; stopped == fault && size(&mut target) == 1000 && target.faults() == 1);
    Ok(())
}

#[test]
fn a_target_is_asked_though_there_is_nothing_to_copy(rt: HostRuntime) -> Result<(), NoMemory> {
    let alloc = rt.alloc();
    let mut source = peer_of(alloc, 0, None)?;
    let mut target = peer_of(alloc, 0, Some(0))?;
    let first = sync(alloc, &mut source, &mut target);
    assert!(rt; first == Err(SyncFault::Target(PeerFault::Failed)) && target.faults() == 1);
    assert!(rt; copies(alloc, &mut source, &mut target, 0, 0));
    Ok(())
}
