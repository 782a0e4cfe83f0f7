//! Stores on disks in memory as peers.
use crate::peers::{ABC, OLDER_ABC, failing, has, is_put};
use crate::syncs::{copies, peer_of, size};
use blobref::NoMemory;
use edge_base::CallList;
use pack_disk::MemDisk;
use pack_store::{Limits, Store};
use peer_base::{Peer, PeerFault};
use std::alloc::Global;
use store_peer::StorePeer;
use sync_core::{SyncFault, sync};

// Room for all blobs here, in one pack.
const WIDE: Limits = Limits {
    blobs: 9_999,
    pack_bytes: 1_000_000_000,
    last_pack: 99_999,
};

// Room for two blobs.
const TWO_BLOBS: Limits = Limits {
    blobs: 2,
    pack_bytes: 1_000_000_000,
    last_pack: 99_999,
};

// The store on a disk. No call fails while it is opened.
pub(crate) fn store_on(alloc: Global, disk: MemDisk) -> Result<StorePeer<MemDisk>, NoMemory> {
    match Store::open_on(alloc, disk, WIDE) {
        Ok(store) => Ok(StorePeer::over(store)),
        Err(_) => Err(NoMemory),
    }
}

// The store on a disk without packs whose calls fail so.
pub(crate) fn store(alloc: Global, fails: CallList) -> Result<StorePeer<MemDisk>, NoMemory> {
    store_on(alloc, MemDisk::empty(alloc, fails, u64::MAX))
}

// The same with room for two blobs.
fn small_store(alloc: Global) -> Result<StorePeer<MemDisk>, NoMemory> {
    let disk = MemDisk::empty(alloc, CallList::empty(alloc), u64::MAX);
    match Store::open_on(alloc, disk, TWO_BLOBS) {
        Ok(store) => Ok(StorePeer::over(store)),
        Err(_) => Err(NoMemory),
    }
}

// From memory into a store, and from there into a second one. A blob of both names is two.
#[test]
fn stores_are_targets_and_sources(rt: HostRuntime) -> Result<(), NoMemory> {
    let alloc = rt.alloc();
    let mut source = peer_of(alloc, 1200, None)?;
    let mut first = store(alloc, CallList::empty(alloc))?;
    let mut second = store(alloc, CallList::empty(alloc))?;
    let named = is_put(&mut first, ABC, b"abc") && is_put(&mut source, OLDER_ABC, b"abc");
    let copied = copies(alloc, &mut source, &mut first, 1201, 0)
        && copies(alloc, &mut first, &mut second, 1202, 0)
        && copies(alloc, &mut first, &mut second, 0, 1202);
    let kept = has(&mut second, OLDER_ABC, Some(b"abc")) && has(&mut second, ABC, Some(b"abc"));
    assert!(rt; named && copied && kept && size(&mut second) == 1202);
    Ok(())
}

#[test]
fn a_full_store_takes_no_more(rt: HostRuntime) -> Result<(), NoMemory> {
    let alloc = rt.alloc();
    let mut source = peer_of(alloc, 3, None)?;
    let mut target = small_store(alloc)?;
    let stopped = sync(alloc, &mut source, &mut target);
    let full = PeerFault::Full { blobs: 2, pack: 0 };
    assert!(rt; stopped == Err(SyncFault::Target(full)) && size(&mut target) == 2);
    Ok(())
}

// The disk's calls are one as it is opened, and then at least two for each blob.
#[test]
fn a_disk_that_fails_is_told(rt: HostRuntime) -> Result<(), NoMemory> {
    let alloc = rt.alloc();
    let mut source = peer_of(alloc, 9, None)?;
    let mut target = store(alloc, failing(alloc, Some(9))?)?;
    let stopped = sync(alloc, &mut source, &mut target);
    let fault = Err(SyncFault::Target(PeerFault::Failed));
    assert!(rt; stopped == fault && target.faults() == 1 && size(&mut target) < 9);
    Ok(())
}
