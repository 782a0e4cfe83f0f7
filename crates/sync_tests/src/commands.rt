//! `push` and `pull` between a store on a disk in memory and peers in memory.
use crate::syncs::peer_of;
use blobref::{NoMemory, Octets};
use edge_base::{CallList, MemClock, MemDice, MemSink, MemSource};
use pack_disk::MemDisk;
use peer_base::MemPeer;
use std::alloc::Global;
use top_frame::Environment;
use top_sync::{pull, push};

// Which way blobs go.
#[derive(Clone, Copy)]
enum Way {
    Push,
    Pull,
}

// The disk afterwards, and whether the run had this exit status and wrote this.
fn ran(
    alloc: Global,
    way: Way,
    disk: MemDisk,
    peer: &mut MemPeer,
    code: u8,
    line: &[u8],
) -> (MemDisk, bool) {
    let input = Octets::from_vec(Vec::new(alloc));
    let mut source = MemSource::of(input, CallList::empty(alloc));
    let mut sink = MemSink::empty(alloc, CallList::empty(alloc));
    let mut clock = MemClock::of(0, CallList::empty(alloc));
    let mut dice = MemDice::of([0; 16], CallList::empty(alloc));
    let environment = Environment {
        peer,
        source: &mut source,
        sink: &mut sink,
        clock: &mut clock,
        dice: &mut dice,
        keys: &(),
    };
    let (disk, status) = match way {
        Way::Push => push(alloc, disk, environment),
        Way::Pull => pull(alloc, disk, environment),
    };
    (disk, status.code() == code && sink.written() == line)
}

// The calls of the peer that is pulled from are 2,500 puts, a page, 1,000 blobs, and then the second page.
#[test]
fn all_blobs_are_pulled_and_pushed(rt: HostRuntime) -> Result<(), NoMemory> {
    let alloc = rt.alloc();
    let mut full = peer_of(alloc, 2_500, Some(3_501))?;
    let mut empty = MemPeer::empty(alloc, CallList::empty(alloc));
    let disk = MemDisk::empty(alloc, CallList::empty(alloc), u64::MAX);
    let (disk, stopped) = ran(alloc, Way::Pull, disk, &mut full, 8, b"");
    let (disk, pulled) = ran(
        alloc,
        Way::Pull,
        disk,
        &mut full,
        0,
        b"copied 1500 already 1000\n",
    );
    let (disk, pushed) = ran(
        alloc,
        Way::Push,
        disk,
        &mut empty,
        0,
        b"copied 2500 already 0\n",
    );
    let (_, again) = ran(
        alloc,
        Way::Push,
        disk,
        &mut empty,
        0,
        b"copied 0 already 2500\n",
    );
    assert!(rt; stopped && pulled && pushed && again);
    Ok(())
}
