//! `mirror` over a store on a disk in memory and two peers in memory.
use crate::peers::{ABC, failing, is_put};
use crate::rings::{has_both, two};
use crate::stores::{store, store_on};
use crate::syncs::size;
use blobref::{NoMemory, Text};
use edge_base::{CallList, MemSink};
use pack_disk::MemDisk;
use peer_base::MemPeer;
use std::alloc::Global;
use top_mirror::mirror_run;

// A line with two addresses.
static LINE: [&str; 4] = ["mirror", "hub", "first", "second"];

fn line(alloc: Global) -> Result<Vec<Text>, NoMemory> {
    let mut words = Vec::new(alloc);
    for word in LINE.iter() {
        words.push(Text::copy(alloc, word)?)?;
    }
    Ok(words)
}

// A disk with the store of one blob.
fn hub(alloc: Global) -> Result<MemDisk, NoMemory> {
    let mut store = store(alloc, CallList::empty(alloc))?;
    is_put(&mut store, ABC, b"abc");
    Ok(store.back().give_back())
}

// The disk after a round and the round's exit status, and whether it told of three stores and two blobs where it was
// done, and else of nothing.
fn ran(
    alloc: Global,
    disk: MemDisk,
    peers: &mut [MemPeer],
) -> Result<(MemDisk, u8, bool), NoMemory> {
    let words = line(alloc)?;
    let mut sink = MemSink::empty(alloc, CallList::empty(alloc));
    let (disk, status) = mirror_run(alloc, &words, disk, peers, &mut sink);
    let code = status.code();
    let text: &[u8] = if code == 0 {
        b"stores 3 blobs 2\n"
    } else {
        b""
    };
    Ok((disk, code, sink.written() == text))
}

// Whether a round over the store with one blob and these peers ends so, and the store then has both blobs.
fn ends(alloc: Global, peers: &mut [MemPeer], code: u8) -> Result<bool, NoMemory> {
    let disk = hub(alloc)?;
    let (disk, status, told) = ran(alloc, disk, peers)?;
    let mut store = store_on(alloc, disk)?;
    Ok(status == code && told && has_both(&mut store))
}

#[test]
fn a_disk_and_peers_come_to_one_state(rt: HostRuntime) -> Result<(), NoMemory> {
    let alloc = rt.alloc();
    let (mut peers, made) = two(alloc, None)?;
    let done = ends(alloc, &mut peers, 0)?;
    assert!(rt; made && done && has_both(&mut peers[0]) && has_both(&mut peers[1]));
    Ok(())
}

// What the first peer has was gathered before the second one is called.
#[test]
fn a_peer_that_fails_is_told(rt: HostRuntime) -> Result<(), NoMemory> {
    let alloc = rt.alloc();
    let (mut peers, made) = two(alloc, Some(0))?;
    let stopped = ends(alloc, &mut peers, 8)?;
    assert!(rt; made && stopped && size(&mut peers[0]) == 1 && size(&mut peers[1]) == 0);
    Ok(())
}

// Whether rounds over a disk without packs, of which this call fails, end as failures of the disk until one is done.
fn goes_on(alloc: Global, call: u64) -> Result<bool, NoMemory> {
    let (mut peers, made) = two(alloc, None)?;
    let put = is_put(&mut peers[1], ABC, b"abc");
    let disk = MemDisk::empty(alloc, failing(alloc, Some(call))?, u64::MAX);
    let (disk, first, first_told) = ran(alloc, disk, &mut peers)?;
    let (_, second, second_told) = ran(alloc, disk, &mut peers)?;
    let ended = first == 7 && second == 0 || first == 0 && (second == 0 || second == 7);
    let equal = has_both(&mut peers[0]) && has_both(&mut peers[1]);
    Ok(made && put && ended && first_told && second_told && equal)
}

#[test]
fn each_call_of_the_disk_may_fail(rt: HostRuntime) -> Result<(), NoMemory> {
    let alloc = rt.alloc();
    let mut all = true;
    for call in 0..40u64 {
        all &= goes_on(alloc, call)?;
    }
    assert!(rt; all);
    Ok(())
}
