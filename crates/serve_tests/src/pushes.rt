//! Pushes to a server in memory, whose replies were written before to the requests that pushes make.
use blob_http::{NoLog, serve_connection};
use blobref::{NoMemory, Octets, Ref};
use claim_verify::Keyring;
use core_home::{CoreHome, CorePass};
use edge_base::{CallList, MemSink, MemSource};
use home_core::Core;
use peer_base::{MemPeer, Peer};
use peer_http::WirePeer;
use peer_requests::{list_request, upload_request};
use std::alloc::Global;
use std::sync::Wait;
use sync_core::{Synced, sync};

// How many blobs the peer holds, and how many refs a push asks for at a time.
const BLOBS: u64 = 2_500;

const PAGE: usize = 1_000;

// A peer that holds so many blobs.
fn full_peer(alloc: Global) -> Result<MemPeer, NoMemory> {
    let mut peer = MemPeer::empty(alloc, CallList::empty(alloc));
    for i in 0..BLOBS {
        if !is_put(&mut peer, &i.to_be_bytes()) {
            return Err(NoMemory);
        }
    }
    Ok(peer)
}

// Whether a blob is put.
fn is_put(peer: &mut MemPeer, bytes: &[u8]) -> bool {
    let named = Ref::of(bytes);
    let r = named.like(bytes);
    bytes.len() <= 16_777_216 && r == named && peer.put(&r, bytes).is_ok()
}

// Writes the requests for the blobs of a peer behind others.
fn upload_all(
    alloc: Global,
    peer: &mut MemPeer,
    page: &[(Ref, u64)],
    requests: &mut Vec<u8>,
) -> Result<(), NoMemory> {
    let mut request = Vec::new(alloc);
    for entry in page {
        let Ok(Some(bytes)) = peer.fetch(&entry.0) else {
            return Err(NoMemory);
        };
        upload_request(alloc, &mut request, &entry.0, bytes.as_slice())?;
        requests.extend_from_slice(&request)?;
    }
    Ok(())
}

// Writes the requests of a push of a peer's three pages behind others: to a server that holds all of them, or none.
fn push_all(
    alloc: Global,
    peer: &mut MemPeer,
    is_there: bool,
    requests: &mut Vec<u8>,
) -> Result<(), NoMemory> {
    let mut request = Vec::new(alloc);
    let mut after = None;
    for _page in 0..3 {
        list_request(&mut request, after.as_ref(), PAGE)?;
        requests.extend_from_slice(&request)?;
        let Ok(page) = peer.list(after.as_ref(), PAGE) else {
            return Err(NoMemory);
        };
        if !is_there {
            upload_all(alloc, peer, page.as_slice(), requests)?;
        }
        after = page.as_slice().last().map(|entry| entry.0);
    }
    Ok(())
}

// What a server that holds nothing at first replies to the requests.
fn replies<R: Wait>(rt: &R, alloc: Global, requests: Vec<u8>) -> Result<Octets, NoMemory> {
    let mut source = MemSource::of(Octets::from_vec(requests), CallList::empty(alloc));
    let mut sink = MemSink::empty(alloc, CallList::empty(alloc));
    let home = CoreHome::make();
    let Ok(mut pass) = CorePass::over(alloc, Core::fresh(alloc, Keyring::empty(alloc))) else {
        return Err(NoMemory);
    };
    serve_connection(
        rt,
        alloc,
        &home,
        &mut pass,
        &mut source,
        &mut sink,
        &mut NoLog,
    );
    Octets::copy(alloc, sink.written())
}

#[test]
fn all_blobs_are_pushed_once(rt: HostRuntime) -> Result<(), NoMemory> {
    let alloc = rt.alloc();
    let mut here = full_peer(alloc)?;
    let mut requests = Vec::new(alloc);
    push_all(alloc, &mut here, false, &mut requests)?;
    push_all(alloc, &mut here, true, &mut requests)?;
    let source = MemSource::of(replies(&rt, alloc, requests)?, CallList::empty(alloc));
    let sink = MemSink::empty(alloc, CallList::empty(alloc));
    let mut there = WirePeer::make(alloc, source, sink)?;
    let first = sync(alloc, &mut here, &mut there);
    let again = sync(alloc, &mut here, &mut there);
    let all_copied = Synced {
        copied: BLOBS,
        already: 0,
    };
    let all_there = Synced {
        copied: 0,
        already: BLOBS,
    };
    assert!(rt; first == Ok(all_copied) && again == Ok(all_there));
    Ok(())
}
