//! A peer in memory.
use blobref::{NoMemory, Ref};
use edge_base::CallList;
use peer_base::{MemPeer, Peer};
use std::alloc::Global;

// The refs of `abc`, under SHA-224 and SHA-1, and that of no bytes.
pub(crate) const ABC: &str = "sha224-23097d223405d8228642a477bda255b32aadbce4bda0b3f7e36c9da7";

pub(crate) const OLDER_ABC: &str = "sha1-a9993e364706816aba3e25717850c26c9cd0d89d";

pub(crate) const NOTHING: &str = "sha224-d14a028c2a3a2bc9476102bb288234c415a2b01f828ea62ac5b3e42f";

// A list of one call, or of none.
pub(crate) fn failing(alloc: Global, call: Option<u64>) -> Result<CallList, NoMemory> {
    let mut calls = CallList::empty(alloc);
    if let Some(call) = call {
        calls.push(call)?;
    }
    Ok(calls)
}

// Whether a blob is put under this ref, which its bytes have.
pub(crate) fn puts<P: Peer>(peer: &mut P, named: &Ref, bytes: &[u8]) -> bool {
    let r = named.like(bytes);
    bytes.len() <= 16_777_216 && r == *named && peer.put(&r, bytes) == Ok(())
}

// Whether it is put under the ref of this name.
pub(crate) fn is_put<P: Peer>(peer: &mut P, name: &str, bytes: &[u8]) -> bool {
    match Ref::read(name.as_bytes()) {
        Some(named) => puts(peer, &named, bytes),
        None => false,
    }
}

// Whether a ref has these bytes, or is lacking.
pub(crate) fn has<P: Peer>(peer: &mut P, name: &str, bytes: Option<&[u8]>) -> bool {
    match Ref::read(name.as_bytes()) {
        Some(r) => match peer.fetch(&r) {
            Ok(Some(found)) => bytes == Some(found.as_slice()),
            Ok(None) => bytes.is_none(),
            Err(_) => false,
        },
        None => false,
    }
}

// Whether the next page has these refs and sizes and no others.
fn lists(peer: &mut MemPeer, after: Option<&str>, limit: usize, page: &[(&str, u64)]) -> bool {
    if limit == 0 {
        return false;
    }
    let after = match after {
        Some(name) => Ref::read(name.as_bytes()),
        None => None,
    };
    match peer.list(after.as_ref(), limit) {
        Ok(found) => is_page(found.as_slice(), page),
        Err(_) => false,
    }
}

fn is_page(found: &[(Ref, u64)], page: &[(&str, u64)]) -> bool {
    found.len() == page.len()
        && found.iter().zip(page).all(|(entry, asked)| entry.0.spell().as_slice()
            == asked.0.as_bytes()
            && entry.1 == asked.1)
}

// The blob under both names is two blobs, and that of SHA-1 is listed first.
#[test]
fn a_peer_lists_and_gives_what_was_put(rt: HostRuntime) -> Result<(), NoMemory> {
    let alloc = rt.alloc();
    let mut peer = MemPeer::empty(alloc, failing(alloc, None)?);
    let put = is_put(&mut peer, ABC, b"abc")
        && is_put(&mut peer, NOTHING, b"")
        && is_put(&mut peer, OLDER_ABC, b"abc")
        && is_put(&mut peer, ABC, b"abc");
    let whole = lists(
        &mut peer,
        None,
        9,
        &[(OLDER_ABC, 3), (ABC, 3), (NOTHING, 0)],
    );
    let part = lists(&mut peer, Some(OLDER_ABC), 1, &[(ABC, 3)])
        && lists(&mut peer, Some(NOTHING), 1, &[]);
    let given = has(&mut peer, OLDER_ABC, Some(b"abc")) && has(&mut peer, NOTHING, Some(b""));
    assert!(rt; put && whole && part && given && peer.faults() == 0);
    Ok(())
}

// Of three calls the second fails, whichever it is, and leaves all as it was.
#[test]
fn the_call_that_is_to_fail_fails(rt: HostRuntime) -> Result<(), NoMemory> {
    let alloc = rt.alloc();
    let mut peer = MemPeer::empty(alloc, failing(alloc, Some(1))?);
    let first = is_put(&mut peer, ABC, b"abc");
    let second = !is_put(&mut peer, NOTHING, b"") && peer.faults() == 1;
    let third = has(&mut peer, NOTHING, None);
    assert!(rt; first && second && third && peer.faults() == 1);
    Ok(())
}
