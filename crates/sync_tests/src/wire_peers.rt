//! A peer over HTTP, by replies that were written for it.
use crate::peers::{ABC, NOTHING, has, is_put};
use blobref::{NoMemory, Octets, Ref};
use edge_base::{CallList, MemSink, MemSource};
use peer_base::{Peer, PeerFault};
use peer_http::WirePeer;
use std::alloc::Global;

// A page of `abc`, in one chunk and with a key that nothing looks at.
const PAGE: &str =
    "HTTP/1.1 200 OK\r\nTransfer-Encoding: chunked\r\n\r\n68\r\n{\"blobs\":[{\"size\":3,\"blobRef\":\"sha224-23097d223405d8228642a477bda255b32aadbce4bda0b3f7e36c9da7\",\"x\":1}]}\r\n0\r\n\r\n";

// `abc`.
const BLOB: &str = "HTTP/1.1 200 OK\r\nContent-Length: 3\r\n\r\nabc";

// No blob.
const ABSENT: &str = "HTTP/1.1 404 Not Found\r\nContent-Length: 18\r\n\r\n{\"error\":\"absent\"}";

// No bytes were received under their ref.
const RECEIVED: &str =
    "HTTP/1.1 200 OK\r\nContent-Length: 101\r\n\r\n{\"received\":[{\"blobRef\":\"sha224-d14a028c2a3a2bc9476102bb288234c415a2b01f828ea62ac5b3e42f\",\"size\":0}]}";

// A page that doesn't rise.
const FALLING: &str =
    "HTTP/1.1 200 OK\r\nContent-Length: 185\r\n\r\n{\"blobs\":[{\"blobRef\":\"sha224-d14a028c2a3a2bc9476102bb288234c415a2b01f828ea62ac5b3e42f\",\"size\":0},{\"blobRef\":\"sha224-23097d223405d8228642a477bda255b32aadbce4bda0b3f7e36c9da7\",\"size\":3}]}";

// A refusal without a length, up to the end.
const REFUSAL: &str = "HTTP/1.1 503 Service Unavailable\r\n\r\nlater";

// The peer whose replies are these texts, one behind the other.
fn peer(alloc: Global, replies: &[&str]) -> Result<WirePeer<MemSource, MemSink>, NoMemory> {
    let mut bytes = Vec::new(alloc);
    for reply in replies {
        bytes.extend_from_slice(reply.as_bytes())?;
    }
    let source = MemSource::of(Octets::from_vec(bytes), CallList::empty(alloc));
    let sink = MemSink::empty(alloc, CallList::empty(alloc));
    WirePeer::make(alloc, source, sink)
}

// Whether the next page is `abc` alone.
fn lists_abc(peer: &mut WirePeer<MemSource, MemSink>) -> bool {
    match peer.list(None, 9) {
        Ok(page) => page.len() == 1 && page.at(0).0.spell().as_slice() == ABC.as_bytes(),
        Err(_) => false,
    }
}

// How the next page is refused.
fn refused(peer: &mut WirePeer<MemSource, MemSink>) -> Option<PeerFault> {
    peer.list(Some(&Ref::least()), 9).err()
}

#[test]
fn replies_are_answers(rt: HostRuntime) -> Result<(), NoMemory> {
    let mut peer = peer(rt.alloc(), &[PAGE, BLOB, ABSENT, RECEIVED])?;
    let listed = lists_abc(&mut peer);
    let fetched = has(&mut peer, ABC, Some(b"abc")) && has(&mut peer, NOTHING, None);
    let put = is_put(&mut peer, NOTHING, b"");
    assert!(rt; listed && fetched && put && peer.faults() == 0);
    Ok(())
}

// Behind the last reply the source has ended.
#[test]
fn other_replies_are_refused(rt: HostRuntime) -> Result<(), NoMemory> {
    let mut peer = peer(rt.alloc(), &[FALLING, BLOB, REFUSAL])?;
    let falling = refused(&mut peer) == Some(PeerFault::BadReply);
    let blob = refused(&mut peer) == Some(PeerFault::BadReply);
    let refusal = refused(&mut peer) == Some(PeerFault::Refused { status: 503 });
    let ended = refused(&mut peer) == Some(PeerFault::BadReply);
    assert!(rt; falling && blob && refusal && ended && peer.faults() == 0);
    Ok(())
}
