//! The calls of a peer over HTTP, on its connection.
ghost use Rattle.std.specs.Prelude.{◌≡◌, ◌≤◌, None, length, IfOk, IfSome, option_copied};
ghost use Rattle.blobref.specs.Blobref.{IsOwnRef};
ghost use Rattle.edge_base.specs.Shelf.{max_blob};
ghost use Rattle.peer_base.specs.Blobs.{IsPage};
ghost use Rattle.peer_base.specs.Causes.{ListCause, FetchCause};
ghost use Rattle.peer_http.specs.Calls.{ListsOver, FetchesOver, KeepsOver, peer_fault};
ghost use Rattle.peer_http.specs.Links.{both};

use crate::answers::{fetch_answer, list_answer, put_answer};
use crate::gathering::ReplyFault;
use crate::link::Link;
use blobref::{Listing, Octets, Ref};
use edge_base::{Sink, Source};
use peer_base::PeerFault;
use peer_requests::{fetch_request, list_request, upload_request};

/// The most bytes of the body of a reply to `fetch`.
const MAX_BLOB: usize = 16_777_216;

/// The most bytes of the body of another reply.
const MAX_TEXT: usize = 1_048_576;

/// Asks for a page. The buffer is for the request.
pub(crate) fn list<S: Source, K: Sink>(
    link: &mut Link<S, K>,
    request: &mut Vec<u8>,
    after: Option<&Ref>,
    limit: usize,
) -> Result<Listing, PeerFault>
    ensures is { ListsOver S.left K.written link.old (option_copied after.entry) limit result link.new }
    ensures page { IfOk result (IsPage (option_copied after.entry) limit) }
    ensures cause { ListCause None (both (S.faults link.old.source) (K.faults link.old.sink))
        (both (S.faults link.new.source) (K.faults link.new.sink)) result }
    ensures later { both (S.faults link.old.source) (K.faults link.old.sink)
        ≤ both (S.faults link.new.source) (K.faults link.new.sink) }
{
    list_request(request, after, limit)?;
    let reply = match link.ask(request.as_slice(), MAX_TEXT) {
        Ok(reply) => reply,
        Err(fault) => return Err(peer_fault(fault)),
    };
    list_answer(link.alloc(), after, limit, &reply)
}

/// Asks for a blob. The buffer is for the request.
pub(crate) fn fetch<S: Source, K: Sink>(
    link: &mut Link<S, K>,
    request: &mut Vec<u8>,
    r: &Ref,
) -> Result<Option<Octets>, PeerFault>
    ensures is { FetchesOver S.left K.written link.old r.now result link.new }
    ensures named { IfOk result (λ found. IfSome found (λ bytes. IsOwnRef r.now bytes)) }
    ensures small { IfOk result (λ found. IfSome found (λ bytes. length bytes ≤ max_blob)) }
    ensures cause { FetchCause None (both (S.faults link.old.source) (K.faults link.old.sink))
        (both (S.faults link.new.source) (K.faults link.new.sink)) r.now result }
    ensures later { both (S.faults link.old.source) (K.faults link.old.sink)
        ≤ both (S.faults link.new.source) (K.faults link.new.sink) }
{
    fetch_request(request, r)?;
    let reply = match link.ask(request.as_slice(), MAX_BLOB) {
        Ok(reply) => reply,
        Err(fault) => return Err(peer_fault(fault)),
    };
    fetch_answer(r, reply)
}

/// Gives a blob of at most 16,777,216 bytes. The buffer is for the request.
pub(crate) fn put<S: Source, K: Sink>(
    link: &mut Link<S, K>,
    request: &mut Vec<u8>,
    r: &Ref,
    bytes: &[u8],
) -> Result<(), PeerFault>
    requires { length bytes.now ≤ max_blob }
    ensures is { KeepsOver S.left K.written link.old (r.now, bytes.now) result link.new }
    ensures cause { ListCause None (both (S.faults link.old.source) (K.faults link.old.sink))
        (both (S.faults link.new.source) (K.faults link.new.sink)) result }
    ensures later { both (S.faults link.old.source) (K.faults link.old.sink)
        ≤ both (S.faults link.new.source) (K.faults link.new.sink) }
{
    upload_request(link.alloc(), request, r, bytes)?;
    let reply = match link.ask(request.as_slice(), MAX_TEXT) {
        Ok(reply) => reply,
        Err(fault) => return Err(peer_fault(fault)),
    };
    put_answer(link.alloc(), r, bytes.len() as u64, &reply)
}

// As the fault of a peer.
fn peer_fault(fault: ReplyFault) -> PeerFault
    ensures { result ≡ peer_fault fault }
{
    match fault {
        ReplyFault::Failed => PeerFault::Failed,
        ReplyFault::Bad => PeerFault::BadReply,
        ReplyFault::NoMemory => PeerFault::NoMemory,
    }
}
