//! The body of a reply, read as a whole.
ghost use Rattle.std.specs.Prelude.{◌≡◌, ◌<◌, ◌≤◌, length, IsErrOf};
ghost use Rattle.edge_base.specs.Edge.{FaultsRose};
ghost use Rattle.peer_http.specs.Replies.{Gathers, fault_of};

use blobref::Octets;
use edge_base::Source;
use http_wire::{Wire, WireEnd};
use std::alloc::Global;

/// Why no reply was read.
#[derive(Clone, Copy, PartialEq, Eq)]
pub enum ReplyFault {
    /// A read or a write failed.
    Failed,
    /// What came isn't a reply that can be read, or its body is too long.
    Bad,
    /// No memory was left.
    NoMemory,
}

/// The bytes of the present body, at most `most`; no more of it is read as soon as there are more. Memory grows with
/// the bytes that come. The buffer is for the pieces.
pub(crate) fn gather<S: Source>(
    alloc: Global,
    wire: &mut Wire,
    source: &mut S,
    buf: &mut [u8],
    most: usize,
) -> Result<Octets, ReplyFault>
    requires { 0 < length buf.old }
    ensures gathers { Gathers most (S.left source.old) (S.left source.new) wire.old wire.new result }
    ensures fault { IsErrOf result ReplyFault.Failed → FaultsRose (S.faults source.old) (S.faults source.new) }
    ensures later { S.faults source.old ≤ S.faults source.new }
{
    let mut bytes = Vec::new(alloc);
    'reads: loop {
        let n = match wire.body(source, buf) {
            Ok(n) => n,
            Err(end) => return Err(fault_of(end)),
        };
        if n == 0 {
            return Ok(Octets::from_vec(bytes));
        }
        if n > most - bytes.len() {
            return Err(ReplyFault::Bad);
        }
        let Ok(()) = bytes.extend_from_slice(&buf[..n]) else {
            return Err(ReplyFault::NoMemory);
        };
    }
}

/// How the end of reading is told.
pub(crate) fn fault_of(end: WireEnd) -> ReplyFault
    ensures { result ≡ fault_of end }
{
    match end {
        WireEnd::ReadFault => ReplyFault::Failed,
        _ => ReplyFault::Bad,
    }
}
