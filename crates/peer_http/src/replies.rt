//! Replies as they are read.
ghost use Rattle.std.specs.Prelude.{◌≡◌, ◌<◌, ◌≤◌, length, IsErrOf};
ghost use Rattle.edge_base.specs.Edge.{FaultsRose};
ghost use Rattle.peer_http.specs.Replies.{Reads};

use crate::gathering::{ReplyFault, fault_of, gather};
use blobref::Octets;
use edge_base::Source;
use http_wire::Wire;
use std::alloc::Global;

/// A reply: its status, and the bytes of its body.
#[derive(Drop)]
pub struct Reply {
    pub status: u16,
    pub body: Octets,
}

/// The next reply, with a body of at most `most` bytes. The buffer is for the pieces of the body.
pub(crate) fn read_reply<S: Source>(
    alloc: Global,
    wire: &mut Wire,
    source: &mut S,
    buf: &mut [u8],
    most: usize,
) -> Result<Reply, ReplyFault>
    requires { 0 < length buf.old }
    ensures reads { Reads most (S.left source.old) (S.left source.new) wire.old wire.new result }
    ensures fault { IsErrOf result ReplyFault.Failed → FaultsRose (S.faults source.old) (S.faults source.new) }
    ensures later { S.faults source.old ≤ S.faults source.new }
{
    let head = match wire.next_reply(source) {
        Ok(head) => head,
        Err(end) => return Err(fault_of(end)),
    };
    let status = head.status;
    match gather(alloc, wire, source, buf, most) {
        Ok(body) => Ok(Reply { status, body }),
        Err(fault) => Err(fault),
    }
}
