//! The statuses that tell why not all was copied (`docs/commands.md`).
ghost use Rattle.std.specs.Prelude.{◌≡◌};
ghost use Rattle.top_frame.specs.Faults.{peer_status, push_status, pull_status};

use peer_base::PeerFault;
use sync_core::SyncFault;
use top_frame::{ReplyFault, Status};

/// The status of a sync that copied a store to a peer and stopped at this fault: `Disk` where the store failed, `Peer`
/// where the peer did, `BadReply` where an answer can't be used or a listed ref isn't there, and else the fault's own.
pub fn push_status(fault: SyncFault) -> Status
    ensures { result ≡ push_status fault }
{
    match fault {
        SyncFault::Source(fault) => peer_status(Status::Disk, fault),
        SyncFault::Target(fault) => peer_status(Status::Peer, fault),
        SyncFault::Gone { r } => Status::BadReply(ReplyFault::Gone { r }),
    }
}

/// The status of a sync that copied a peer to a store and stopped at this fault: `Peer` where the peer failed, `Disk`
/// where the store did, and else as that of a push.
pub fn pull_status(fault: SyncFault) -> Status
    ensures { result ≡ pull_status fault }
{
    match fault {
        SyncFault::Source(fault) => peer_status(Status::Peer, fault),
        SyncFault::Target(fault) => peer_status(Status::Disk, fault),
        SyncFault::Gone { r } => Status::BadReply(ReplyFault::Gone { r }),
    }
}

// A fault of one of the two. `failed` tells that it failed.
fn peer_status(failed: Status, fault: PeerFault) -> Status
    ensures { result ≡ peer_status failed fault }
{
    match fault {
        PeerFault::Failed => failed,
        PeerFault::BadReply => Status::BadReply(ReplyFault::Grammar),
        PeerFault::Refused { status } => Status::BadReply(ReplyFault::Refused { status }),
        PeerFault::Damaged { want, is } => Status::Damaged { want, is },
        PeerFault::Full { blobs, pack } => Status::Full { blobs, pack },
        PeerFault::NoMemory => Status::NoMemory,
    }
}
