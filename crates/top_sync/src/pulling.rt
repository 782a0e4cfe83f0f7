//! `pull DIR ADDR`
ghost use Rattle.top_frame.specs.Frame.{Ends};
ghost use Rattle.top_frame.specs.Outside.{outside, world_before, world_after};
ghost use Rattle.top_sync.specs.Meanings.{pull_meaning};

use crate::faults::pull_status;
use crate::lines::copied_line;
use blobref::NoMemory;
use edge_base::{Clock, Dice, Sink, Source};
use pack_disk::Disk;
use pack_store::content_stands;
use peer_base::Peer;
use std::alloc::Global;
use store_peer::StorePeer;
use sync_core::sync;
use top_frame::{Environment, Status, opened, written};

/// Copies to the store the blobs of the peer whose refs it lacks, in the order of refs, and writes how many these are
/// and how many stood there. Nothing is put to the peer. A failure of the store is `Disk`, and one of the peer is
/// `Peer`. After each refusal but `Disk` the store holds what it held and a front of those blobs.
pub fn pull<D: Disk, P: Peer, S: Source, K: Sink, C: Clock, R: Dice, V>(
    alloc: Global,
    disk: D,
    environment: Environment<'_, P, S, K, C, R, V>,
) -> (D, Status)
    ensures { Ends (outside D.Disk P.Peer S.Source K.Sink C.Clock R.Dice) pull_meaning
        (world_before disk environment.entry) (world_after result.0 environment.exit) result.1 }
{
    let store = match opened(alloc, disk) {
        Ok(store) => store,
        Err(end) => return end,
    };
    content_stands::<D>();
    let mut here = StorePeer::over(store);
    match sync(alloc, environment.peer, &mut here) {
        Ok(synced) => match copied_line(alloc, synced) {
            Ok(line) => {
                let status = written(line.as_slice(), environment.sink);
                (here.back().give_back(), status)
            }
            Err(NoMemory) => (here.back().give_back(), Status::NoMemory),
        },
        Err(fault) => (here.back().give_back(), pull_status(fault)),
    }
}
