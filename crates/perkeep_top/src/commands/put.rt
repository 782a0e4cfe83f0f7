//! `put DIR`
ghost use Rattle.top_frame.specs.Outside.{outside, world_before, world_after};
ghost use Rattle.top_frame.specs.Frame.{Ends};
ghost use Rattle.perkeep_top.specs.Put.{put_meaning};

use blobref::Ref;
use edge_base::{Clock, Dice, Sink, Source};
use pack_disk::Disk;
use pack_format::MAX_SIZE;
use peer_base::Peer;
use perkeep_lines::ref_line;
use std::alloc::Global;
use top_frame::{Environment, Status, opened, put_blob, read_input, written};

/// Stores all that the source has left as one blob, and writes the line of its ref. The line is made before the blob
/// is put, so that no want of memory comes between the store and the answer.
pub(crate) fn put<D: Disk, P: Peer, S: Source, K: Sink, C: Clock, R: Dice, V>(
    alloc: Global,
    disk: D,
    environment: Environment<'_, P, S, K, C, R, V>,
) -> (D, Status)
    ensures { Ends (outside D.Disk P.Peer S.Source K.Sink C.Clock R.Dice) put_meaning
        (world_before disk environment.entry)
        (world_after result.0 environment.exit) result.1 }
{
    let bytes = match read_input(alloc, environment.source, MAX_SIZE as usize) {
        Ok(bytes) => bytes,
        Err(status) => return (disk, status),
    };
    let r = Ref::of(&bytes);
    let Ok(line) = ref_line(alloc, &r) else {
        return (disk, Status::NoMemory);
    };
    let mut store = match opened(alloc, disk) {
        Ok(store) => store,
        Err(end) => return end,
    };
    match put_blob(&mut store, &r, &bytes) {
        Ok(_) => (
            store.give_back(),
            written(line.as_slice(), environment.sink),
        ),
        Err(fault) => (store.give_back(), Status::from(fault)),
    }
}
