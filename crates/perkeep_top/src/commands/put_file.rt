//! `put-file DIR NAME`
ghost use Rattle.top_frame.specs.Outside.{outside, world_before, world_after};
ghost use Rattle.top_frame.specs.Frame.{Ends};
ghost use Rattle.perkeep_top.specs.PutFile.{put_file_meaning};

use blobref::NoMemory;
use edge_base::{Clock, Dice, Sink, Source};
use file_cut::{MAX_NAME, write_file};
use pack_disk::Disk;
use peer_base::Peer;
use perkeep_lines::ref_line;
use std::alloc::Global;
use top_frame::{Environment, InputFault, Status, opened, written};

/// Stores the input as a file of this name, cut into blobs that are put as it is read, and writes the line of the
/// file's ref.
pub(crate) fn put_file<D: Disk, P: Peer, S: Source, K: Sink, C: Clock, R: Dice, V>(
    alloc: Global,
    name: &str,
    disk: D,
    environment: Environment<'_, P, S, K, C, R, V>,
) -> (D, Status)
    ensures { Ends (outside D.Disk P.Peer S.Source K.Sink C.Clock R.Dice) (put_file_meaning name.now)
        (world_before disk environment.entry)
        (world_after result.0 environment.exit) result.1 }
{
    if name.len() > MAX_NAME {
        let len = name.len() as u64;
        return (disk, Status::BadInput(InputFault::TooLong { len }));
    }
    let mut store = match opened(alloc, disk) {
        Ok(store) => store,
        Err(end) => return end,
    };
    let r = match write_file(alloc, name, environment.source, &mut store) {
        Ok(r) => r,
        Err(fault) => return (store.give_back(), Status::from(fault)),
    };
    match ref_line(alloc, &r) {
        Ok(line) => (
            store.give_back(),
            written(line.as_slice(), environment.sink),
        ),
        Err(NoMemory) => (store.give_back(), Status::NoMemory),
    }
}
