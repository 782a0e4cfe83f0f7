//! `get-file DIR REF`
ghost use Rattle.top_frame.specs.Outside.{outside, world_before, world_after};
ghost use Rattle.top_frame.specs.Frame.{Ends};
ghost use Rattle.perkeep_top.specs.GetFile.{get_file_meaning};

use blobref::Ref;
use edge_base::{Clock, Dice, Sink, Source};
use file_tree::read_file;
use pack_disk::Disk;
use pack_store::content_stands;
use peer_base::Peer;
use std::alloc::Global;
use store_ahead::StoreAhead;
use top_frame::{Environment, Status, opened};

/// Writes the bytes of a file, part by part. Where it can't be read to its end, exactly the bytes before that are
/// written.
pub(crate) fn get_file<D: Disk, P: Peer, S: Source, K: Sink, C: Clock, R: Dice, V>(
    alloc: Global,
    r: &Ref,
    disk: D,
    environment: Environment<'_, P, S, K, C, R, V>,
) -> (D, Status)
    ensures { Ends (outside D.Disk P.Peer S.Source K.Sink C.Clock R.Dice) (get_file_meaning D.Disk disk r.now)
        (world_before disk environment.entry)
        (world_after result.0 environment.exit) result.1 }
{
    let store = match opened(alloc, disk) {
        Ok(store) => store,
        Err(end) => return end,
    };
    content_stands::<D>();
    let mut shelf = StoreAhead::over(alloc, store);
    match read_file(alloc, r, &mut shelf, environment.sink) {
        Ok(_) => (shelf.back().give_back(), Status::Done),
        Err(fault) => (shelf.back().give_back(), Status::from(fault)),
    }
}
