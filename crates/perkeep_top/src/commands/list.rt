//! `list DIR [--after REF] [--limit N]`
ghost use Rattle.std.specs.Prelude.{◌≡◌, ◌≤◌, IfOk, IfErr, option_copied};
ghost use Rattle.pack_store.specs.Puts.{Stands};
ghost use Rattle.top_frame.specs.Outside.{outside, world_before, world_after};
ghost use Rattle.top_frame.specs.Frame.{Ends};
ghost use Rattle.top_frame.specs.Limits.{limits};
ghost use Rattle.perkeep_top.specs.ListRefs.{list_meaning, IsListing};

use blobref::{NoMemory, Octets, Ref};
use edge_base::{Clock, Dice, Sink, Source};
use pack_disk::Disk;
use pack_store::Store;
use peer_base::Peer;
use perkeep_lines::size_lines;
use std::alloc::Global;
use top_frame::{Environment, Status, opened, written};

/// Writes a line for each of the refs greater than `after`, or for all where it is `None`, ascending, the first
/// `limit` of them, each with its size.
pub(crate) fn list<D: Disk, P: Peer, S: Source, K: Sink, C: Clock, R: Dice, V>(
    alloc: Global,
    after: Option<&Ref>,
    limit: u64,
    disk: D,
    environment: Environment<'_, P, S, K, C, R, V>,
) -> (D, Status)
    ensures { Ends (outside D.Disk P.Peer S.Source K.Sink C.Clock R.Dice)
        (list_meaning D.Disk disk (option_copied after.entry) limit) (world_before disk environment.entry)
        (world_after result.0 environment.exit) result.1 }
{
    let store = match opened(alloc, disk) {
        Ok(store) => store,
        Err(end) => return end,
    };
    match lines_of(alloc, &store, after, limit) {
        Ok(lines) => (
            store.give_back(),
            written(lines.as_slice(), environment.sink),
        ),
        Err(NoMemory) => (store.give_back(), Status::NoMemory),
    }
}

// The lines of the blobs that stand in the store.
fn lines_of<D: Disk>(
    alloc: Global,
    store: &Store<D>,
    after: Option<&Ref>,
    limit: u64,
) -> Result<Octets, NoMemory>
    requires { Stands D.Disk limits store.now }
    ensures { IfOk result (IsListing store.now (option_copied after.entry) limit (D.packs store.now.disk)) }
{
    store.arrivals_are_held();
    let page = store.list(after, limit as usize)?;
    size_lines(alloc, &page)
}
