//! `stat DIR REF`
ghost use Rattle.std.specs.Prelude.{◌≤◌, IfOk, IfErr};
ghost use Rattle.pack_store.specs.Puts.{Stands};
ghost use Rattle.top_frame.specs.Outside.{outside, world_before, world_after};
ghost use Rattle.top_frame.specs.Frame.{Ends};
ghost use Rattle.top_frame.specs.Limits.{limits};
ghost use Rattle.perkeep_top.specs.Stat.{stat_meaning, IsSizeLine, RefusesSize};
ghost use Rattle.top_frame.specs.Steps.{Finds};

use blobref::{Octets, Ref};
use edge_base::{Clock, Dice, Sink, Source};
use pack_disk::Disk;
use pack_store::Store;
use peer_base::Peer;
use perkeep_lines::size_line;
use std::alloc::Global;
use top_frame::{Environment, Status, opened, written};

/// Writes the ref of a blob and its size.
pub(crate) fn stat<D: Disk, P: Peer, S: Source, K: Sink, C: Clock, R: Dice, V>(
    alloc: Global,
    r: &Ref,
    disk: D,
    environment: Environment<'_, P, S, K, C, R, V>,
) -> (D, Status)
    ensures { Ends (outside D.Disk P.Peer S.Source K.Sink C.Clock R.Dice) (stat_meaning D.Disk disk r.now)
        (world_before disk environment.entry)
        (world_after result.0 environment.exit) result.1 }
{
    let store = match opened(alloc, disk) {
        Ok(store) => store,
        Err(end) => return end,
    };
    match line_of(alloc, &store, r) {
        Ok(line) => (
            store.give_back(),
            written(line.as_slice(), environment.sink),
        ),
        Err(status) => (store.give_back(), status),
    }
}

// The line of a blob that stands in the store.
fn line_of<D: Disk>(alloc: Global, store: &Store<D>, r: &Ref) -> Result<Octets, Status>
    requires { Stands D.Disk limits store.now }
    ensures line { IfOk result (IsSizeLine store.now r.now (D.packs store.now.disk)) }
    ensures refused { IfErr result (Finds D.Disk store.now.disk store.now.disk
        (RefusesSize store.now r.now (D.packs store.now.disk))) }
{
    store.arrivals_are_held();
    match store.stat(r) {
        Some(size) => Ok(size_line(alloc, r, size)?),
        None => Err(Status::Absent { r: *r }),
    }
}
