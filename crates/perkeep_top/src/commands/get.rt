//! `get DIR REF`
ghost use Rattle.std.specs.Prelude.{◌≤◌, IfOk, IfErr};
ghost use Rattle.pack_store.specs.Puts.{Stands};
ghost use Rattle.pack_store.specs.Reading.{StaysStill};
ghost use Rattle.top_frame.specs.Outside.{outside, world_before, world_after};
ghost use Rattle.top_frame.specs.Frame.{Ends};
ghost use Rattle.perkeep_top.specs.Get.{get_meaning, IsBlob, RefusesBlob};
ghost use Rattle.top_frame.specs.Limits.{limits};
ghost use Rattle.top_frame.specs.Steps.{Finds};

use blobref::{Octets, Ref};
use edge_base::{Clock, Dice, Sink, Source};
use pack_disk::Disk;
use pack_store::Store;
use peer_base::Peer;
use std::alloc::Global;
use top_frame::{Environment, Status, opened, written};

/// Writes the bytes of a blob.
pub(crate) fn get<D: Disk, P: Peer, S: Source, K: Sink, C: Clock, R: Dice, V>(
    alloc: Global,
    r: &Ref,
    disk: D,
    environment: Environment<'_, P, S, K, C, R, V>,
) -> (D, Status)
    ensures { Ends (outside D.Disk P.Peer S.Source K.Sink C.Clock R.Dice) (get_meaning D.Disk disk r.now)
        (world_before disk environment.entry)
        (world_after result.0 environment.exit) result.1 }
{
    let mut store = match opened(alloc, disk) {
        Ok(store) => store,
        Err(end) => return end,
    };
    match blob(&mut store, r) {
        Ok(bytes) => (
            store.give_back(),
            written(bytes.as_slice(), environment.sink),
        ),
        Err(status) => (store.give_back(), status),
    }
}

// The bytes of a blob.
fn blob<D: Disk>(store: &mut Store<D>, r: &Ref) -> Result<Octets, Status>
    requires { Stands D.Disk limits store.old }
    ensures found { IfOk result (IsBlob r.now (D.packs store.old.disk)) }
    ensures refused { IfErr result (Finds D.Disk store.old.disk store.new.disk
        (RefusesBlob store.old r.now (D.packs store.old.disk))) }
    ensures still { StaysStill D.Disk store.old store.new }
    ensures later { D.faults store.old.disk ≤ D.faults store.new.disk }
{
    match store.get(r) {
        Ok(Some(bytes)) => Ok(bytes),
        Ok(None) => Err(Status::Absent { r: *r }),
        Err(fault) => Err(Status::from(fault)),
    }
}
