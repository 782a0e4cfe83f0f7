//! `salvage DIR`
ghost use Rattle.std.specs.Prelude.{◌≡◌, ◌≤◌, IsSome, IfErr, OnOk, OnErr};
ghost use Rattle.std.specs.Option.{ForSome};
ghost use Rattle.std.specs.FinMap.{get};
ghost use Rattle.edge_base.specs.Edge.{FaultsRose};
ghost use Rattle.pack_disk.specs.Runs.{Stays};
ghost use Rattle.top_frame.specs.Outside.{outside, world_before, world_after};
ghost use Rattle.top_frame.specs.Frame.{Ends};
ghost use Rattle.perkeep_top.specs.Salvaged.{salvage_meaning, IsReport, IsPackReport, Writes, WritesFront, ComesWhileTelling};

use edge_base::{Clock, Dice, Failed, Sink, Source, write_all};
use pack_disk::Disk;
use pack_store::scan_pack;
use peer_base::Peer;
use perkeep_lines::report_of;
use std::alloc::Global;
use top_frame::{Environment, Status};

/// Writes what each pack of the disk holds, pack by pack. Nothing is made, added or synced: no moment of the disk
/// passes.
pub(crate) fn salvage<D: Disk, P: Peer, S: Source, K: Sink, C: Clock, R: Dice, V>(
    alloc: Global,
    mut disk: D,
    environment: Environment<'_, P, S, K, C, R, V>,
) -> (D, Status)
    ensures { Ends (outside D.Disk P.Peer S.Source K.Sink C.Clock R.Dice) salvage_meaning
        (world_before disk environment.entry)
        (world_after result.0 environment.exit) result.1 }
{
    match tell_packs(alloc, &mut disk, environment.sink) {
        Ok(()) => (disk, Status::Done),
        Err(status) => (disk, status),
    }
}

// Tells what all packs hold, in the order of their numbers.
fn tell_packs<D: Disk, K: Sink>(alloc: Global, disk: &mut D, sink: &mut K) -> Result<(), Status>
    ensures done { OnOk result (Writes (IsReport (D.packs disk.old)) (K.written sink.old) (K.written sink.new)) }
    ensures part { OnErr result (WritesFront (IsReport (D.packs disk.old)) (K.written sink.old) (K.written sink.new)) }
    ensures comes { IfErr result (ComesWhileTelling (FaultsRose (K.faults sink.old) (K.faults sink.new))
        (FaultsRose (D.faults disk.old) (D.faults disk.new))) }
    ensures stays { Stays D.Disk disk.old disk.new }
    ensures still { D.moment disk.new ≡ D.moment disk.old }
    ensures disk_later { D.faults disk.old ≤ D.faults disk.new }
    ensures sink_later { K.faults sink.old ≤ K.faults sink.new }
{
    let mut next = 0;
    'packs: loop {
        let found = match disk.packs(next) {
            Ok(found) => found,
            Err(Failed) => return Err(Status::Disk),
        };
        let Some(pack) = found else {
            return Ok(());
        };
        if let Err(status) = tell_pack(alloc, disk, pack, sink) {
            return Err(status);
        }
        next = pack + 1;
    }
}

// Tells what a pack holds.
fn tell_pack<D: Disk, K: Sink>(
    alloc: Global,
    disk: &mut D,
    pack: u32,
    sink: &mut K,
) -> Result<(), Status>
    requires there { ForSome (D.packs disk.old) (λ held. IsSome (get held pack)) }
    ensures done { OnOk result (Writes (IsPackReport pack (D.packs disk.old)) (K.written sink.old)
        (K.written sink.new)) }
    ensures part { OnErr result (WritesFront (IsPackReport pack (D.packs disk.old)) (K.written sink.old)
        (K.written sink.new)) }
    ensures comes { IfErr result (ComesWhileTelling (FaultsRose (K.faults sink.old) (K.faults sink.new))
        (FaultsRose (D.faults disk.old) (D.faults disk.new))) }
    ensures stays { Stays D.Disk disk.old disk.new }
    ensures still { D.moment disk.new ≡ D.moment disk.old }
    ensures disk_later { D.faults disk.old ≤ D.faults disk.new }
    ensures sink_later { K.faults sink.old ≤ K.faults sink.new }
{
    let scan = scan_pack(alloc, disk, pack)?;
    let text = report_of(alloc, pack, scan.found.as_slice(), scan.clean)?;
    match write_all(sink, text.as_slice()) {
        Ok(()) => Ok(()),
        Err(Failed) => Err(Status::WriteFault),
    }
}
