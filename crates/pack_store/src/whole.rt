//! A pack is read piece by piece and salvaged.
ghost use Rattle.std.specs.Prelude.{◌≡◌, ◌≤◌, ◌++◌, IfOk, OnOk, IsSome, Err};
ghost use Rattle.std.specs.Option.{ForSome};
ghost use Rattle.std.specs.FinMap.{get};
ghost use Rattle.edge_base.specs.Edge.{FaultsRose};
ghost use Rattle.pack_disk.specs.Runs.{Stays};
ghost use Rattle.pack_store.specs.Scan.{IsScan};

use crate::opening::OpenFault;
use crate::pieces::{PIECE, take_pieces};
use crate::takers::Taker;
use blobref::NoMemory;
use pack_disk::Disk;
use salvage_scan::{Clean, Found, FoundList, Scanner};
use std::alloc::Global;

/// What is found in a pack, in order, whether it is clean, and its length in bytes.
#[derive(Drop)]
pub struct PackScan {
    pub found: FoundList,
    pub clean: Clean,
    pub size: u64,
}

/// Reads a pack in pieces and salvages it (`docs/formats/packs.md`). Nothing is synced and nothing is changed: whatever
/// is answered, no moment of the disk passes. What is answered is the scan of some bytes, and where the disk tells its
/// packs, of exactly those that it tells. `Disk` comes only where the disk's count of faults rose. Beside what is found
/// it takes memory for one record and one piece, and time as a scan does.
pub fn scan_pack<D: Disk>(alloc: Global, disk: &mut D, pack: u32) -> Result<PackScan, OpenFault>
    requires there { ForSome (D.packs disk.old) (λ held. IsSome (get held pack)) }
    ensures scanned { IfOk result (IsScan (D.packs disk.old) pack) }
    ensures stays { Stays D.Disk disk.old disk.new }
    ensures still { D.moment disk.new ≡ D.moment disk.old }
    ensures failed { result ≡ Err OpenFault.Disk → FaultsRose (D.faults disk.old) (D.faults disk.new) }
    ensures later { D.faults disk.old ≤ D.faults disk.new }
{
    let mut found = FoundList::empty(alloc);
    let taken = take_pieces(alloc, disk, pack, PIECE, &mut found)?;
    Ok(PackScan {
        found,
        clean: taken.clean,
        size: taken.size,
    })
}

// The list of all that is found.
impl Taker for FoundList {
    ghost use Rattle.pack_store.specs.Scan.{Lists, lists_nothing, lists_then};

    ghost takes = { λ a found b. Lists a found b };

    ghost ready = { λ a. Unit {0} };

    ghost takes_nothing = { λ a ready. lists_nothing a };

    ghost takes_then = { λ a b c first second. lists_then a b c first second };

    ghost stays_ready = { λ a b found took. tt };

    fn take(&mut self, _scanner: &Scanner, found: &[Found]) -> Result<(), NoMemory> {
        add_all(self, found)
    }
}

// Puts findings behind others.
fn add_all(list: &mut FoundList, more: &[Found]) -> Result<(), NoMemory>
    ensures { OnOk result (list.new ≡ list.old ++ more.now) }
{
    for f in more {
        list.push(*f)?;
    }
    Ok(())
}
