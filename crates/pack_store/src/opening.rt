//! A store is opened: each pack in order is synced and then read.
ghost use Rattle.std.specs.Prelude.{◌≡◌, ◌≤◌, ◌<◌, ◌^◌, [], IfOk, IfErr, OnOk, IsSome, Err};
ghost use Rattle.std.specs.Option.{ForSome};
ghost use Rattle.std.specs.FinMap.{get};
ghost use Rattle.edge_base.specs.Edge.{FaultsRose};
ghost use Rattle.pack_disk.specs.Packs.{Packs};
ghost use Rattle.pack_disk.specs.Disk.{last_number};
ghost use Rattle.pack_disk.specs.Runs.{Stays};
ghost use Rattle.pack_store.specs.declared.limits.Limits.{Limits};
ghost use Rattle.pack_store.specs.Archive.{Archive, AreLimits, IsSound};
ghost use Rattle.pack_store.specs.Opening.{IsOpened, IsPlaced, current_by};
ghost use Rattle.pack_store.specs.Onlooking.{IsShown};
ghost use Rattle.pack_store.specs.Calls.{IsReadFrom, TakesPack};

use crate::arrivals::Arrivals;
use crate::limits::Limits;
use crate::onlooker::{Nobody, Onlooker};
use crate::pieces::{PIECE, take_pieces};
use crate::places::Places;
use crate::rows::{Current, Row};
use crate::store::Store;
use blobref::NoMemory;
use pack_disk::Disk;
use salvage_scan::Clean;
use std::alloc::Global;
use thiserror::Error;

/// Why a store wasn't opened, or a pack wasn't read.
#[derive(Clone, Copy, Debug, PartialEq, Eq, Error)]
pub enum OpenFault {
    /// The disk failed.
    #[error("the disk failed as a pack was read")]
    Disk,
    /// No memory was left.
    #[error("no memory was left for the packs")]
    NoMemory,
}

impl From<NoMemory> for OpenFault {
    ghost use Rattle.pack_store.specs.declared.opening.OpenFault.TheVariants.{NoMemory as OutOfMemory};

    ghost from_gives = { λ _ fault. fault ≡ OutOfMemory };

    fn from(_error: NoMemory) -> OpenFault {
        OpenFault::NoMemory
    }
}

impl<D: Disk> Store<D> {
    /// Opens the store that a disk holds (`docs/store.md`). For each pack in order it syncs, and then reads it whole.
    /// Nothing is made and nothing added. Where the disk tells its packs, the store has their arrivals, and goes on
    /// behind the last pack where that is clean. Where it doesn't, the store has what is found in the bytes that these
    /// very calls answered, pack by pack. Whatever is answered, a crash at any moment leaves an image of the disk that
    /// was handed in. `Disk` comes only where the disk's count of faults rose. After an error the disk is handed back.
    pub fn open_on(alloc: Global, disk: D, limits: Limits) -> Result<Store<D>, (D, OpenFault)>
        requires last_pack { limits.last_pack ≤ last_number }
        requires pack_bytes { limits.pack_bytes ≤ 2 ^ 63 }
        ensures opened { IfOk result (IsOpened D.Disk disk limits) }
        ensures read { IfOk result (IsReadFrom D.Disk disk) }
        ensures stays { IfOk result (λ s. Stays D.Disk disk s.disk) }
        ensures stays_err { IfErr result (λ e. Stays D.Disk disk e.0) }
        ensures failed { IfErr result (λ e. e.1 ≡ OpenFault.Disk → FaultsRose (D.faults disk) (D.faults e.0)) }
        ensures later { IfOk result (λ s. D.faults disk ≤ D.faults s.disk) }
        ensures later_err { IfErr result (λ e. D.faults disk ≤ D.faults e.0) }
    {
        match Store::open_watched(alloc, disk, limits, PIECE, Nobody) {
            Ok(opened) => Ok(opened.0),
            Err(fault) => Err(fault),
        }
    }

    /// The same while somebody looks on, who is handed back with the store: as a blob arrives, its ref and its
    /// bytes are shown, from the piece and the record that are being read. No byte is read for that. Each arrival is
    /// shown once, in their order, with bytes whose own ref is the one that is shown, and where the disk tells its
    /// packs, with the arrival's. `piece` is the most bytes that one read asks for.
    ///
    /// `NoMemory` comes also where the onlooker has none.
    pub fn open_watched<L: Onlooker + Drop>(
        alloc: Global,
        disk: D,
        limits: Limits,
        piece: usize,
        onlooker: L,
    ) -> Result<(Store<D>, L), (D, OpenFault)>
        requires last_pack { limits.last_pack ≤ last_number }
        requires pack_bytes { limits.pack_bytes ≤ 2 ^ 63 }
        requires some { 0 < piece }
        ensures opened { IfOk result (λ o. IsOpened D.Disk disk limits o.0) }
        ensures read { IfOk result (λ o. IsReadFrom D.Disk disk o.0) }
        ensures shown { IfOk result (λ o. IsShown L.Onlooker (D.packs disk) [] o.0.rows onlooker o.1) }
        ensures stays { IfOk result (λ o. Stays D.Disk disk o.0.disk) }
        ensures stays_err { IfErr result (λ e. Stays D.Disk disk e.0) }
        ensures failed { IfErr result (λ e. e.1 ≡ OpenFault.Disk → FaultsRose (D.faults disk) (D.faults e.0)) }
        ensures later { IfOk result (λ o. D.faults disk ≤ D.faults o.0.disk) }
        ensures later_err { IfErr result (λ e. D.faults disk ≤ D.faults e.0) }
    {
        let mut disk = disk;
        match load(alloc, &mut disk, piece, onlooker) {
            Ok(loaded) => {
                let Loaded {
                    rows,
                    places,
                    next,
                    current,
                    onlooker,
                } = loaded;
                let store = Store {
                    alloc,
                    disk,
                    limits,
                    rows,
                    places,
                    next,
                    current,
                };
                Ok((store, onlooker))
            }
            Err(fault) => Err((disk, fault)),
        }
    }
}

// What was taken in of the packs.
#[derive(Drop)]
struct Loaded<L: Onlooker> {
    rows: Vec<Row>,
    places: Places,
    next: u32,
    current: Option<Current>,
    onlooker: L,
}

// Takes in each pack in order.
fn load<D: Disk, L: Onlooker + Drop>(
    alloc: Global,
    disk: &mut D,
    piece: usize,
    onlooker: L,
) -> Result<Loaded<L>, OpenFault>
    requires { 0 < piece }
    ensures opened { IfOk result (λ l. (limits : Limits) → IsOpened D.Disk disk.old limits
        (record { rows = l.rows.items; limits = limits; next = l.next; current = l.current; disk = disk.new })) }
    ensures read { IfOk result (λ l. (limits : Limits) → IsReadFrom D.Disk disk.old
        (record { rows = l.rows.items; limits = limits; next = l.next; current = l.current; disk = disk.new })) }
    ensures sound { IfOk result (λ l. (limits : Limits) → AreLimits limits → IsSound D.Disk l.places
        (record { rows = l.rows.items; limits = limits; next = l.next; current = l.current; disk = disk.new })) }
    ensures shown { IfOk result (λ l. IsShown L.Onlooker (D.packs disk.old) [] l.rows.items onlooker l.onlooker) }
    ensures stays { Stays D.Disk disk.old disk.new }
    ensures failed { result ≡ Err OpenFault.Disk → FaultsRose (D.faults disk.old) (D.faults disk.new) }
    ensures later { D.faults disk.old ≤ D.faults disk.new }
{
    let mut arrivals = Arrivals {
        pack: 0,
        rows: Vec::new(alloc),
        places: Places::empty(alloc),
        onlooker,
    };
    let mut next = 0;
    let mut current = None;
    loop {
        let Ok(found) = disk.packs(next) else {
            return Err(OpenFault::Disk);
        };
        let Some(pack) = found else {
            let Arrivals {
                pack: _,
                rows,
                places,
                onlooker,
            } = arrivals;
            return Ok(Loaded {
                rows,
                places,
                next,
                current,
                onlooker,
            });
        };
        current = take_pack(alloc, disk, pack, piece, &mut arrivals)?;
        next = pack + 1;
    }
}

// Syncs a pack and takes it in, and answers it where it is clean.
fn take_pack<D: Disk, L: Onlooker>(
    alloc: Global,
    disk: &mut D,
    pack: u32,
    piece: usize,
    arrivals: &mut Arrivals<L>,
) -> Result<Option<Current>, OpenFault>
    requires there { ForSome (D.packs disk.old) (λ held. IsSome (get held pack)) }
    requires some { 0 < piece }
    requires placed { IsPlaced arrivals.old.places arrivals.old.rows.items }
    ensures takes { IfOk result (TakesPack D.Disk L.Onlooker disk.old pack arrivals.old arrivals.new disk.new) }
    ensures stands { OnOk result (ForSome (D.packs disk.old)
        (λ held. (image : Packs) → D.images disk.new image → get image pack ≡ get held pack)) }
    ensures stays { Stays D.Disk disk.old disk.new }
    ensures failed { result ≡ Err OpenFault.Disk → FaultsRose (D.faults disk.old) (D.faults disk.new) }
    ensures later { D.faults disk.old ≤ D.faults disk.new }
{
    if disk.sync(pack).is_err() {
        return Err(OpenFault::Disk);
    }
    arrivals.pack = pack;
    let taken = take_pieces(alloc, disk, pack, piece, arrivals)?;
    Ok(current_by(taken.clean, pack, taken.size))
}

// The pack, where it is clean.
fn current_by(clean: Clean, pack: u32, size: u64) -> Option<Current>
    ensures { result ≡ current_by clean pack size }
{
    match clean {
        Clean::Yes => Some(Current { pack, size }),
        Clean::No { at: _ } => None,
    }
}
