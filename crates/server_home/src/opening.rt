//! Opens the home over a disk.
ghost use Rattle.std.specs.Prelude.{◌≤◌, ◌^◌, IfOk, IfErr};
ghost use Rattle.pack_disk.specs.Disk.{last_number};
ghost use Rattle.top_frame.specs.Limits.{limits};
ghost use Rattle.server_home.specs.Opening.{IsOpenHome, HasCause};

use crate::passes::passes_of;
use blobref::NoMemory;
use claim_verify::Verifier;
use live_home::{LiveHome, LivePass};
use pack_disk::Disk;
use pack_store::{Limits, OpenFault, Store};
use snap_index::{SnapIndex, SnapSeat};
use std::alloc::Global;
use std::sync::Wait;
use top_frame::LIMITS;
use turn_store::{StoreSeat, TurnStore};

/// A store of packs and an index that threads share, with a handle that may wait.
pub type ServerHome<D, V, H> = LiveHome<TurnStore<D>, SnapIndex<V, H>>;

/// One thread's access to it.
pub type ServerPass<D, V, H> = LivePass<StoreSeat<D>, SnapSeat<V, H>>;

/// Why there is no home.
#[derive(Drop)]
pub enum HomeFault<D> {
    /// The disk failed. It is handed back.
    Disk { disk: D },
    /// No memory was left. The disk may be gone.
    NoMemory,
}

/// The home over a disk within the limits of the program: `home_within` with these.
pub fn home_over<D: Disk + Drop, V: Verifier + Copy + Drop, H: Wait + Drop>(
    rt: H,
    alloc: Global,
    disk: D,
    keys: V,
    count: usize,
) -> Result<(ServerHome<D, V, H>, Vec<ServerPass<D, V, H>>), HomeFault<D>>
    ensures opened { IfOk result (λ r. IsOpenHome D.Disk V.accepts disk limits keys count r.0 r.1.items) }
    ensures cause { IfErr result (HasCause D.faults disk) }
{
    home_within(rt, alloc, disk, LIMITS, keys, count)
}

/// Opens the store that a disk holds (`docs/store.md`), and makes so many passes of a home over it and over an index of
/// the keys. Each pass has seen the blobs of the store arrive, in turn 0, and an empty index; it drew no turn. The
/// index stays empty until a pass settles. `Disk` comes only if the disk's count of faults rose.
///
/// It reads all packs. The handle is used to wait for searches to leave a copy of the index.
pub fn home_within<D: Disk + Drop, V: Verifier + Copy + Drop, H: Wait + Drop>(
    rt: H,
    alloc: Global,
    disk: D,
    limits: Limits,
    keys: V,
    count: usize,
) -> Result<(ServerHome<D, V, H>, Vec<ServerPass<D, V, H>>), HomeFault<D>>
    requires last_pack { limits.last_pack ≤ last_number }
    requires pack_bytes { limits.pack_bytes ≤ 2 ^ 63 }
    ensures opened { IfOk result (λ r. IsOpenHome D.Disk V.accepts disk limits keys count r.0 r.1.items) }
    ensures cause { IfErr result (HasCause D.faults disk) }
{
    let store = match Store::open_on(alloc, disk, limits) {
        Ok(store) => store,
        Err((disk, OpenFault::Disk)) => return Err(HomeFault::Disk { disk }),
        Err((_disk, OpenFault::NoMemory)) => return Err(HomeFault::NoMemory),
    };
    let Ok((store, mut store_seat)) = TurnStore::make(alloc, store) else {
        return Err(HomeFault::NoMemory);
    };
    let Ok((index, seats)) = SnapIndex::make(rt, alloc, keys, count) else {
        return Err(HomeFault::NoMemory);
    };
    match passes_of(alloc, &store, &mut store_seat, seats) {
        Ok(passes) => Ok((LiveHome::make(alloc, store, index), passes)),
        Err(NoMemory) => Err(HomeFault::NoMemory),
    }
}
