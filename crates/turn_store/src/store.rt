//! The store in its lock, and its seats.
ghost use Rattle.std.specs.Prelude.{◌≡◌, ◌+◌, true, length};
ghost use Rattle.histories.specs.Stores.{arrivals};
ghost use Rattle.store_history.specs.Together.{AllFrom};
ghost use Rattle.turn_cell.specs.Seats.{about, seen};
ghost use Rattle.turn_store.specs.Ahead.{IsArrival};
ghost use Rattle.turn_store.specs.StoreAbout.{about_seen, is_legal_within};

use ahead::Ahead;
use histories::StoreEvent;
use pack_disk::Disk;
use pack_store::Store;
use std::alloc::Global;
use turn_cell::{Told, Turn, TurnSeat};

mod ahead;
mod arrivals;
mod calls;
mod jobs;
mod making;
mod turns;

/// The parts of a store that no turn changes. No value of this type is made.
pub struct StoreAbout {
    /// How many blobs it may have.
    pub blobs: u64,
    /// The number of its last pack.
    pub last_pack: u32,
    /// Whether its disk tells the bytes of its packs.
    pub tells: bool,
    /// The number of failed calls on its disk when it was put into the lock.
    pub made: u64,
}

/// The store, the content of the lock.
#[derive(Drop)]
pub struct KeptStore<D: Disk> {
    pub store: Store<D>,
    /// The number of failed calls on its disk when it was put into the lock. Only contracts read this and the next
    /// field.
    pub made: u64,
    /// The same before the last turn.
    pub before: u64,
}

impl<D: Disk> Told for KeptStore<D> {
    ghost use Rattle.store_history.specs.Represents.{StoreRepresents};
    ghost use Rattle.store_history.specs.Beginning.{begins};
    ghost use Rattle.turn_store.specs.StoreAbout.{about_of, is_legal_within, legal_within};

    type Entry = StoreEvent;

    type About = StoreAbout;

    ghost about = { λ k. about_of D.Disk k.made k.store };

    ghost tells = { λ k h. StoreRepresents D.Disk k.made k.store h };

    ghost begins = { λ k. begins D.Disk k.store };

    ghost legal = { λ a h. is_legal_within a h };

    ghost is_legal = { λ k h t. legal_within D.Disk k.made k.store h t };
}

/// A store of packs that several seats share, on any disk (`docs/core.md`). It tells its bytes if its disk does.
/// Digests are taken outside the turns.
pub struct TurnStore<D: Disk> {
    alloc: Global,
    turn: Turn<KeptStore<D>>,
}

// Written by hand: a derived drop is proved again in each crate that holds such a value.
impl<D: Disk + Drop> Drop for TurnStore<D> {
    fn drop(self) {
        let Self {
            alloc: _,
            turn: _turn,
        } = self;
    }
}

/// One actor's access to a `TurnStore`: the history of the store that it has seen, the turns that it drew, and the
/// number of blobs that arrived in that history. The faults that it has seen were counted after the store was put into
/// the lock, and if the disk tells, it has seen no damage. It holds the blobs that it read ahead, fewer than 64 of at
/// most 8 MiB together, as long as one of them may be the next request.
#[derive(Drop)]
pub struct StoreSeat<D: Disk> {
    seat: TurnSeat<KeptStore<D>, StoreEvent, StoreAbout>,
    count: u64,
    ahead: Ahead,
    pub ghost legal: { is_legal_within (about_seen (about seat)) (seen seat) ≡ true },
    ghost counted: { count ≡ length (arrivals (seen seat)) },
    // Each blob that was read ahead arrived in the history that the seat has seen.
    ghost arrived: { AllFrom (IsArrival (about_seen (about seat)).tells (arrivals (seen seat))) (ahead.last + 1)
        ahead.blobs.items },
}
