//! Makes the place and its seats.
ghost use Rattle.std.specs.Prelude.{◌≡◌, [], map, IfOk, IfErr};
ghost use Rattle.histories.specs.History.{stamp};
ghost use Rattle.store_history.specs.Represents.{is_told, limits_of};
ghost use Rattle.store_history.specs.Beginning.{begins};
ghost use Rattle.turn_store.specs.StoreAbout.{about_of};
ghost use Rattle.turn_store.specs.StoreSeats.{IsOfStore, store_sight, place_about, place_limits, place_tells};

use super::ahead::Ahead;
use super::{KeptStore, StoreSeat, TurnStore};
use blobref::NoMemory;
use pack_disk::Disk;
use pack_store::Store;
use std::alloc::Global;
use store_history::{count, represents_beginning};
use turn_cell::Turn;

impl<D: Disk> TurnStore<D> {
    /// Puts a store into a lock, and returns its first seat. The seat has seen the blobs of the store arrive, in turn
    /// 0, and drew no turn. Each fault that a seat will see has a greater count than the disk has now. After `NoMemory`
    /// the store is given back unchanged.
    pub fn make(
        alloc: Global,
        store: Store<D>,
    ) -> Result<(TurnStore<D>, StoreSeat<D>), (Store<D>, NoMemory)>
        ensures own { IfOk result (λ r. IsOfStore D.Disk r.0 r.1) }
        ensures tells { IfOk result (λ r. place_tells D.Disk r.0 ≡ is_told D.Disk store) }
        ensures about { IfOk result (λ r. place_about D.Disk r.0 ≡ about_of D.Disk (D.faults store.disk) store) }
        ensures limits { IfOk result (λ r. place_limits r.0 ≡ store.limits) }
        ensures seat { IfOk result (λ r. store_sight r.1 ≡ record {
          history = map (stamp 0) (begins D.Disk store);
          turns = [];
          limits = limits_of store;
        }) }
        ensures given_back { IfErr result (λ e. e.0 ≡ store) }
    {
        represents_beginning(&store);
        let count = count(&store);
        let made = store.faults();
        let kept = KeptStore {
            store,
            made,
            before: made,
        };
        match Turn::make(alloc, kept) {
            Ok((turn, seat)) => {
                let ahead = Ahead::nothing(alloc);
                Ok((TurnStore { alloc, turn }, StoreSeat { seat, count, ahead }))
            }
            Err((kept, NoMemory)) => Err((kept.store, NoMemory)),
        }
    }

    /// A second seat, which has seen the same, drew no turn and read nothing ahead. It takes no turn and no memory.
    pub fn split(&self, seat: &mut StoreSeat<D>) -> StoreSeat<D>
        requires { IsOfStore D.Disk self.now seat.old }
        ensures own { IsOfStore D.Disk self.now seat.new }
        ensures same { store_sight seat.new ≡ store_sight seat.old }
        ensures own_second { IsOfStore D.Disk self.now result }
        ensures second { store_sight result ≡ record (store_sight seat.old) { turns = [] } }
    {
        StoreSeat {
            seat: self.turn.split(&mut seat.seat).unwrap(),
            count: seat.count,
            ahead: Ahead::nothing(self.alloc),
        }
    }
}
