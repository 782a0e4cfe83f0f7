//! Reads blobs by their numbers.
ghost use Rattle.std.specs.Prelude.{Ok, Some};
ghost use Rattle.histories.specs.Stores.{arrivals};
ghost use Rattle.histories.specs.StoreCalls.{ArrivalSpec};
ghost use Rattle.home_places.specs.Seats.{StoreTurn};
ghost use Rattle.turn_store.specs.Ahead.{IsArrival};
ghost use Rattle.turn_store.specs.StoreSeats.{IsOfStore, store_sight, place_tells};

use super::jobs::{Count, FindNumber, FindNumbers};
use super::{StoreSeat, TurnStore};
use blobref::{Octets, Ref};
use edge_base::GetFault;
use pack_disk::Disk;
use std::sync::Wait;
use store_history::{check_all, check_arrival};

impl<D: Disk> TurnStore<D> {
    // Returns a blob that was read ahead. It takes a turn in which nothing is read.
    pub(super) fn tell_arrival<R: Wait>(
        &self,
        rt: &R,
        seat: &mut StoreSeat<D>,
        number: u64,
        blob: (Ref, Octets),
    ) -> Result<Option<(Ref, Octets)>, GetFault>
        requires own { IsOfStore D.Disk self.now seat.old }
        requires known { IsArrival (place_tells D.Disk self.now) (arrivals (store_sight seat.old).history) number blob }
        ensures own { IsOfStore D.Disk self.now seat.new }
        ensures turn { StoreTurn (λ before entry. ArrivalSpec (place_tells D.Disk self.now) number before result entry)
            (store_sight seat.old) (store_sight seat.new) }
    {
        self.take_turn(rt, seat, Count);
        Ok(Some(blob))
    }

    // Reads a blob, and no other.
    pub(super) fn read_arrival<R: Wait>(
        &self,
        rt: &R,
        seat: &mut StoreSeat<D>,
        number: u64,
    ) -> Result<Option<(Ref, Octets)>, GetFault>
        requires { IsOfStore D.Disk self.now seat.old }
        ensures own { IsOfStore D.Disk self.now seat.new }
        ensures turn { StoreTurn (λ before entry. ArrivalSpec (place_tells D.Disk self.now) number before result entry)
            (store_sight seat.old) (store_sight seat.new) }
    {
        let found = self.take_turn(rt, seat, FindNumber { number });
        check_arrival(found)
    }

    // Reads a blob and, ahead of the next requests, those of the numbers after it: at most so many together.
    pub(super) fn read_arrivals<R: Wait>(
        &self,
        rt: &R,
        seat: &mut StoreSeat<D>,
        number: u64,
        most: u64,
    ) -> Result<Option<(Ref, Octets)>, GetFault>
        requires { IsOfStore D.Disk self.now seat.old }
        ensures own { IsOfStore D.Disk self.now seat.new }
        ensures turn { StoreTurn (λ before entry. ArrivalSpec (place_tells D.Disk self.now) number before result entry)
            (store_sight seat.old) (store_sight seat.new) }
    {
        let job = FindNumbers {
            alloc: self.alloc,
            number,
            most,
        };
        match self.take_turn(rt, seat, job) {
            Ok(blobs) => {
                let (first, others) = check_all(blobs);
                seat.ahead.keep(number, others);
                first
            }
            Err(fault) => Err(fault),
        }
    }
}
