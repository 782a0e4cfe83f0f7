//! The calls of the place of a store.
ghost use Rattle.std.specs.Prelude.{◌≡◌, Err, IfSome, None};
ghost use Rattle.blobref.specs.Blobref.{IsOwnRef};
ghost use Rattle.histories.specs.StoreCalls.{put_settled};

use super::jobs::{Count, Find, Page, PutOwn, Sizes};
use super::{StoreSeat, TurnStore};
use blobref::{Listing, NoMemory, Octets, Ref, RefList};
use edge_base::{GetFault, Put, PutFault};
use home_places::StorePlace;
use pack_disk::Disk;
use pack_format::put_refusal;
use std::sync::Wait;
use store_history::{check, once};

impl<D: Disk> StorePlace for TurnStore<D> {
    ghost use Rattle.turn_store.specs.StoreSeats.{IsOfStore, store_sight, place_tells};
    ghost use Rattle.turn_store.specs.Legal.{store_seat_legal};

    type Seat = StoreSeat<D>;

    ghost belongs = { λ p s. IsOfStore D.Disk p s };

    ghost sight = { λ s. store_sight s };

    ghost tells = { λ p. place_tells D.Disk p };

    ghost is_legal = { λ s. store_seat_legal s };

    /// The digest is taken before the turn.
    fn put<R: Wait>(
        &self,
        rt: &R,
        seat: &mut StoreSeat<D>,
        said: &Ref,
        bytes: &[u8],
    ) -> Result<Put, PutFault> {
        match put_refusal(said, bytes) {
            Some(fault) => {
                self.take_turn(rt, seat, Count);
                Err(fault)
            }
            None => self.take_turn(rt, seat, PutOwn { r: said, bytes }),
        }
    }

    /// The digest is taken after the turn.
    fn get<R: Wait>(
        &self,
        rt: &R,
        seat: &mut StoreSeat<D>,
        r: &Ref,
    ) -> Result<Option<Octets>, GetFault> {
        let found = self.take_turn(rt, seat, Find { r });
        check(found)
    }

    /// The digest is taken after the turn. If consecutive numbers are requested, the seat reads some of the next blobs
    /// ahead, in the same turn, and takes the digests of all together. It returns these when they are requested, each
    /// in a turn in which nothing is read.
    fn arrival<R: Wait>(
        &self,
        rt: &R,
        seat: &mut StoreSeat<D>,
        number: u64,
    ) -> Result<Option<(Ref, Octets)>, GetFault> {
        match seat.ahead.take(number) {
            Some(blob) => self.tell_arrival(rt, seat, number, blob),
            None if seat.ahead.width > 1 => {
                self.read_arrivals(rt, seat, number, seat.ahead.width)
            }
            None => self.read_arrival(rt, seat, number),
        }
    }

    fn list<R: Wait>(
        &self,
        rt: &R,
        seat: &mut StoreSeat<D>,
        after: Option<&Ref>,
        limit: usize,
    ) -> Result<Listing, NoMemory> {
        self.take_turn(rt, seat, Page { after, limit })
    }

    /// Repeats are left out before the turn.
    fn stat<R: Wait>(
        &self,
        rt: &R,
        seat: &mut StoreSeat<D>,
        refs: &RefList,
    ) -> Result<Listing, NoMemory> {
        let Ok(once) = once(self.alloc, refs) else {
            self.take_turn(rt, seat, Count);
            return Err(NoMemory);
        };
        self.take_turn(
            rt,
            seat,
            Sizes {
                alloc: self.alloc,
                once: &once,
            },
        )
    }

    fn count<R: Wait>(&self, rt: &R, seat: &mut StoreSeat<D>) -> u64 {
        self.take_turn(rt, seat, Count)
    }

    fn seen(&self, seat: &StoreSeat<D>) -> u64 {
        seat.count
    }

    fn join(&self, into: &mut StoreSeat<D>, other: StoreSeat<D>) {
        let StoreSeat {
            seat,
            count,
            ahead: _,
        } = other;
        self.turn.join(&mut into.seat, seat);
        into.count = into.count.max(count);
    }
}
