//! The home.
ghost use Rattle.std.specs.Prelude.{◌≡◌, ◌<◌, length};
ghost use Rattle.histories.specs.Stores.{arrivals};
ghost use Rattle.home_places.specs.Seats.{StoreJoin, IndexJoin};
ghost use Rattle.live_home.specs.Sights.{sight_at, IndexesOne};

use blobref::{Listing, NoMemory, Octets, Ref, RefList};
use edge_base::{GetFault, Inserted, Put, PutFault};
use home_places::{Home, IndexPlace, Indexed, StorePlace};
use schema_json::fact;
use search_query::Query;
use std::alloc::Global;
use std::sync::Wait;

/// A place of a store with a place of an index (`docs/core.md`). It keeps the allocator for the facts that it reads.
#[derive(Drop)]
pub struct LiveHome<S, I> {
    pub alloc: Global,
    pub store: S,
    pub index: I,
}

/// A seat of the store with a seat of the index. It belongs to a home to whose places the two belong.
#[derive(Drop)]
pub struct LivePass<A, B> {
    pub store: A,
    pub index: B,
}

impl<A, B> LivePass<A, B> {
    /// The pass of two seats.
    pub fn make(store: A, index: B) -> LivePass<A, B>
        ensures store { result.store ≡ store }
        ensures index { result.index ≡ index }
    {
        LivePass { store, index }
    }
}

impl<S: StorePlace, I: IndexPlace> LiveHome<S, I> {
    /// The home of two places.
    pub fn make(alloc: Global, store: S, index: I) -> LiveHome<S, I>
        ensures store { result.store ≡ store }
        ensures index { result.index ≡ index }
    {
        LiveHome {
            alloc,
            store,
            index,
        }
    }

    /// Ends the home and hands its two places back, which needn't be `Drop`.
    pub fn into_places(self) -> (S, I)
        ensures store { result.0 ≡ self.store }
        ensures index { result.1 ≡ self.index }
    {
        let LiveHome {
            alloc: _alloc,
            store,
            index,
        } = self;
        (store, index)
    }

    /// Joins a pass to another one: the seats of both places are joined.
    pub fn join<R: Wait>(
        &self,
        rt: &R,
        into: &mut LivePass<S::Seat, I::Seat>,
        other: LivePass<S::Seat, I::Seat>,
    )
        requires one { S.belongs self.now.store into.old.store × I.belongs self.now.index into.old.index }
        requires other { S.belongs self.now.store other.store × I.belongs self.now.index other.index }
        ensures own { S.belongs self.now.store into.new.store × I.belongs self.now.index into.new.index }
        ensures store { StoreJoin (S.sight into.old.store) (S.sight other.store) (S.sight into.new.store) }
        ensures index { IndexJoin (I.sight into.old.index) (I.sight other.index) (I.sight into.new.index) }
    {
        self.store.join(&mut into.store, other.store);
        self.index.join(rt, &mut into.index, other.index);
    }
}

impl<S: StorePlace, I: IndexPlace> Home for LiveHome<S, I> {
    ghost use Rattle.live_home.specs.Sights.{sight_at};

    type Pass = LivePass<S::Seat, I::Seat>;

    ghost belongs = { λ h p. S.belongs h.store p.store × I.belongs h.index p.index };

    ghost sight = { λ p. sight_at (S.sight p.store) (I.sight p.index) };

    ghost tells = { λ h. S.tells h.store };

    ghost is_legal = { λ p. record { store = S.is_legal p.store; index = I.is_legal p.index } };

    fn upload<R: Wait>(
        &self,
        rt: &R,
        pass: &mut LivePass<S::Seat, I::Seat>,
        said: &Ref,
        bytes: &[u8],
    ) -> Result<Put, PutFault> {
        self.store.put(rt, &mut pass.store, said, bytes)
    }

    fn fetch<R: Wait>(
        &self,
        rt: &R,
        pass: &mut LivePass<S::Seat, I::Seat>,
        r: &Ref,
    ) -> Result<Option<Octets>, GetFault> {
        self.store.get(rt, &mut pass.store, r)
    }

    fn stat<R: Wait>(
        &self,
        rt: &R,
        pass: &mut LivePass<S::Seat, I::Seat>,
        refs: &RefList,
    ) -> Result<Listing, NoMemory> {
        self.store.stat(rt, &mut pass.store, refs)
    }

    fn list<R: Wait>(
        &self,
        rt: &R,
        pass: &mut LivePass<S::Seat, I::Seat>,
        after: Option<&Ref>,
        limit: usize,
    ) -> Result<Listing, NoMemory> {
        self.store.list(rt, &mut pass.store, after, limit)
    }

    fn settle<R: Wait>(
        &self,
        rt: &R,
        pass: &mut LivePass<S::Seat, I::Seat>,
    ) -> Result<(), GetFault> {
        let below = self.store.seen(&pass.store);
        'numbers: for _ in 0..below {
            let Some(number) = self.index.lacking(rt, &mut pass.index, below) else {
                return Ok(());
            };
            match index_one(rt, self, pass, number) {
                Ok(_) => {}
                Err(fault) => return Err(fault),
            }
        }
        Ok(())
    }

    fn search(
        &self,
        pass: &mut LivePass<S::Seat, I::Seat>,
        query: &Query,
    ) -> Result<RefList, NoMemory> {
        self.index.search(&mut pass.index, query)
    }

    fn index_next<R: Wait>(
        &self,
        rt: &R,
        pass: &mut LivePass<S::Seat, I::Seat>,
    ) -> Result<Indexed, GetFault> {
        let arrivals = self.store.count(rt, &mut pass.store);
        match self.index.take(rt, &mut pass.index, arrivals) {
            Err(_) => Err(GetFault::NoMemory),
            Ok(None) => Ok(Indexed::Idle { arrivals }),
            Ok(Some(number)) => match index_one(rt, self, pass, number) {
                Ok(Inserted::New) => Ok(Indexed::New { number }),
                Ok(Inserted::Already) => Ok(Indexed::Already { number }),
                Err(fault) => {
                    self.index.give_back(rt, &mut pass.index, number);
                    Err(fault)
                }
            },
        }
    }

    fn seen(&self, pass: &LivePass<S::Seat, I::Seat>) -> (u64, u64) {
        (self.store.seen(&pass.store), self.index.seen(&pass.index))
    }
}

// Reads the blob of a number that the pass has seen arrive, and inserts its fact.
fn index_one<S: StorePlace, I: IndexPlace, R: Wait>(
    rt: &R,
    home: &LiveHome<S, I>,
    pass: &mut LivePass<S::Seat, I::Seat>,
    number: u64,
) -> Result<Inserted, GetFault>
    requires own { S.belongs home.now.store pass.old.store × I.belongs home.now.index pass.old.index }
    requires seen { number < length (arrivals (S.sight pass.old.store).history) }
    ensures own { S.belongs home.now.store pass.new.store × I.belongs home.now.index pass.new.index }
    ensures indexes { IndexesOne (S.tells home.now.store) number result
        (sight_at (S.sight pass.old.store) (I.sight pass.old.index))
        (sight_at (S.sight pass.new.store) (I.sight pass.new.index)) }
{
    match home.store.arrival(rt, &mut pass.store, number) {
        Err(fault) => Err(fault),
        Ok(None) => unreachable!(),
        Ok(Some(found)) => {
            let Ok(said) = fact(home.alloc, found.1.as_slice()) else {
                return Err(GetFault::NoMemory);
            };
            match home
                .index
                .insert(rt, &mut pass.index, number, &found.0, said)
            {
                Ok(answer) => Ok(answer),
                Err(_) => Err(GetFault::NoMemory),
            }
        }
    }
}
