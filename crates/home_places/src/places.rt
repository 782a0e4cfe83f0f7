//! Places: a store and an index, each shared by seats.
ghost use Rattle.std.specs.Prelude.{◌≡◌, Bool, length, option_copied};
ghost use Rattle.schema_fact.specs.Validity.{IsValid};
ghost use Rattle.histories.specs.Stores.{arrivals};
ghost use Rattle.histories.specs.StoreCalls.{PutSpec, GetSpec, ListSpec, ArrivalSpec, CountSpec, StatSpec};
ghost use Rattle.histories.specs.IndexCalls.{TakeSpec, InsertSpec, ReturnSpec, LackingSpec};
ghost use Rattle.home_places.specs.Seats.{StoreSight, StoreTurn, StoreJoin, IsStoreSight};
ghost use Rattle.home_places.specs.Seats.{IndexSight, IndexTurn, IndexJoin, IsIndexSight};
ghost use Rattle.home_places.specs.Searches.{IndexSearch};

use blobref::{Listing, NoMemory, Octets, Ref, RefList};
use edge_base::{GetFault, Inserted, Put, PutFault};
use schema_fact::Fact;
use search_query::Query;
use std::sync::Wait;

/// A store that several seats share (`docs/core.md`). Each call with `rt` takes one turn, in which it answers over the
/// blobs that arrived before it; it adds at most one entry to the history of the store, under that turn.
pub trait StorePlace {
    /// What one actor holds of the place.
    type Seat;

    /// The seat is one of this place's. No call changes that.
    ghost belongs: { Self → Self.Seat → Type 0 };

    /// What the seat has seen and drawn.
    ghost sight: { Self.Seat → StoreSight };

    /// Whether the place tells the bytes of its blobs. No call changes that.
    ghost tells: { Self → Bool };

    /// Puts a blob under its ref. `TooBig`, `BadDigest` and `Already` come exactly where `put_settled` says so, in
    /// this order. Else it is `Full` where as many blobs arrived as there may be; below that it is so only where its
    /// pack is the last one. `Full` and `Disk` come only with the entry of this turn that tells the same. After an
    /// error nothing arrived.
    fn put<R: Wait>(
        &self,
        rt: &R,
        seat: &mut Self::Seat,
        said: &Ref,
        bytes: &[u8],
    ) -> Result<Put, PutFault>
        requires { belongs self.now seat.old }
        ensures own { belongs self.now seat.new }
        ensures turn { StoreTurn
            (λ before entry. PutSpec (sight seat.old).limits said.now bytes.now before result entry)
            (sight seat.old) (sight seat.new) };

    /// The bytes of the blob under a ref, and `None` exactly where none arrived. `Disk` and `Damaged` come only with
    /// the entry of this turn that tells the same; where the place tells its bytes there is no `Damaged`, and the
    /// bytes are those that were put.
    fn get<R: Wait>(
        &self,
        rt: &R,
        seat: &mut Self::Seat,
        r: &Ref,
    ) -> Result<Option<Octets>, GetFault>
        requires { belongs self.now seat.old }
        ensures own { belongs self.now seat.new }
        ensures turn { StoreTurn (λ before entry. GetSpec (tells self.now) r.now before result entry)
            (sight seat.old) (sight seat.new) };

    /// The blob of a number, counted from 0, and `None` exactly where no more than that many arrived. Its errors are
    /// those of `get`.
    fn arrival<R: Wait>(
        &self,
        rt: &R,
        seat: &mut Self::Seat,
        number: u64,
    ) -> Result<Option<(Ref, Octets)>, GetFault>
        requires { belongs self.now seat.old }
        ensures own { belongs self.now seat.new }
        ensures turn { StoreTurn (λ before entry. ArrivalSpec (tells self.now) number before result entry)
            (sight seat.old) (sight seat.new) };

    /// The refs greater than `after`, or of all where it is `None`: the first `limit` of them, ascending, each with
    /// the size of its blob in bytes.
    fn list<R: Wait>(
        &self,
        rt: &R,
        seat: &mut Self::Seat,
        after: Option<&Ref>,
        limit: usize,
    ) -> Result<Listing, NoMemory>
        requires { belongs self.now seat.old }
        ensures own { belongs self.now seat.new }
        ensures turn { StoreTurn (λ before entry. ListSpec (option_copied after.entry) limit before result entry)
            (sight seat.old) (sight seat.new) };

    /// Those of the refs under which a blob arrived, in their order, each once, with the size of its blob in bytes.
    fn stat<R: Wait>(
        &self,
        rt: &R,
        seat: &mut Self::Seat,
        refs: &RefList,
    ) -> Result<Listing, NoMemory>
        requires { belongs self.now seat.old }
        ensures own { belongs self.now seat.new }
        ensures turn { StoreTurn (λ before entry. StatSpec refs.now before result entry)
            (sight seat.old) (sight seat.new) };

    /// How many blobs arrived.
    fn count<R: Wait>(&self, rt: &R, seat: &mut Self::Seat) -> u64
        requires { belongs self.now seat.old }
        ensures own { belongs self.now seat.new }
        ensures turn { StoreTurn (λ before entry. CountSpec before result entry) (sight seat.old) (sight seat.new) };

    /// How many blobs arrived in the history that the seat has seen. It takes no turn and no memory.
    fn seen(&self, seat: &Self::Seat) -> u64
        ensures { result ≡ length (arrivals (sight seat.now).history) };

    /// Joins a seat to another one, which then has seen the longer of their histories and has the turns of both. It
    /// takes no turn.
    fn join(&self, into: &mut Self::Seat, other: Self::Seat)
        requires one { belongs self.now into.old }
        requires other { belongs self.now other }
        ensures own { belongs self.now into.new }
        ensures join { StoreJoin (sight into.old) (sight other) (sight into.new) };

    /// What a seat has seen is legal, and its turns rise.
    ghost is_legal: { (seat : Self.Seat) → IsStoreSight (sight seat) };
}

/// An index that several seats share (`docs/core.md`). Each call with `rt` takes one turn, in which it answers over the
/// entries before it, and adds at most one entry to the history of the index, under that turn; `join` takes any number
/// of turns and adds nothing. `search` waits for nobody.
///
/// A seat is shown the Inserts of its history, and may be shown further ones.
pub trait IndexPlace {
    /// What one actor holds of the place.
    type Seat;

    /// The seat is one of this place's. No call changes that.
    ghost belongs: { Self → Self.Seat → Type 0 };

    /// What the seat has seen and drawn, what is shown to it, and what the keys accept.
    ghost sight: { Self.Seat → IndexSight };

    /// Takes in hand the least number below `arrivals` that is neither inserted nor in hand, and `None` exactly where
    /// there is none. After `NoMemory` nothing was taken.
    fn take<R: Wait>(
        &self,
        rt: &R,
        seat: &mut Self::Seat,
        arrivals: u64,
    ) -> Result<Option<u64>, NoMemory>
        requires { belongs self.now seat.old }
        ensures own { belongs self.now seat.new }
        ensures turn { IndexTurn (λ before entry. TakeSpec arrivals before result entry)
            (sight seat.old) (sight seat.new) };

    /// Inserts the fact of the blob of a number, which then is no longer in hand. `Already` comes exactly where the
    /// number was inserted before, also with another ref or fact. After `NoMemory` nothing was inserted. The fact is
    /// valid, as `schema_json::fact` gives it.
    fn insert<R: Wait>(
        &self,
        rt: &R,
        seat: &mut Self::Seat,
        number: u64,
        r: &Ref,
        fact: Fact,
    ) -> Result<Inserted, NoMemory>
        requires own { belongs self.now seat.old }
        requires valid { IsValid fact }
        ensures own { belongs self.now seat.new }
        ensures turn { IndexTurn (λ before entry. InsertSpec number r.now fact before result entry)
            (sight seat.old) (sight seat.new) };

    /// Gives a number back, so that it can be taken again. Nothing happens where it isn't in hand.
    fn give_back<R: Wait>(&self, rt: &R, seat: &mut Self::Seat, number: u64)
        requires { belongs self.now seat.old }
        ensures own { belongs self.now seat.new }
        ensures turn { IndexTurn (λ before entry. ReturnSpec number before entry)
            (sight seat.old) (sight seat.new) };

    /// The least number below `below` that isn't inserted, in hand or not, and `None` exactly where there is none.
    fn lacking<R: Wait>(&self, rt: &R, seat: &mut Self::Seat, below: u64) -> Option<u64>
        requires { belongs self.now seat.old }
        ensures own { belongs self.now seat.new }
        ensures turn { IndexTurn (λ before entry. LackingSpec below before result entry)
            (sight seat.old) (sight seat.new) };

    /// The answer to a query (`docs/search.md`) over the Inserts that are then shown to the seat. `NoMemory` comes only
    /// where no memory is left.
    fn search(&self, seat: &mut Self::Seat, query: &Query) -> Result<RefList, NoMemory>
        requires { belongs self.now seat.old }
        ensures own { belongs self.now seat.new }
        ensures search { IndexSearch query.now result (sight seat.old) (sight seat.new) };

    /// How many Inserts are shown to the seat. It takes no turn and no memory.
    fn seen(&self, seat: &Self::Seat) -> u64
        ensures { result ≡ length (sight seat.now).shown };

    /// Joins a seat to another one, which then has seen a history that begins with the longer one of theirs, and has
    /// the turns of both. It may take turns.
    fn join<R: Wait>(&self, rt: &R, into: &mut Self::Seat, other: Self::Seat)
        requires one { belongs self.now into.old }
        requires other { belongs self.now other }
        ensures own { belongs self.now into.new }
        ensures join { IndexJoin (sight into.old) (sight other) (sight into.new) };

    /// What a seat has seen and been shown is legal, its turns rise, and it is shown the Inserts of its history.
    ghost is_legal: { (seat : Self.Seat) → IsIndexSight (sight seat) };
}
