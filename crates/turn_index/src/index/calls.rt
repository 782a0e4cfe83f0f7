//! The calls of the place.
ghost use Rattle.std.specs.Prelude.{◌≡◌, ◌++◌, length};
ghost use Rattle.schema_fact.specs.Validity.{IsValid};
ghost use Rattle.histories.specs.History.{IsLonger};
ghost use Rattle.histories.specs.IndexCalls.{TakeSpec, InsertSpec, ReturnSpec, LackingSpec};
ghost use Rattle.home_places.specs.Seats.{IndexTurn, IndexJoin};
ghost use Rattle.turn_index.specs.IndexSeats.{IsOfIndex, index_sight, SearchTurn};

use super::jobs::{GiveBack, Insert, Lacking, Search, Take};
use super::{IndexSeat, TurnIndex};
use blobref::{NoMemory, Ref, RefList};
use claim_verify::Verifier;
use edge_base::Inserted;
use schema_fact::Fact;
use search_query::Query;
use std::sync::Wait;

/// Each call with `rt` takes one turn. It answers over the entries before that turn, and adds at most one entry to the
/// history of the index, under that turn.
impl<V: Verifier> TurnIndex<V> {
    /// Takes in hand the least number below `arrivals` that is neither inserted nor in hand; `None` exactly if
    /// there is none. After `NoMemory` nothing was taken.
    pub fn take<R: Wait>(
        &self,
        rt: &R,
        seat: &mut IndexSeat<V>,
        arrivals: u64,
    ) -> Result<Option<u64>, NoMemory>
        requires { IsOfIndex self.now seat.old }
        ensures own { IsOfIndex self.now seat.new }
        ensures turn { IndexTurn (λ before entry. TakeSpec arrivals before result entry)
            (index_sight V.accepts seat.old) (index_sight V.accepts seat.new) }
    {
        self.take_turn(rt, seat, Take { arrivals })
    }

    /// Inserts the fact of the blob of a number, which is then no longer in hand. `Already` comes exactly if the number
    /// was inserted before, even with another ref or fact. After `NoMemory` nothing was inserted. The fact must be
    /// valid; those of `schema_json::fact` are.
    pub fn insert<R: Wait>(
        &self,
        rt: &R,
        seat: &mut IndexSeat<V>,
        number: u64,
        r: &Ref,
        fact: Fact,
    ) -> Result<Inserted, NoMemory>
        requires own { IsOfIndex self.now seat.old }
        requires valid { IsValid fact }
        ensures own { IsOfIndex self.now seat.new }
        ensures turn { IndexTurn (λ before entry. InsertSpec number r.now fact before result entry)
            (index_sight V.accepts seat.old) (index_sight V.accepts seat.new) }
    {
        self.take_turn(rt, seat, Insert { number, r, fact })
    }

    /// Gives a number back, so that it can be taken again. Nothing happens if it isn't in hand.
    pub fn give_back<R: Wait>(&self, rt: &R, seat: &mut IndexSeat<V>, number: u64)
        requires { IsOfIndex self.now seat.old }
        ensures own { IsOfIndex self.now seat.new }
        ensures turn { IndexTurn (λ before entry. ReturnSpec number before entry)
            (index_sight V.accepts seat.old) (index_sight V.accepts seat.new) }
    {
        self.take_turn(rt, seat, GiveBack { number });
    }

    /// The least number below `below` that isn't inserted, in hand or not; `None` exactly if there is none.
    pub fn lacking<R: Wait>(&self, rt: &R, seat: &mut IndexSeat<V>, below: u64) -> Option<u64>
        requires { IsOfIndex self.now seat.old }
        ensures own { IsOfIndex self.now seat.new }
        ensures turn { IndexTurn (λ before entry. LackingSpec below before result entry)
            (index_sight V.accepts seat.old) (index_sight V.accepts seat.new) }
    {
        self.take_turn(rt, seat, Lacking { below })
    }

    /// The answer to a query (`docs/search.md`) over the Inserts before its turn, which are then shown to the seat.
    /// `NoMemory` comes only if no memory is left. All others wait until its turn ends.
    pub fn search<R: Wait>(
        &self,
        rt: &R,
        seat: &mut IndexSeat<V>,
        query: &Query,
    ) -> Result<RefList, NoMemory>
        requires { IsOfIndex self.now seat.old }
        ensures own { IsOfIndex self.now seat.new }
        ensures search { SearchTurn query.now result (index_sight V.accepts seat.old) (index_sight V.accepts seat.new) }
    {
        self.take_turn(rt, seat, Search { query })
    }

    /// How many Inserts are shown to the seat. It takes no turn and no memory.
    pub fn seen(&self, seat: &IndexSeat<V>) -> u64
        ensures { result ≡ length (index_sight V.accepts seat.now).shown }
    {
        seat.count
    }

    /// Joins a seat to another one, which then has seen the longer of their histories and has the turns of both. It
    /// takes no turn and doesn't wait.
    pub fn join(&self, into: &mut IndexSeat<V>, other: IndexSeat<V>)
        requires one { IsOfIndex self.now into.old }
        requires other { IsOfIndex self.now other }
        ensures own { IsOfIndex self.now into.new }
        ensures join { IndexJoin (index_sight V.accepts into.old) (index_sight V.accepts other)
            (index_sight V.accepts into.new) }
        ensures longer { IsLonger (index_sight V.accepts into.old).history (index_sight V.accepts other).history
            (index_sight V.accepts into.new).history }
        ensures turns { (index_sight V.accepts into.new).turns
            ≡ (index_sight V.accepts into.old).turns ++ (index_sight V.accepts other).turns }
    {
        let IndexSeat { seat, count } = other;
        self.turn.join(&mut into.seat, seat);
        into.count = into.count.max(count);
    }
}
