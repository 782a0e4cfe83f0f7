//! The jobs of one turn of the index.
use super::turns::IndexJob;
use blobref::{NoMemory, Ref, RefList};
use claim_verify::Verifier;
use edge_base::Inserted;
use index_history::WorkIndex;
use schema_fact::Fact;
use search_query::Query;

/// Takes the least waiting number in hand.
#[derive(Drop)]
pub struct Take {
    pub arrivals: u64,
}

impl<V: Verifier> IndexJob<V> for Take {
    ghost use Rattle.histories.specs.History.{events};
    ghost use Rattle.histories.specs.IndexCalls.{TakeSpec};
    ghost use Rattle.work_numbers.specs.Telling.{take_entry};

    type Out = Result<Option<u64>, NoMemory>;

    ghost says = { λ j accepts before result entry. TakeSpec j.arrivals (events before) result entry };

    ghost adds = { λ j result. take_entry result };

    fn go(self, index: &mut WorkIndex<V>) -> Result<Option<u64>, NoMemory> {
        index.take(self.arrivals)
    }
}

/// Inserts a number, with a valid fact under a ref.
#[derive(Drop)]
pub struct Insert<'a> {
    pub number: u64,
    pub r: &'a Ref,
    pub fact: Fact,
}

impl<'a, V: Verifier> IndexJob<V> for Insert<'a> {
    ghost use Rattle.schema_fact.specs.Validity.{IsValid};
    ghost use Rattle.histories.specs.History.{events};
    ghost use Rattle.histories.specs.IndexCalls.{InsertSpec};
    ghost use Rattle.work_numbers.specs.Telling.{insert_entry};

    type Out = Result<Inserted, NoMemory>;

    ghost may = { λ j. IsValid j.fact };

    ghost says = { λ j accepts before result entry. InsertSpec j.number j.r.now j.fact (events before) result entry };

    ghost adds = { λ j result. insert_entry j.number j.r.now j.fact result };

    fn go(self, index: &mut WorkIndex<V>) -> Result<Inserted, NoMemory> {
        index.insert(self.number, self.r, self.fact)
    }
}

/// Gives a number back. Returns whether it was in hand.
#[derive(Drop)]
pub struct GiveBack {
    pub number: u64,
}

impl<V: Verifier> IndexJob<V> for GiveBack {
    ghost use Rattle.histories.specs.History.{events};
    ghost use Rattle.histories.specs.IndexCalls.{ReturnSpec};
    ghost use Rattle.work_numbers.specs.Telling.{return_entry};

    type Out = bool;

    ghost says = { λ j accepts before result entry. ReturnSpec j.number (events before) entry };

    ghost adds = { λ j result. return_entry result j.number };

    fn go(self, index: &mut WorkIndex<V>) -> bool {
        index.give_back(self.number)
    }
}

/// Finds the least number that isn't inserted.
#[derive(Drop)]
pub struct Lacking {
    pub below: u64,
}

impl<V: Verifier> IndexJob<V> for Lacking {
    ghost use Rattle.std.specs.Prelude.{None};
    ghost use Rattle.histories.specs.History.{events};
    ghost use Rattle.histories.specs.IndexCalls.{LackingSpec};

    type Out = Option<u64>;

    ghost says = { λ j accepts before result entry. LackingSpec j.below (events before) result entry };

    ghost adds = { λ j result. None };

    fn go(self, index: &mut WorkIndex<V>) -> Option<u64> {
        index.lacking(self.below)
    }
}

/// Answers a query.
#[derive(Drop)]
pub struct Search<'a> {
    pub query: &'a Query,
}

impl<'a, V: Verifier> IndexJob<V> for Search<'a> {
    ghost use Rattle.std.specs.Prelude.{◌≡◌, None};
    ghost use Rattle.histories.specs.Indexes.{inserts};
    ghost use Rattle.home_places.specs.Searches.{SearchSpec};

    type Out = Result<RefList, NoMemory>;

    ghost says = { λ j accepts before result entry. SearchSpec accepts j.query.now (inserts before) result
        × (entry ≡ None) };

    ghost adds = { λ j result. None };

    fn go(self, index: &mut WorkIndex<V>) -> Result<RefList, NoMemory> {
        index.search(self.query)
    }
}
