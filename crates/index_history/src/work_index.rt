//! The index.
ghost use Rattle.std.specs.Prelude.{◌≡◌, ◌++◌, ℕ, [], List, length, false, None};
ghost use Rattle.std.specs.FinMap.{contains_key};
ghost use Rattle.schema_fact.specs.Validity.{IsValid};
ghost use Rattle.histories.specs.declared.stamped.Stamped.{Stamped};
ghost use Rattle.histories.specs.declared.events.IndexEvent.{IndexEvent};
ghost use Rattle.histories.specs.History.{events, stamped};
ghost use Rattle.histories.specs.Indexes.{inserts};
ghost use Rattle.histories.specs.IndexCalls.{TakeSpec, InsertSpec, ReturnSpec, LackingSpec};
ghost use Rattle.home_places.specs.Searches.{SearchSpec};
ghost use Rattle.work_numbers.specs.Telling.{take_entry, insert_entry, return_entry};
ghost use Rattle.index_history.specs.Represents.{IndexRepresents};

use crate::uncounted::add;
use blobref::{NoMemory, Ref, RefList};
use claim_index::{Index, Made};
use claim_verify::Verifier;
use edge_base::Inserted;
use schema_fact::Fact;
use search_eval::answer_of;
use search_query::Query;
use std::alloc::Global;
use work_numbers::WorkNumbers;

// An index never has so many facts.
const MAX_FACTS: u64 = 1 << 60;

/// An index of facts, with the numbers that were inserted and those in hand: the value for which a lock gives out
/// turns. For each history that the index may represent (`IndexRepresents`), a contract says what the call returns over
/// it, and that afterwards the index represents it with the call's entry.
#[derive(Drop)]
pub struct WorkIndex<V: Verifier> {
    alloc: Global,
    /// The facts, each under the first number that came with its ref.
    pub index: Index<V>,
    /// The numbers.
    pub work: WorkNumbers,
}

impl<V: Verifier> WorkIndex<V> {
    /// An index of no facts, in which no number was inserted or is in hand. It keeps the allocator, and takes all its
    /// memory from it.
    pub fn fresh(alloc: Global, keys: V) -> WorkIndex<V>
    where
        V: Drop,
        ensures kept { IndexRepresents result [] }
        ensures keys { result.index.keys ≡ keys }
    {
        WorkIndex {
            alloc,
            index: Index::fresh(alloc, keys),
            work: WorkNumbers::fresh(alloc),
        }
    }

    /// Takes a number in hand, as `WorkNumbers::take` does.
    pub fn take(&mut self, arrivals: u64) -> Result<Option<u64>, NoMemory>
        ensures kept { (h : List (Stamped IndexEvent)) (turn : ℕ) → IndexRepresents self.old h
            → IndexRepresents self.new (h ++ stamped turn (take_entry result)) }
        ensures says { (h : List (Stamped IndexEvent)) → IndexRepresents self.old h
            → TakeSpec arrivals (events h) result (take_entry result) }
        ensures keys { self.new.index.keys ≡ self.old.index.keys }
    {
        self.work.take(arrivals)
    }

    /// Inserts a number, with a fact under a ref. `Already` comes exactly if the number was inserted; then nothing
    /// changes. Otherwise it is no longer in hand, and if the ref has a fact, that fact is kept.
    ///
    /// `NoMemory` comes only if no memory is left, or the index has 2^60 facts, and then nothing changes. All memory
    /// without which the call fails is taken before the index changes. If its tables need more memory than there is,
    /// searches walk over all facts until an insert finds enough (`Index::place`).
    ///
    /// It costs what `Index::place` does, and a few look-ups.
    pub fn insert(&mut self, number: u64, r: &Ref, fact: Fact) -> Result<Inserted, NoMemory>
        requires valid { IsValid fact }
        ensures kept { (h : List (Stamped IndexEvent)) (turn : ℕ) → IndexRepresents self.old h
            → IndexRepresents self.new (h ++ stamped turn (insert_entry number r.now fact result)) }
        ensures says { (h : List (Stamped IndexEvent)) → IndexRepresents self.old h
            → InsertSpec number r.now fact (events h) result (insert_entry number r.now fact result) }
        ensures keys { self.new.index.keys ≡ self.old.index.keys }
    {
        if self.work.has(number) {
            drop(fact);
            return Ok(Inserted::Already);
        }
        let made = Made::make(self.alloc, number, r, fact)?;
        self.insert_made(made)
    }

    /// Gives a number back, and returns whether it was in hand. If it wasn't, nothing changes. It takes no memory.
    pub fn give_back(&mut self, number: u64) -> bool
        ensures kept { (h : List (Stamped IndexEvent)) (turn : ℕ) → IndexRepresents self.old h
            → IndexRepresents self.new (h ++ stamped turn (return_entry result number)) }
        ensures says { (h : List (Stamped IndexEvent)) → IndexRepresents self.old h
            → ReturnSpec number (events h) (return_entry result number) }
        ensures keys { self.new.index.keys ≡ self.old.index.keys }
    {
        self.work.give_back(number)
    }

    /// The least number below a bound that isn't inserted, in hand or not; `None` exactly if each is. It takes the
    /// time of `WorkNumbers::lacking`.
    pub fn lacking(&mut self, below: u64) -> Option<u64>
        ensures kept { (h : List (Stamped IndexEvent)) (turn : ℕ) → IndexRepresents self.old h
            → IndexRepresents self.new (h ++ stamped turn None) }
        ensures says { (h : List (Stamped IndexEvent)) → IndexRepresents self.old h
            → LackingSpec below (events h) result None }
        ensures keys { self.new.index.keys ≡ self.old.index.keys }
    {
        self.work.lacking(below)
    }

    /// How many numbers were inserted. It takes no time.
    pub fn len(&self) -> u64
        ensures { (h : List (Stamped IndexEvent)) → IndexRepresents self.now h → result ≡ length (inserts h) }
    {
        self.work.len()
    }

    /// The refs that answer a query (`docs/search.md`), over exactly the facts inserted. `NoMemory` comes only if no
    /// memory is left. It costs what `search_eval::answer` does.
    pub fn search(&self, query: &Query) -> Result<RefList, NoMemory>
        ensures { (h : List (Stamped IndexEvent)) → IndexRepresents self.now h
            → SearchSpec (V.accepts self.now.index.keys) query.now (inserts h) result }
    {
        answer_of(self.alloc, &self.index, query)
    }

    // Inserts a number that isn't inserted, with a fact whose memory was taken before.
    fn insert_made(&mut self, made: Made) -> Result<Inserted, NoMemory>
        requires valid { IsValid made.2 }
        requires fresh { contains_key self.old.work.numbers made.0 ≡ false }
        ensures kept { (h : List (Stamped IndexEvent)) (turn : ℕ) → IndexRepresents self.old h
            → IndexRepresents self.new (h ++ stamped turn (insert_entry made.0 made.1 made.2 result)) }
        ensures says { (h : List (Stamped IndexEvent)) → IndexRepresents self.old h
            → InsertSpec made.0 made.1 made.2 (events h) result (insert_entry made.0 made.1 made.2 result) }
        ensures keys { self.new.index.keys ≡ self.old.index.keys }
    {
        if self.index.len() >= MAX_FACTS {
            return Err(NoMemory);
        }
        self.work.note(made.number())?;
        add(&mut self.index, made);
        Ok(Inserted::New)
    }
}
