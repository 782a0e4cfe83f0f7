//! The pass of a home of one actor.
ghost use Rattle.std.specs.Prelude.{◌≡◌, [], true, not, ◌||◌, Some, None, length, IfOk, IfErr, IsErr, Err, option_copied};
ghost use Rattle.home_core.specs.State.{IsSound};
ghost use Rattle.home_core.specs.Steps.{least_waiting};
ghost use Rattle.core_home.specs.Keeping.{IsKept, are_left, both_left};

use crate::indexing::{insert, settle};
use crate::reading::{fetch, list, stat};
use crate::storing::put;
use crate::turns::{Turns, last_of, starts, zeros};
use blobref::{Listing, NoMemory, Octets, Ref, RefList};
use claim_verify::Verifier;
use edge_base::{GetFault, Put, PutFault};
use home_core::Core;
use home_places::Indexed;
use search_query::Query;
use std::alloc::Global;

/// A core of its own, with the turns in which all that it holds came to it, the numbers of turns drawn, and whether the
/// pass is spent.
///
/// A pass counts its turns from 1 in numbers of 64 bits. Where fewer are left than a call draws, the call is refused
/// with `NoMemory`, the pass is spent, and nothing else changes. Nothing else spends it. No disk fails here, no blob is
/// damaged, and no store is full.
#[derive(Drop)]
pub struct CorePass<V> {
    pub alloc: Global,
    pub core: Core<V>,
    /// The turn in which each blob arrived.
    pub puts: Vec<u64>,
    /// The turns in which each indexed number was taken and inserted.
    pub inserts: Vec<Turns>,
    /// So many turns of the store were drawn.
    pub stores: u64,
    /// So many turns of the index were drawn.
    pub indexes: u64,
    pub spent: bool,
    pub ghost kept: { IsKept puts.items inserts.items core.state stores indexes },
}

impl<V: Verifier> CorePass<V> {
    ghost use Rattle.home_places.specs.Passes.{StoreCall, Settles, Searches, Counts};
    ghost use Rattle.home_places.specs.Working.{IndexesNext};
    ghost use Rattle.histories.specs.StoreCalls.{PutSpec, GetSpec, ListSpec, StatSpec};
    ghost use Rattle.core_home.specs.Sights.{sight_of};
    ghost use Rattle.core_home.specs.Keeping.{no_limits};
    ghost use Rattle.core_home.specs.Starts.{first_sight};
    ghost use Rattle.core_home.specs.Answers.{IsRefusal, after_upload, after_settle, after_next, lacking_count, next_turns};

    /// A pass over a core in whose hand there is nothing. What the core holds has turn 0: a Put for each blob, and an
    /// Insert for each indexed number, in order. After `NoMemory` the core is given back as it was.
    pub fn over(alloc: Global, core: Core<V>) -> Result<CorePass<V>, (Core<V>, NoMemory)>
        requires { core.state.hand ≡ [] }
        ensures core { IfOk result (λ pass. pass.core ≡ core) }
        ensures sight { IfOk result (λ pass. sight_of V.accepts pass ≡ first_sight (V.accepts core.keys) core.state) }
        ensures refused { IfErr result (λ refused. refused.0 ≡ core) }
    {
        core.each_is_sound();
        let Ok(puts) = zeros(alloc, core.blobs().len()) else {
            return Err((core, NoMemory));
        };
        let Ok(inserts) = starts(alloc, core.indexed().len()) else {
            return Err((core, NoMemory));
        };
        Ok(CorePass {
            alloc,
            core,
            puts,
            inserts,
            stores: 0,
            indexes: 0,
            spent: false,
        })
    }

    /// The core. The histories are given up.
    pub fn back(self) -> Core<V>
        ensures { result ≡ self.core }
    {
        self.core
    }

    /// Puts a blob under its ref, in one turn of the store. Where it is stored, that is a put of the core; else the
    /// core is as it was. Of the errors `TooBig`, `BadDigest` and `NoMemory` come. It looks through the refs.
    pub fn upload(&mut self, said: &Ref, bytes: &[u8]) -> Result<Put, PutFault>
        ensures turn { StoreCall (result ≡ Err PutFault.NoMemory)
            (λ before entry. PutSpec no_limits said.now bytes.now before result entry)
            (sight_of V.accepts self.old) (sight_of V.accepts self.new) }
        ensures core { self.new.core.state ≡ after_upload said.now bytes.now result self.old.core.state }
        ensures keys { self.new.core.keys ≡ self.old.core.keys }
        ensures fault { IfErr result IsRefusal }
        ensures spent { self.new.spent ≡ (self.old.spent || not (are_left 1 self.old.stores)) }
    {
        let Some(turn) = last_of(&mut self.spent, self.stores, 1) else {
            return Err(PutFault::NoMemory);
        };
        self.core.each_is_sound();
        let answer = put(
            self.alloc,
            &mut self.core,
            &mut self.puts,
            turn,
            said,
            bytes,
        );
        self.stores = turn;
        answer
    }

    /// The bytes of the blob under a ref, in one turn of the store. The only error is `NoMemory`. It looks through the
    /// blobs.
    pub fn fetch(&mut self, r: &Ref) -> Result<Option<Octets>, GetFault>
        ensures turn { StoreCall (result ≡ Err GetFault.NoMemory)
            (λ before entry. GetSpec true r.now before result entry)
            (sight_of V.accepts self.old) (sight_of V.accepts self.new) }
        ensures core { self.new.core ≡ self.old.core }
        ensures fault { IfErr result (λ fault. fault ≡ GetFault.NoMemory) }
        ensures spent { self.new.spent ≡ (self.old.spent || not (are_left 1 self.old.stores)) }
    {
        let Some(turn) = last_of(&mut self.spent, self.stores, 1) else {
            return Err(GetFault::NoMemory);
        };
        let answer = fetch(self.alloc, self.core.blobs(), r);
        self.stores = turn;
        answer
    }

    /// Those of the refs that arrived, with their sizes, in one turn of the store. It looks through the blobs for each
    /// ref.
    pub fn stat(&mut self, refs: &RefList) -> Result<Listing, NoMemory>
        ensures turn { StoreCall (IsErr result) (λ before entry. StatSpec refs.now before result entry)
            (sight_of V.accepts self.old) (sight_of V.accepts self.new) }
        ensures core { self.new.core ≡ self.old.core }
        ensures spent { self.new.spent ≡ (self.old.spent || not (are_left 1 self.old.stores)) }
    {
        let Some(turn) = last_of(&mut self.spent, self.stores, 1) else {
            return Err(NoMemory);
        };
        let answer = stat(self.alloc, self.core.blobs(), refs.as_slice());
        self.stores = turn;
        answer
    }

    /// A page of the refs with their sizes, in one turn of the store. It sorts all refs.
    pub fn list(&mut self, after: Option<&Ref>, limit: usize) -> Result<Listing, NoMemory>
        ensures turn { StoreCall (IsErr result)
            (λ before entry. ListSpec (option_copied after.entry) limit before result entry)
            (sight_of V.accepts self.old) (sight_of V.accepts self.new) }
        ensures core { self.new.core ≡ self.old.core }
        ensures spent { self.new.spent ≡ (self.old.spent || not (are_left 1 self.old.stores)) }
    {
        let Some(turn) = last_of(&mut self.spent, self.stores, 1) else {
            return Err(NoMemory);
        };
        self.core.each_is_sound();
        let answer = list(self.alloc, self.core.blobs(), after, limit);
        self.stores = turn;
        answer
    }

    /// Inserts every number that arrived and isn't indexed, each in a turn of the index of its own. That is a settle of
    /// the core, and none where no number lacks. The only error is `NoMemory`; then nothing was inserted. Where no
    /// number lacks it takes no time.
    pub fn settle(&mut self) -> Result<(), GetFault>
        ensures settled { Settles result (sight_of V.accepts self.old) (sight_of V.accepts self.new) }
        ensures core { self.new.core.state ≡ after_settle result self.old.core.state }
        ensures keys { self.new.core.keys ≡ self.old.core.keys }
        ensures fault { IfErr result (λ fault. fault ≡ GetFault.NoMemory) }
        ensures spent { self.new.spent
            ≡ (self.old.spent || not (are_left (lacking_count self.old.core.state) self.old.indexes)) }
    {
        self.core.each_is_sound();
        let count = self.lacking();
        let Some(last) = last_of(&mut self.spent, self.indexes, count) else {
            return Err(GetFault::NoMemory);
        };
        if settle(&mut self.core, &mut self.inserts, self.indexes, count).is_err() {
            return Err(GetFault::NoMemory);
        }
        self.indexes = last;
        Ok(())
    }

    // How many numbers arrived and aren't indexed.
    fn lacking(&self) -> u64
        requires { IsSound self.now.core.state }
        ensures { result ≡ lacking_count self.now.core.state }
    {
        self.core.blobs().len() as u64 - self.core.indexed().len() as u64
    }

    /// The answer to a query (`docs/search.md`) over all indexed facts. It draws no turn, and changes nothing.
    pub fn search(&self, query: &Query) -> Result<RefList, NoMemory>
        ensures { Searches query.now result (sight_of V.accepts self.now) (sight_of V.accepts self.now) }
    {
        self.core.each_is_sound();
        self.core.search(query)
    }

    /// One step of a worker. Where a number waits, the count and the read of its blob are two turns of the store, the
    /// take and the insert two of the index, and that is an insert of the core; else there are the count and the take
    /// alone, one turn of each. The only error is `NoMemory`, and after it nothing was taken.
    pub fn index_next(&mut self) -> Result<Indexed, GetFault>
        ensures indexes { IndexesNext true result (sight_of V.accepts self.old) (sight_of V.accepts self.new) }
        ensures core { self.new.core.state ≡ after_next result self.old.core.state }
        ensures keys { self.new.core.keys ≡ self.old.core.keys }
        ensures fault { IfErr result (λ fault. fault ≡ GetFault.NoMemory) }
        ensures spent { self.new.spent ≡ (self.old.spent
            || not (both_left (next_turns self.old.core.state) self.old.stores self.old.indexes)) }
    {
        let arrivals = self.core.blobs().len() as u64;
        match self.core.least_waiting(arrivals) {
            Some(number) => self.index(number),
            None => self.idle(arrivals),
        }
    }

    // Takes the number and inserts it.
    fn index(&mut self, number: u64) -> Result<Indexed, GetFault>
        requires { least_waiting (length self.old.core.state.store) self.old.core.state ≡ Some number }
        ensures indexes { IndexesNext true result (sight_of V.accepts self.old) (sight_of V.accepts self.new) }
        ensures core { self.new.core.state ≡ after_next result self.old.core.state }
        ensures keys { self.new.core.keys ≡ self.old.core.keys }
        ensures fault { IfErr result (λ fault. fault ≡ GetFault.NoMemory) }
        ensures spent { self.new.spent ≡ (self.old.spent || not (both_left 2 self.old.stores self.old.indexes)) }
    {
        self.core.each_is_sound();
        let Some(stores) = last_of(&mut self.spent, self.stores, 2) else {
            return Err(GetFault::NoMemory);
        };
        let Some(indexes) = last_of(&mut self.spent, self.indexes, 2) else {
            return Err(GetFault::NoMemory);
        };
        let taken = self.indexes + 1;
        if insert(&mut self.core, &mut self.inserts, taken, indexes, number).is_err() {
            // the count and the take that was refused
            self.stores += 1;
            self.indexes = taken;
            return Err(GetFault::NoMemory);
        }
        self.stores = stores;
        self.indexes = indexes;
        Ok(Indexed::New { number })
    }

    // No number waits.
    fn idle(&mut self, arrivals: u64) -> Result<Indexed, GetFault>
        requires arrivals { arrivals ≡ length self.old.core.state.store }
        requires none { least_waiting arrivals self.old.core.state ≡ None }
        ensures indexes { IndexesNext true result (sight_of V.accepts self.old) (sight_of V.accepts self.new) }
        ensures core { self.new.core.state ≡ after_next result self.old.core.state }
        ensures keys { self.new.core.keys ≡ self.old.core.keys }
        ensures fault { IfErr result (λ fault. fault ≡ GetFault.NoMemory) }
        ensures spent { self.new.spent ≡ (self.old.spent || not (both_left 1 self.old.stores self.old.indexes)) }
    {
        let Some(stores) = last_of(&mut self.spent, self.stores, 1) else {
            return Err(GetFault::NoMemory);
        };
        let Some(indexes) = last_of(&mut self.spent, self.indexes, 1) else {
            return Err(GetFault::NoMemory);
        };
        self.stores = stores;
        self.indexes = indexes;
        Ok(Indexed::Idle { arrivals })
    }

    /// How many blobs arrived, and how many Inserts are shown. It draws no turn.
    pub fn seen(&self) -> (u64, u64)
        ensures { Counts (sight_of V.accepts self.now) result }
    {
        (
            self.core.blobs().len() as u64,
            self.core.indexed().len() as u64,
        )
    }
}
