//! Homes: a store with its index.
ghost use Rattle.std.specs.Prelude.{◌≡◌, Bool, Err, IsErr, option_copied};
ghost use Rattle.histories.specs.StoreCalls.{PutSpec, GetSpec, ListSpec, StatSpec};
ghost use Rattle.home_places.specs.Passes.{Sight, StoreCall, Settles, Searches, Counts, IsSight};
ghost use Rattle.home_places.specs.Working.{IndexesNext};

use blobref::{Listing, NoMemory, Octets, Ref, RefList};
use edge_base::{GetFault, Put, PutFault};
use search_query::Query;
use std::sync::Wait;

/// What a worker's call did.
#[derive(Clone, Copy, PartialEq, Eq)]
pub enum Indexed {
    /// It inserted the fact of the blob of this number.
    New { number: u64 },
    /// It took this number, and another one inserted it meanwhile.
    Already { number: u64 },
    /// No number below this one waited. So many blobs had arrived.
    Idle { arrivals: u64 },
}

/// A store with its index, which several passes share (`docs/core.md`).
///
/// A pass is seen as two histories, that of the store and that of the index, with the turns that it drew of each. It
/// can be spent, where no turn is left to draw: such a call is refused with `NoMemory` and changes nothing else.
pub trait Home {
    /// What one actor holds of the home.
    type Pass;

    /// The pass is one of this home's. No call changes that.
    ghost belongs: { Self → Self.Pass → Type 0 };

    /// What the pass has seen and drawn.
    ghost sight: { Self.Pass → Sight };

    /// Whether the home tells the bytes of its blobs. No call changes that.
    ghost tells: { Self → Bool };

    /// Puts a blob under its ref, in one turn of the store, as `StorePlace::put`.
    fn upload<R: Wait>(
        &self,
        rt: &R,
        pass: &mut Self::Pass,
        said: &Ref,
        bytes: &[u8],
    ) -> Result<Put, PutFault>
        requires { belongs self.now pass.old }
        ensures own { belongs self.now pass.new }
        ensures turn { StoreCall (result ≡ Err PutFault.NoMemory)
            (λ before entry. PutSpec (sight pass.old).store.limits said.now bytes.now before result entry)
            (sight pass.old) (sight pass.new) };

    /// The bytes of the blob under a ref, in one turn of the store, as `StorePlace::get`.
    fn fetch<R: Wait>(
        &self,
        rt: &R,
        pass: &mut Self::Pass,
        r: &Ref,
    ) -> Result<Option<Octets>, GetFault>
        requires { belongs self.now pass.old }
        ensures own { belongs self.now pass.new }
        ensures turn { StoreCall (result ≡ Err GetFault.NoMemory)
            (λ before entry. GetSpec (tells self.now) r.now before result entry) (sight pass.old) (sight pass.new) };

    /// Those of the refs that arrived, with their sizes, in one turn of the store, as `StorePlace::stat`.
    fn stat<R: Wait>(
        &self,
        rt: &R,
        pass: &mut Self::Pass,
        refs: &RefList,
    ) -> Result<Listing, NoMemory>
        requires { belongs self.now pass.old }
        ensures own { belongs self.now pass.new }
        ensures turn { StoreCall (IsErr result)
            (λ before entry. StatSpec refs.now before result entry) (sight pass.old) (sight pass.new) };

    /// A page of the refs with their sizes, in one turn of the store, as `StorePlace::list`.
    fn list<R: Wait>(
        &self,
        rt: &R,
        pass: &mut Self::Pass,
        after: Option<&Ref>,
        limit: usize,
    ) -> Result<Listing, NoMemory>
        requires { belongs self.now pass.old }
        ensures own { belongs self.now pass.new }
        ensures turn { StoreCall (IsErr result)
            (λ before entry. ListSpec (option_copied after.entry) limit before result entry)
            (sight pass.old) (sight pass.new) };

    /// Inserts every number that the pass has seen arrive and the index lacks, also such as others have in hand, in any
    /// number of turns. After an error some of them may be inserted. `Disk` and `Damaged` come only where an entry of
    /// one of this call's turns tells the same.
    fn settle<R: Wait>(&self, rt: &R, pass: &mut Self::Pass) -> Result<(), GetFault>
        requires { belongs self.now pass.old }
        ensures own { belongs self.now pass.new }
        ensures settled { Settles result (sight pass.old) (sight pass.new) };

    /// The answer to a query (`docs/search.md`) over the Inserts that are then shown to the pass. It waits for nobody.
    fn search(&self, pass: &mut Self::Pass, query: &Query) -> Result<RefList, NoMemory>
        requires { belongs self.now pass.old }
        ensures own { belongs self.now pass.new }
        ensures search { Searches query.now result (sight pass.old) (sight pass.new) };

    /// One step of a worker: asks how many blobs arrived, takes the least of their numbers that waits, reads that blob
    /// and inserts its fact. After an error that follows the take the number was given back, and `Disk` and `Damaged`
    /// come only where an entry of one of this call's turns tells the same.
    fn index_next<R: Wait>(&self, rt: &R, pass: &mut Self::Pass) -> Result<Indexed, GetFault>
        requires { belongs self.now pass.old }
        ensures own { belongs self.now pass.new }
        ensures indexes { IndexesNext (tells self.now) result (sight pass.old) (sight pass.new) };

    /// How many blobs arrived in the history that the pass has seen, and how many Inserts are shown to it. It takes no
    /// turn and no memory.
    fn seen(&self, pass: &Self::Pass) -> (u64, u64)
        ensures { Counts (sight pass.now) result };

    /// What a pass has seen and been shown is legal, and its turns rise.
    ghost is_legal: { (pass : Self.Pass) → IsSight (sight pass) };
}
