//! What a core tells. None of it changes the core.
ghost use Rattle.std.specs.Prelude.{◌≡◌, IfOk};
ghost use Rattle.histories.specs.StoreCalls.{put_settled};
ghost use Rattle.search_eval.specs.Answer.{answer};
ghost use Rattle.home_core.specs.Steps.{indexed_facts, least_waiting};

use crate::searching::found;
use crate::stepping::Core;
use crate::storing::settled;
use blobref::{NoMemory, Octets, Ref, RefList};
use claim_verify::Verifier;
use edge_base::{Put, PutFault};
use search_query::Query;

impl<V: Verifier> Core<V> {
    /// The blobs that arrived, in order. The place of each is its number.
    pub fn blobs(&self) -> &[(Ref, Octets)]
        ensures { result.now ≡ self.now.state.store }
    {
        self.lists.store.as_slice()
    }

    /// The indexed numbers, in the order of their inserts.
    pub fn indexed(&self) -> &[u64]
        ensures { result.now ≡ self.now.state.indexed }
    {
        self.lists.indexed.as_slice()
    }

    /// What a put of these bytes would answer before anything is done, if that is settled: the blob is too big, it
    /// isn't under a ref of its bytes, or a blob under that ref arrived before.
    pub fn settled(&self, said: &Ref, bytes: &[u8]) -> Option<Result<Put, PutFault>>
        ensures { result ≡ put_settled said.now bytes.now self.now.state.store }
    {
        settled(&self.lists.store, said, bytes)
    }

    /// The least number below `known` that arrived and waits.
    pub fn least_waiting(&self, known: u64) -> Option<u64>
        ensures { result ≡ least_waiting known self.now.state }
    {
        self.lists.least_waiting(known)
    }

    /// The answer to a query (`docs/search.md`) over the facts of exactly the blobs that are indexed. `NoMemory` comes
    /// only where no memory is left. It reads what each indexed blob says, and makes an index of it.
    pub fn search(&self, query: &Query) -> Result<RefList, NoMemory>
        ensures { IfOk result (λ refs.
            refs ≡ answer (indexed_facts self.now.state) (V.accepts self.now.keys) query.now) }
    {
        found(self.alloc, &self.lists, &self.keys, query)
    }
}
