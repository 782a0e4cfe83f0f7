//! Answers to queries over facts. The steps are counted in ledgers of their own, and told to nobody.
ghost use Rattle.std.specs.Prelude.{◌≡◌, ◌<◌, IfOk};
ghost use Rattle.std.specs.FinMap.{from_entries};
ghost use Rattle.claim_model.specs.Facts.{AreValid};
ghost use Rattle.search_eval.specs.Answer.{answer};

use blobref::{NoMemory, RefList};
use claim_index::{FactList, Index};
use claim_verify::Verifier;
use edge_base::Steps;
use search_eval::answer_of;
use search_query::Query;
use std::alloc::Global;
use std::marker::Brand;
use std::mem::forget;
use std::sync::ledger::{Blank, Ledger};

/// The answer to a query over the first fact of each ref (`docs/search.md`). It takes the time of making an index of
/// the facts (`Index::of`), and then that of a search. `NoMemory` comes only where no memory is left.
pub fn answer_over<V: Verifier>(
    alloc: Global,
    facts: FactList,
    keys: &V,
    query: &Query,
) -> Result<RefList, NoMemory>
    requires { AreValid facts }
    ensures { IfOk result (λ refs. refs ≡ answer (from_entries facts) (V.accepts keys.now) query.now) }
{
    let index = index_of::<_, Brand>(alloc, facts, keys, Blank::new(1))?;
    answer_of(alloc, &index, query)
}

/// The same, for a process that ends with this answer: the memory of the index and the facts is given back as the
/// process ends. To take them apart one by one would take a twentieth of the time.
pub fn last_answer_over<V: Verifier>(
    alloc: Global,
    facts: FactList,
    keys: &V,
    query: &Query,
) -> Result<RefList, NoMemory>
    requires { AreValid facts }
    ensures { IfOk result (λ refs. refs ≡ answer (from_entries facts) (V.accepts keys.now) query.now) }
{
    let index = index_of::<_, Brand>(alloc, facts, keys, Blank::new(1))?;
    let refs = answer_of(alloc, &index, query);
    forget(index);
    refs
}

// An index of facts. The steps are counted in the blank ledger.
fn index_of<V: Verifier, L: Ledger>(
    alloc: Global,
    facts: FactList,
    keys: V,
    blank: Blank,
) -> Result<Index<V>, NoMemory>
where
    V: Drop,
    requires valid { AreValid facts }
    requires name { blank.name ≡ L.name }
    requires parts { blank.parts ≡ L.parts }
    requires some { 0 < blank.parts }
    ensures facts { IfOk result (λ index. index.facts ≡ from_entries facts) }
    ensures keys { IfOk result (λ index. index.keys ≡ keys) }
{
    let mut steps = Steps::<L>::start(blank);
    Index::of(alloc, facts, keys, &mut steps)
}
