//! Searches of a core.
ghost use Rattle.std.specs.Prelude.{◌≡◌, ◌++◌, ◌∷◌, [], IfOk, OnOk, OnErr, map};
ghost use Rattle.claim_model.specs.Facts.{AreValid};
ghost use Rattle.search_eval.specs.Answer.{answer, answer_bytes};
ghost use Rattle.home_core.specs.declared.events.Event.TheVariants as event;
ghost use Rattle.home_core.specs.Steps.{blobs_at, core_reply, core_step, entry_of, indexed_entries, indexed_facts};

use crate::events::Reply;
use crate::lists::Lists;
use answer_text::search_text;
use blobref::{NoMemory, Octets, Ref, RefList};
use claim_index::FactList;
use claim_verify::Verifier;
use fact_search::answer_over;
use schema_json::fact;
use search_query::Query;
use std::alloc::Global;

/// The bytes of the answer to a query over exactly the facts indexed. The session sees all indexed numbers.
pub(crate) fn search<V: Verifier>(
    alloc: Global,
    lists: &mut Lists,
    keys: &V,
    session: u32,
    query: &Query,
) -> Result<Reply, NoMemory>
    ensures state { OnOk result (lists.new ≡ core_step lists.old (event.Search session query.now)) }
    ensures reply { IfOk result (λ reply.
        reply ≡ Reply.Answer (answer_bytes (indexed_facts lists.old) (V.accepts keys.now) query.now)) }
    ensures refused { OnErr result (lists.new ≡ lists.old) }
{
    let refs = found(alloc, lists, keys, query)?;
    let text = search_text(alloc, &refs)?;
    lists.see_indexed(alloc, session)?;
    Ok(Reply::Answer(text))
}

/// The answer to a query over exactly the facts indexed.
pub(crate) fn found<V: Verifier>(
    alloc: Global,
    lists: &Lists,
    keys: &V,
    query: &Query,
) -> Result<RefList, NoMemory>
    ensures { IfOk result (λ refs. refs ≡ answer (indexed_facts lists.now) (V.accepts keys.now) query.now) }
{
    let facts = indexed_entries(alloc, &lists.store, &lists.indexed)?;
    answer_over(alloc, facts, keys, query)
}

// The refs at these numbers, with the facts of their blobs.
fn indexed_entries(
    alloc: Global,
    store: &[(Ref, Octets)],
    numbers: &[u64],
) -> Result<FactList, NoMemory>
    ensures entries { IfOk result (λ facts. facts ≡ map entry_of (blobs_at store.now numbers.now)) }
    ensures valid { IfOk result AreValid }
{
    let mut facts = FactList::empty(alloc);
    'numbers: for n in numbers {
        add_entry(alloc, store, *n, &mut facts)?;
    }
    Ok(facts)
}

fn add_entry(
    alloc: Global,
    store: &[(Ref, Octets)],
    n: u64,
    facts: &mut FactList,
) -> Result<(), NoMemory>
    requires { AreValid facts.old }
    ensures entries { OnOk result (facts.new ≡ facts.old ++ map entry_of (blobs_at store.now (n ∷ []))) }
    ensures valid { OnOk result (AreValid facts.new) }
{
    if let Some(blob) = store.get(n as usize) {
        let said = fact(alloc, blob.1.as_slice())?;
        facts.push((blob.0, said))?;
    }
    Ok(())
}
