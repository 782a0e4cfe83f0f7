//! Answers to queries, whose steps are counted in a ledger of their own and told to nobody.
ghost use Rattle.std.specs.Prelude.{◌≡◌, ◌<◌, IfOk};
ghost use Rattle.search_eval.specs.Answer.{answer};

use crate::answering::answer;
use blobref::{NoMemory, RefList};
use edge_base::Steps;
use index_look::Look;
use search_query::Query;
use std::alloc::Global;
use std::marker::Brand;
use std::sync::ledger::{Blank, Ledger};

/// The answer to a query over an index, in the time of a search (`answer`). `NoMemory` comes only where no memory is
/// left.
pub fn answer_of<K: Look>(alloc: Global, look: &K, query: &Query) -> Result<RefList, NoMemory>
    ensures { IfOk result (λ refs. refs ≡ answer (K.facts look.now) (K.accepts look.now) query.now) }
{
    counted::<_, Brand>(alloc, look, query, Blank::new(1))
}

// The answer, whose steps are counted in the blank ledger.
fn counted<K: Look, L: Ledger>(
    alloc: Global,
    look: &K,
    query: &Query,
    blank: Blank,
) -> Result<RefList, NoMemory>
    requires name { blank.name ≡ L.name }
    requires parts { blank.parts ≡ L.parts }
    requires some { 0 < blank.parts }
    ensures { IfOk result (λ refs. refs ≡ answer (K.facts look.now) (K.accepts look.now) query.now) }
{
    let mut steps = Steps::<L>::start(blank);
    answer(alloc, look, query, &mut steps)
}
