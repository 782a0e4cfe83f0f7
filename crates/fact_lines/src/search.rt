//! Searches over facts.
ghost use Rattle.std.specs.Prelude.{◌≡◌, ◌≢◌, ◌++◌, [], codes, IfOk};
ghost use Rattle.std.specs.FinMap.{from_entries};
ghost use Rattle.answer_text.specs.Search.{search_text};
ghost use Rattle.claim_model.specs.Facts.{AreValid};
ghost use Rattle.search_eval.specs.Answer.{answer};
ghost use Rattle.fact_lines.specs.Search.{query_line, search_line};

use answer_text::search_text;
use blobref::{NoMemory, Octets, RefList};
use claim_index::FactList;
use claim_verify::Verifier;
use fact_search::last_answer_over;
use schema_date::When;
use search_query::Query;
use std::alloc::Global;

/// The line that answers a search for an attribute's value at a time over facts. Cost and error are those of
/// `query_line`.
pub fn search_line<V: Verifier>(
    alloc: Global,
    facts: FactList,
    keys: &V,
    attr: &str,
    value: &str,
    at: When,
) -> Result<Octets, NoMemory>
    requires attr { attr.now ≢ [] }
    requires valid { AreValid facts }
    ensures { IfOk result (λ line. line ≡ search_line (from_entries facts) (V.accepts keys.now) attr.now value.now at) }
{
    let query = Query::for_value(alloc, attr, value, at)?;
    query_line(alloc, facts, keys, &query)
}

/// The line that answers a query over facts (`docs/search.md`). It takes the time of making an index of the facts, and
/// then that of a search. It is for commands that end with the line: the memory of the index is freed when the process
/// ends (`fact_search::last_answer_over`). `NoMemory` comes only if no memory is left.
pub fn query_line<V: Verifier>(
    alloc: Global,
    facts: FactList,
    keys: &V,
    query: &Query,
) -> Result<Octets, NoMemory>
    requires valid { AreValid facts }
    ensures { IfOk result (λ line. line ≡ query_line (from_entries facts) (V.accepts keys.now) query.now) }
{
    let refs = last_answer_over(alloc, facts, keys, query)?;
    line(alloc, &refs)
}

// The text of an answer, and a line feed.
fn line(alloc: Global, refs: &RefList) -> Result<Octets, NoMemory>
    ensures { IfOk result (λ line. line ≡ search_text refs.now ++ codes "\n") }
{
    let mut bytes = search_text(alloc, refs)?.into_vec();
    bytes.push(b'\n')?;
    Ok(Octets::from_vec(bytes))
}
