//! `words DIR TEXT [--at DATE]`
ghost use Rattle.std.specs.Prelude.{◌≡◌, None, IfOk, IfErr};
ghost use Rattle.search_query.specs.View.{view};
ghost use Rattle.search_query.specs.declared.query.Sort.TheVariants.{Ref as by_ref};
ghost use Rattle.search_words.specs.Faults.{Says, words_fault};
ghost use Rattle.search_words.specs.Grammar.{IsLine};
ghost use Rattle.top_frame.specs.Outside.{outside, world_before, world_after};
ghost use Rattle.top_frame.specs.Frame.{Ends};
ghost use Rattle.perkeep_top.specs.SearchWords.{most_refs, words_meaning};

use crate::steps::opened_facts;
use claim_verify::Verifier;
use edge_base::{Clock, Dice, Sink, Source};
use fact_lines::query_line;
use pack_disk::Disk;
use peer_base::Peer;
use schema_date::When;
use search_query::{Query, Sort};
use search_words::WordsFault;
use std::alloc::Global;
use top_frame::{Environment, Status, written};
use words_read::read_words;

// The most refs that are answered.
const LIMIT: u32 = 200;

/// Writes the answer to what a line of search words asks at a time, over the blobs of the store.
pub(crate) fn words<D: Disk, P: Peer, S: Source, K: Sink, C: Clock, R: Dice, V: Verifier>(
    alloc: Global,
    text: &str,
    at: When,
    disk: D,
    environment: Environment<'_, P, S, K, C, R, V>,
) -> (D, Status)
    ensures { Ends (outside D.Disk P.Peer S.Source K.Sink C.Clock R.Dice)
        (words_meaning (V.accepts environment.entry.keys.now) text.now at)
        (world_before disk environment.entry)
        (world_after result.0 environment.exit) result.1 }
{
    let query = match words_query(alloc, text, at) {
        Ok(query) => query,
        Err(fault) => return (disk, Status::from(fault)),
    };
    let (disk, facts) = match opened_facts(alloc, disk) {
        Ok(opened) => opened,
        Err(end) => return end,
    };
    match query_line(alloc, facts, environment.keys, &query) {
        Ok(line) => (disk, written(line.as_slice(), environment.sink)),
        Err(_) => (disk, Status::NoMemory),
    }
}

// The query that search words ask.
fn words_query(alloc: Global, text: &str, at: When) -> Result<Query, WordsFault>
    ensures asked { IfOk result (λ query. IsLine text.now (view query.constraint)) }
    ensures most { IfOk result (λ query. query.limit ≡ most_refs) }
    ensures order { IfOk result (λ query. query.sort ≡ by_ref) }
    ensures time { IfOk result (λ query. query.at ≡ at) }
    ensures said { IfOk result (λ query. words_fault text.now ≡ None) }
    ensures fault { IfErr result (Says (words_fault text.now)) }
{
    Ok(Query {
        constraint: read_words(alloc, text)?,
        limit: LIMIT,
        sort: Sort::Ref,
        at,
    })
}
