//! `query DIR`
ghost use Rattle.std.specs.Prelude.{◌≤◌, IfOk, IfErr};
ghost use Rattle.top_frame.specs.Outside.{outside, world_before, world_after};
ghost use Rattle.top_frame.specs.Frame.{Ends};
ghost use Rattle.perkeep_top.specs.Query.{query_meaning, ReadsQuery, RefusesQuery};

use crate::steps::opened_facts;
use claim_verify::Verifier;
use edge_base::{Clock, Dice, Sink, Source};
use fact_lines::query_line;
use pack_disk::Disk;
use peer_base::Peer;
use search_query::Query;
use std::alloc::Global;
use top_frame::{Environment, Status, read_input, told_too_long, written};

// The most bytes that a query may have.
const MAX_QUERY: usize = 1_048_576;

/// Writes the answer to the query that the source has left, over the blobs of the store.
pub(crate) fn query<D: Disk, P: Peer, S: Source, K: Sink, C: Clock, R: Dice, V: Verifier>(
    alloc: Global,
    disk: D,
    environment: Environment<'_, P, S, K, C, R, V>,
) -> (D, Status)
    ensures { Ends (outside D.Disk P.Peer S.Source K.Sink C.Clock R.Dice)
        (query_meaning (V.accepts environment.entry.keys.now))
        (world_before disk environment.entry)
        (world_after result.0 environment.exit) result.1 }
{
    let query = match read_query(alloc, environment.source) {
        Ok(query) => query,
        Err(status) => return (disk, status),
    };
    let (disk, facts) = match opened_facts(alloc, disk) {
        Ok(opened) => opened,
        Err(end) => return end,
    };
    match query_line(alloc, facts, environment.keys, &query) {
        Ok(line) => (disk, written(line.as_slice(), environment.sink)),
        Err(_) => (disk, Status::NoMemory),
    }
}

// The query that the source has left.
fn read_query<S: Source>(alloc: Global, source: &mut S) -> Result<Query, Status>
    ensures read { IfOk result (ReadsQuery S.Source source.old source.new) }
    ensures refused { IfErr result (RefusesQuery S.Source source.old source.new) }
    ensures later { S.faults source.old ≤ S.faults source.new }
{
    let text = match read_input(alloc, source, MAX_QUERY) {
        Ok(text) => text,
        Err(status) => return Err(told_too_long(status)),
    };
    match query_read::read(alloc, &text) {
        Ok(query) => Ok(query),
        Err(fault) => Err(Status::from(fault)),
    }
}
