//! `search DIR --attr A --value V [--at DATE]`
ghost use Rattle.std.specs.Prelude.{◌≢◌, []};
ghost use Rattle.top_frame.specs.Outside.{outside, world_before, world_after};
ghost use Rattle.top_frame.specs.Frame.{Ends};
ghost use Rattle.perkeep_top.specs.Search.{search_meaning};

use crate::steps::opened_facts;
use claim_verify::Verifier;
use edge_base::{Clock, Dice, Sink, Source};
use fact_lines::search_line;
use pack_disk::Disk;
use peer_base::Peer;
use schema_date::When;
use std::alloc::Global;
use top_frame::{Environment, Status, written};

/// Writes the answer to a search for an attribute's value at a time, over the blobs of the store.
pub(crate) fn search<D: Disk, P: Peer, S: Source, K: Sink, C: Clock, R: Dice, V: Verifier>(
    alloc: Global,
    attr: &str,
    value: &str,
    at: When,
    disk: D,
    environment: Environment<'_, P, S, K, C, R, V>,
) -> (D, Status)
    requires { attr.now ≢ [] }
    ensures { Ends (outside D.Disk P.Peer S.Source K.Sink C.Clock R.Dice)
        (search_meaning (V.accepts environment.entry.keys.now) attr.now value.now at)
        (world_before disk environment.entry)
        (world_after result.0 environment.exit) result.1 }
{
    let (disk, facts) = match opened_facts(alloc, disk) {
        Ok(opened) => opened,
        Err(end) => return end,
    };
    match search_line(alloc, facts, environment.keys, attr, value, at) {
        Ok(line) => (disk, written(line.as_slice(), environment.sink)),
        Err(_) => (disk, Status::NoMemory),
    }
}
