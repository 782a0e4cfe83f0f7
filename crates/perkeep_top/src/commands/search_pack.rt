//! `search-pack A V`
ghost use Rattle.std.specs.Prelude.{◌≢◌, []};
ghost use Rattle.top_frame.specs.Outside.{outside, world_before, world_after};
ghost use Rattle.top_frame.specs.Frame.{Ends};
ghost use Rattle.perkeep_top.specs.Search.{search_pack_meaning};

use crate::steps::read_facts;
use claim_verify::Verifier;
use edge_base::{Clock, Dice, Sink, Source};
use fact_lines::search_line;
use pack_disk::Disk;
use peer_base::Peer;
use schema_date::When;
use std::alloc::Global;
use top_frame::{Environment, Status, written};

// The most bytes of a pack that is searched: 2 ^ 30.
const MAX_PACK: usize = 1_073_741_824;

/// Writes the answer to a search for an attribute's value, over the blobs salvaged from the pack that the source has
/// left.
pub(crate) fn search_pack<D: Disk, P: Peer, S: Source, K: Sink, C: Clock, R: Dice, V: Verifier>(
    alloc: Global,
    attr: &str,
    value: &str,
    disk: D,
    environment: Environment<'_, P, S, K, C, R, V>,
) -> (D, Status)
    requires { attr.now ≢ [] }
    ensures { Ends (outside D.Disk P.Peer S.Source K.Sink C.Clock R.Dice)
        (search_pack_meaning (V.accepts environment.entry.keys.now) attr.now value.now)
        (world_before disk environment.entry)
        (world_after result.0 environment.exit) result.1 }
{
    let facts = match read_facts(alloc, environment.source, MAX_PACK) {
        Ok(facts) => facts,
        Err(status) => return (disk, status),
    };
    match search_line(alloc, facts, environment.keys, attr, value, When::Always) {
        Ok(line) => (disk, written(line.as_slice(), environment.sink)),
        Err(_) => (disk, Status::NoMemory),
    }
}
