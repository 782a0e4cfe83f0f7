//! `load COUNT START`
ghost use Rattle.std.specs.Prelude.{◌≤◌};
ghost use Rattle.top_frame.specs.Outside.{outside, world_before, world_after};
ghost use Rattle.top_frame.specs.Frame.{Ends};
ghost use Rattle.perkeep_top.specs.Load.{load_meaning};

use claim_verify::Verifier;
use edge_base::{Clock, Dice, Sink, Source};
use fact_lines::load_text;
use pack_disk::Disk;
use peer_base::Peer;
use std::alloc::Global;
use top_frame::{Environment, Status, written};

/// Writes what two indexes tell of the blobs of a generated store: one into which they were inserted in their order,
/// and one in reverse order.
pub(crate) fn load<D: Disk, P: Peer, S: Source, K: Sink, C: Clock, R: Dice, V: Verifier>(
    alloc: Global,
    count: u64,
    start: u64,
    disk: D,
    environment: Environment<'_, P, S, K, C, R, V>,
) -> (D, Status)
    requires { count ≤ 100000 }
    ensures { Ends (outside D.Disk P.Peer S.Source K.Sink C.Clock R.Dice)
        (load_meaning (V.accepts environment.entry.keys.now) count start)
        (world_before disk environment.entry)
        (world_after result.0 environment.exit) result.1 }
{
    match load_text(alloc, count, start, environment.keys) {
        Ok(text) => (disk, written(text.as_slice(), environment.sink)),
        Err(_) => (disk, Status::NoMemory),
    }
}
