//! An index to which the blobs of a pack come.
ghost use Rattle.std.specs.Prelude.{◌≡◌, ◌<◌};

use crate::Fault;
use crate::inserting::tell_inserted;
use crate::stale::tell_placed;
use claim_index::Index;
use claim_verify::Keyring;
use edge_base::Steps;
use std::mem::forget;
use std::sync::ledger::{Blank, Ledger};

/// How blobs come to an index.
#[derive(Clone, Copy)]
pub(crate) enum Coming {
    /// Each is placed, and has brought its memory.
    Placed,
    /// Each is inserted.
    Inserted,
}

/// Has the blobs of a pack come to an index, one by one, and tells of it what is told where they come so. Steps are
/// counted in the blank ledger. The index is given up as it is, and its memory with the process.
pub(crate) fn tell_index<L: Ledger>(
    rt: &HostRuntime,
    coming: Coming,
    pack: &[u8],
    keys: &Keyring,
    blank: Blank,
) -> Result<(), Fault>
    requires name { blank.name ≡ L.name }
    requires parts { blank.parts ≡ L.parts }
    requires some { 0 < blank.parts }
{
    let mut steps = Steps::<L>::start(blank);
    let mut index = Index::fresh(rt.alloc(), keys);
    let told = tell_coming(rt, coming, &mut index, pack, keys, &mut steps);
    forget(index);
    told
}

fn tell_coming<L: Ledger>(
    rt: &HostRuntime,
    coming: Coming,
    index: &mut Index<&Keyring>,
    pack: &[u8],
    keys: &Keyring,
    steps: &mut Steps<L>,
) -> Result<(), Fault> {
    match coming {
        Coming::Placed => tell_placed(rt, index, pack, keys, steps),
        Coming::Inserted => tell_inserted(rt, index, pack, steps),
    }
}
