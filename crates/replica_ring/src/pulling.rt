//! The blobs that one store has and another lacks.
ghost use Rattle.std.specs.Prelude.{◌≡◌, ◌++◌, take, IfOk, OnOk};
ghost use Rattle.sync_core.specs.Copying.{lacking};
ghost use Rattle.replica_ring.specs.Taking.{unless_there};

use blobref::{NoMemory, Octets, Ref};
use edge_base::BlobMap;
use std::alloc::Global;
use std::ops::Bound;

/// Copies of the first so many blobs whose refs the other store lacks, in the order of refs.
pub(crate) fn first_lacking(
    alloc: Global,
    from: &BlobMap,
    to: &BlobMap,
    count: u64,
) -> Result<Vec<(Ref, Octets)>, NoMemory>
    ensures { IfOk result (λ found. found.items ≡ take count (lacking from.now to.now)) }
{
    let mut found = Vec::new(alloc);
    for (r, bytes) in from.range_from(Bound::Unbounded) {
        if found.len() as u64 == count {
            break;
        }
        push_lacking(alloc, &mut found, to, r, bytes)?;
    }
    Ok(found)
}

// Adds a copy of a blob, where the other store lacks its ref.
fn push_lacking(
    alloc: Global,
    found: &mut Vec<(Ref, Octets)>,
    to: &BlobMap,
    r: &Ref,
    bytes: &Octets,
) -> Result<(), NoMemory>
    ensures { OnOk result (found.new.items ≡ found.old.items ++ unless_there to.now (r.now, bytes.now)) }
{
    if to.get(r).is_some() {
        return Ok(());
    }
    found.push((*r, Octets::copy(alloc, bytes.as_slice())?))?;
    Ok(())
}
