//! Blobs that a store is given: all of them, or none where memory is short.
ghost use Rattle.std.specs.Prelude.{◌≡◌, ◌++◌, fold, OnOk, OnErr, IfOk};
ghost use Rattle.std.specs.FinMap.{remove};
ghost use Rattle.edge_base.specs.Shelf.{with_blob, with_blobs};
ghost use Rattle.replica_ring.specs.Rings.{is_valid};
ghost use Rattle.replica_ring.specs.Taking.{TookFront, absent_refs, absent_ref, valid_blobs, if_valid};

use blobref::{NoMemory, Octets, Ref};
use edge_base::BlobMap;
use std::alloc::Global;

/// The most bytes that a blob may have.
const MAX_BLOB: usize = 16_777_216;

/// Keeps copies of these blobs in their order, each where its ref isn't there. Where there is no memory nothing
/// changes.
pub(crate) fn give(
    alloc: Global,
    held: &mut BlobMap,
    blobs: &[(Ref, Octets)],
) -> Result<(), NoMemory>
    ensures ok { OnOk result (held.new ≡ with_blobs held.old blobs.now) }
    ensures err { OnErr result (held.new ≡ held.old) }
{
    let absent = absent_refs(alloc, held, blobs)?;
    match keep_all(alloc, held, blobs) {
        Ok(()) => Ok(()),
        Err(error) => {
            drop_all(held, absent.as_slice());
            Err(error)
        }
    }
}

/// Keeps a copy of a blob, where its ref isn't there. Where there is no memory nothing changes.
pub(crate) fn keep(alloc: Global, held: &mut BlobMap, r: &Ref, bytes: &[u8]) -> Result<(), NoMemory>
    ensures ok { OnOk result (held.new ≡ with_blob held.old (r.now, bytes.now)) }
    ensures err { OnErr result (held.new ≡ held.old) }
{
    if held.get(r).is_some() {
        return Ok(());
    }
    held.insert(r, Octets::copy(alloc, bytes)?)
}

// The refs of those that aren't there.
fn absent_refs(alloc: Global, held: &BlobMap, blobs: &[(Ref, Octets)]) -> Result<Vec<Ref>, NoMemory>
    ensures { IfOk result (λ refs. refs.items ≡ absent_refs held.now blobs.now) }
{
    let mut refs = Vec::new(alloc);
    for blob in blobs {
        push_absent(&mut refs, held, &blob.0)?;
    }
    Ok(refs)
}

fn push_absent(refs: &mut Vec<Ref>, held: &BlobMap, r: &Ref) -> Result<(), NoMemory>
    ensures { OnOk result (refs.new.items ≡ refs.old.items ++ absent_ref held.now r.now) }
{
    if held.get(r).is_some() {
        return Ok(());
    }
    refs.push(*r)?;
    Ok(())
}

// After a refusal the first of them may be there.
fn keep_all(alloc: Global, held: &mut BlobMap, blobs: &[(Ref, Octets)]) -> Result<(), NoMemory>
    ensures ok { OnOk result (held.new ≡ with_blobs held.old blobs.now) }
    ensures err { OnErr result (TookFront held.old held.new blobs.now) }
{
    for blob in blobs {
        keep(alloc, held, &blob.0, blob.1.as_slice())?;
    }
    Ok(())
}

fn drop_all(held: &mut BlobMap, refs: &[Ref])
    ensures { held.new ≡ fold (λ h r. remove h r) held.old refs.now }
{
    for r in refs {
        held.remove(r);
    }
}

/// Whether a store takes a blob under this ref: it is one of the blob's own, and the blob isn't too long.
pub(crate) fn is_valid(r: &Ref, bytes: &[u8]) -> bool
    ensures { result ≡ is_valid (r.now, bytes.now) }
{
    r.like(bytes) == *r && bytes.len() <= MAX_BLOB
}

/// Copies of those that a store takes under their refs.
pub(crate) fn valid_blobs(
    alloc: Global,
    blobs: &[(Ref, Octets)],
) -> Result<Vec<(Ref, Octets)>, NoMemory>
    ensures { IfOk result (λ found. found.items ≡ valid_blobs blobs.now) }
{
    let mut found = Vec::new(alloc);
    for blob in blobs {
        push_valid(alloc, &mut found, &blob.0, blob.1.as_slice())?;
    }
    Ok(found)
}

fn push_valid(
    alloc: Global,
    found: &mut Vec<(Ref, Octets)>,
    r: &Ref,
    bytes: &[u8],
) -> Result<(), NoMemory>
    ensures { OnOk result (found.new.items ≡ found.old.items ++ if_valid (r.now, bytes.now)) }
{
    if !is_valid(r, bytes) {
        return Ok(());
    }
    found.push((*r, Octets::copy(alloc, bytes)?))?;
    Ok(())
}
