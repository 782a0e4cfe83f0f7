//! What blobs answer. Nothing is changed.
ghost use Rattle.std.specs.Prelude.{◌≡◌, ◌++◌, ◌∷◌, [], true, None, if◌then◌else◌, length, IfOk, IfErr, OnOk, option_map, option_copied};
ghost use Rattle.std.specs.List.{filter_map, list_any};
ghost use Rattle.std.specs.FinMap.{entries, from_entries};
ghost use Rattle.blobref.specs.Blobref.{is_after, ref_cmp};
ghost use Rattle.histories.specs.Stores.{are_arrivals, bytes_of, is_ref};
ghost use Rattle.histories.specs.StoreCalls.{GetSpec, each_once, page, sized, sizes};

use blobref::{Listing, NoMemory, Octets, Ref, RefList};
use edge_base::GetFault;
use std::alloc::Global;

/// The bytes under a ref.
pub(crate) fn fetch(
    alloc: Global,
    blobs: &[(Ref, Octets)],
    r: &Ref,
) -> Result<Option<Octets>, GetFault>
    ensures says { GetSpec true r.now blobs.now result None }
    ensures fault { IfErr result (λ fault. fault ≡ GetFault.NoMemory) }
{
    'blobs: for blob in blobs {
        if *r == blob.0 {
            return copied(alloc, &blob.1);
        }
    }
    Ok(None)
}

fn copied(alloc: Global, bytes: &Octets) -> Result<Option<Octets>, GetFault>
    ensures some { IfOk result (λ copy. copy ≡ Some bytes.now) }
    ensures fault { IfErr result (λ fault. fault ≡ GetFault.NoMemory) }
{
    match Octets::copy(alloc, bytes.as_slice()) {
        Ok(copy) => Ok(Some(copy)),
        Err(_) => Err(GetFault::NoMemory),
    }
}

/// Those of the refs under which a blob arrived, each once, with the sizes of their blobs. Each is looked for once.
pub(crate) fn stat(
    alloc: Global,
    blobs: &[(Ref, Octets)],
    refs: &[Ref],
) -> Result<Listing, NoMemory>
    ensures { IfOk result (λ found. found ≡ filter_map (sized blobs.now) (each_once [] refs.now)) }
{
    let mut asked = RefList::empty(alloc);
    let mut found = Listing::empty(alloc);
    'refs: for r in refs {
        stat_one(blobs, r, &mut asked, &mut found)?;
    }
    Ok(found)
}

// One more of the refs asked.
fn stat_one(
    blobs: &[(Ref, Octets)],
    r: &Ref,
    asked: &mut RefList,
    found: &mut Listing,
) -> Result<(), NoMemory>
    ensures asked { OnOk result
        (asked.new ≡ (if list_any (is_ref r.now) asked.old then asked.old else asked.old ++ r.now ∷ [])) }
    ensures found { OnOk result
        (found.new ≡ (if list_any (is_ref r.now) asked.old then found.old
        else found.old ++ filter_map (sized blobs.now) (r.now ∷ []))) }
{
    if stands(asked.as_slice(), r) {
        return Ok(());
    }
    asked.push(*r)?;
    if let Some(size) = size_of(blobs, r) {
        found.push((*r, size))?;
    }
    Ok(())
}

fn stands(refs: &[Ref], r: &Ref) -> bool
    ensures { result ≡ list_any (is_ref r.now) refs.now }
{
    refs.iter().any(|other| *r == *other)
}

// The size of the blob under a ref.
fn size_of(blobs: &[(Ref, Octets)], r: &Ref) -> Option<u64>
    ensures { result ≡ option_map (λ bytes. length bytes) (bytes_of r.now blobs.now) }
{
    'blobs: for blob in blobs {
        if *r == blob.0 {
            return Some(blob.1.as_slice().len() as u64);
        }
    }
    None
}

/// The refs that are greater than `after`, ascending, the first `limit` of them, with the sizes of their blobs. All
/// refs are sorted for it.
pub(crate) fn list(
    alloc: Global,
    blobs: &[(Ref, Octets)],
    after: Option<&Ref>,
    limit: usize,
) -> Result<Listing, NoMemory>
    requires { are_arrivals blobs.now ≡ true }
    ensures { IfOk result (λ found. found ≡ page (option_copied after.entry) limit blobs.now) }
{
    let all = sorted_sizes(alloc, blobs)?;
    let mut found = Listing::empty(alloc);
    'entries: for entry in all.as_slice() {
        if found.len() == limit {
            return Ok(found);
        }
        keep_after(after, entry, &mut found)?;
    }
    Ok(found)
}

// Puts an entry behind the others where its ref is greater.
fn keep_after(after: Option<&Ref>, entry: &(Ref, u64), found: &mut Listing) -> Result<(), NoMemory>
    ensures { OnOk result
        (found.new ≡ (if is_after (option_copied after.entry) entry.now.0 then found.old ++ entry.now ∷ []
        else found.old)) }
{
    if is_after(after, &entry.0) {
        found.push(*entry)?;
    }
    Ok(())
}

fn is_after(after: Option<&Ref>, r: &Ref) -> bool
    ensures { result ≡ is_after (option_copied after.entry) r.now }
{
    match after {
        Some(other) => *other < *r,
        None => true,
    }
}

// All refs, ascending, with the sizes of their blobs.
fn sorted_sizes(alloc: Global, blobs: &[(Ref, Octets)]) -> Result<Vec<(Ref, u64)>, NoMemory>
    requires { are_arrivals blobs.now ≡ true }
    ensures { IfOk result (λ all. all.items ≡ entries (from_entries {R = ref_cmp} (sizes blobs.now))) }
{
    let mut all = sizes(alloc, blobs)?;
    all.sort_by_key(|entry| entry.0)?;
    Ok(all)
}

// The refs with the sizes of their blobs.
fn sizes(alloc: Global, blobs: &[(Ref, Octets)]) -> Result<Vec<(Ref, u64)>, NoMemory>
    ensures { IfOk result (λ all. all.items ≡ sizes blobs.now) }
{
    let all = blobs
        .iter()
        .map(|blob| (blob.0, blob.1.as_slice().len() as u64))
        .collect(alloc)?;
    Ok(all)
}
