//! Calls of one turn that return refs and sizes of blobs. They add nothing to the history.
ghost use Rattle.std.specs.Prelude.{◌≡◌, [], ◌∷◌, ◌++◌, List, ℕ, option_copied, IfOk, OnOk};
ghost use Rattle.std.specs.List.{filter_map};
ghost use Rattle.pack_store.specs.Reading.{entry_of};
ghost use Rattle.histories.specs.StoreCalls.{CountSpec, ListSpec, StatSpec, each_once};
ghost use Rattle.store_history.specs.Represents.{AddsNone};
ghost use Rattle.store_history.specs.Once.{HasSame};

use blobref::{Listing, NoMemory, Ref, RefList};
use pack_disk::Disk;
use pack_store::Store;
use std::alloc::Global;
use std::collections::BTreeSet;

/// How many blobs arrived.
pub fn count<D: Disk>(store: &Store<D>) -> u64
    ensures adds { (made : ℕ) → AddsNone D.Disk made store.now (λ before entry. CountSpec before result entry) }
{
    store.count()
}

/// The refs greater than `after`, or of all if it is `None`: the first `limit` of them, ascending, each with the
/// size of its blob in bytes.
pub fn list<D: Disk>(
    store: &Store<D>,
    after: Option<&Ref>,
    limit: usize,
) -> Result<Listing, NoMemory>
    ensures adds { (made : ℕ) → AddsNone D.Disk made store.now
        (λ before entry. ListSpec (option_copied after.entry) limit before result entry) }
{
    store.list(after, limit)
}

/// Those of the refs under which a blob arrived, in their order, each with the size of its blob in bytes. For the refs
/// of a request without their repeats, as `once` returns them, this is the answer to the request.
pub fn stat<D: Disk>(alloc: Global, store: &Store<D>, refs: &RefList) -> Result<Listing, NoMemory>
    ensures adds { (made : ℕ) (asked : List (List ℕ)) → refs.now ≡ each_once [] asked
        → AddsNone D.Disk made store.now (λ before entry. StatSpec asked before result entry) }
{
    let mut found = Listing::empty(alloc);
    for r in refs.as_slice() {
        add_size(&mut found, store, r)?;
    }
    Ok(found)
}

// Appends the ref with its size, if it has a blob.
fn add_size<D: Disk>(found: &mut Listing, store: &Store<D>, r: &Ref) -> Result<(), NoMemory>
    ensures { OnOk result (found.new ≡ found.old ++ filter_map (λ q. entry_of q store.now.rows) (r.now ∷ [])) }
{
    match store.stat(r) {
        Some(size) => found.push((*r, size)),
        None => Ok(()),
    }
}

/// The refs in their order, each only at its first place. It takes time in n log n for n refs.
pub fn once(alloc: Global, refs: &RefList) -> Result<RefList, NoMemory>
    ensures { IfOk result (λ once. once ≡ each_once [] refs.now) }
{
    let mut seen = BTreeSet::new(alloc);
    let mut once = RefList::empty(alloc);
    for r in refs.as_slice() {
        add_once(&mut once, &mut seen, r)?;
    }
    Ok(once)
}

// Appends the ref, unless it is there.
fn add_once(once: &mut RefList, seen: &mut BTreeSet<Ref>, r: &Ref) -> Result<(), NoMemory>
    requires { HasSame seen.old once.old }
    ensures once { OnOk result (once.new ≡ once.old ++ each_once once.old (r.now ∷ [])) }
    ensures seen { OnOk result (HasSame seen.new once.new) }
{
    if seen.insert(*r)? {
        once.push(*r)?;
    }
    Ok(())
}
