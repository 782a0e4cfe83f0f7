//! Reads the blobs of several numbers in one turn. Their digests are taken after it, together.
ghost use Rattle.std.specs.Prelude.{◌≡◌, ◌≤◌, ◌<◌, ℕ, [], ◌∷◌, All, IfErr, IfOk, IfSome, Ok, Some, true, drop, length};
ghost use Rattle.std.specs.Prelude.{take};
ghost use Rattle.edge_base.specs.declared.answers.GetFault.TheVariants.{NoMemory};
ghost use Rattle.blob_checks.specs.Checks.{IsNamed};
ghost use Rattle.pack_store.specs.Archive.{count};
ghost use Rattle.pack_store.specs.Reading.{StaysStill};
ghost use Rattle.histories.specs.StoreCalls.{ArrivalSpec};
ghost use Rattle.store_history.specs.Represents.{limits_of, is_told, AddsEntry};
ghost use Rattle.store_history.specs.Finding.{find_entry, checked_arrival};
ghost use Rattle.store_history.specs.Together.{AllFrom, AreOwn, IsReadAt, StandsAt, first_in};

use crate::finding::check_arrival;
use blob_checks::{BYTES, has_lanes, own_count};
use blobref::{BlobList, Octets, Ref};
use edge_base::GetFault;
use pack_disk::Disk;
use pack_store::{Store, UncheckedBlob};
use std::alloc::Global;
use std::collections::VecDeque;

/// The blob of a number, counted from 0, followed by those of the next numbers, at most `most` in all. The list is
/// empty exactly if no more than `number` blobs arrived. They have at most 8 MiB together, unless the first one alone
/// has more.
///
/// The first one is read as by `find_number`, and `check_all` returns the final answer for it. An error at another one
/// ends the list; all it adds to the history is a Fault, if the disk's count rose.
pub fn find_numbers<D: Disk>(
    alloc: Global,
    store: &mut Store<D>,
    number: u64,
    most: u64,
) -> Result<BlobList, GetFault>
    ensures limits { limits_of store.new ≡ limits_of store.old }
    ensures told { is_told D.Disk store.new ≡ is_told D.Disk store.old }
    ensures adds { (made : ℕ) → AddsEntry D.Disk made store.old store.new
        (find_entry (first_in result) (D.faults store.old.disk) (D.faults store.new.disk))
        (λ before entry. ArrivalSpec (is_told D.Disk store.old) number before (checked_arrival (first_in result)) entry
        × IfOk result (AllFrom (IsReadAt (is_told D.Disk store.old) before) number)) }
{
    match store.find_number(number) {
        Ok(Some(found)) => with_next(alloc, store, found, number, most),
        Ok(None) => Ok(BlobList::empty(alloc)),
        Err(fault) => Err(fault),
    }
}

// The blob that was found under a number, and those of the next numbers.
fn with_next<D: Disk>(
    alloc: Global,
    store: &mut Store<D>,
    found: UncheckedBlob,
    number: u64,
    most: u64,
) -> Result<BlobList, GetFault>
    requires there { number < count store.old }
    requires stands { StandsAt D.Disk store.old number (found.r, found.bytes) }
    ensures first { IfOk result (λ blobs. first_in (Ok blobs) ≡ Ok (Some found)) }
    ensures refused { IfErr result (λ fault. fault ≡ NoMemory) }
    ensures stand { IfOk result (AllFrom (StandsAt D.Disk store.old) number) }
    ensures stays { StaysStill D.Disk store.old store.new }
    ensures later { D.faults store.old.disk ≤ D.faults store.new.disk }
{
    let UncheckedBlob { r, bytes } = found;
    let size = bytes.as_slice().len() as u64;
    let most = if has_lanes(&r) { most } else { 1 };
    let mut blobs = BlobList::empty(alloc);
    if blobs.push((r, bytes)).is_err() {
        return Err(GetFault::NoMemory);
    }
    read_next(store, &mut blobs, number, most, size);
    Ok(blobs)
}

// Reads the blobs of the next numbers, as long as they fit together with the first one, which has `size` bytes.
fn read_next<D: Disk>(store: &mut Store<D>, blobs: &mut BlobList, number: u64, most: u64, size: u64)
    requires there { number < count store.old }
    requires one { length blobs.old ≡ 1 }
    requires stands { AllFrom (StandsAt D.Disk store.old) number blobs.old }
    ensures first { first_in (Ok blobs.new) ≡ first_in (Ok blobs.old) }
    ensures stand { AllFrom (StandsAt D.Disk store.old) number blobs.new }
    ensures stays { StaysStill D.Disk store.old store.new }
    ensures later { D.faults store.old.disk ≤ D.faults store.new.disk }
{
    let end = store.count().min(number.saturating_add(most));
    let mut last = size;
    let mut room = BYTES.saturating_sub(size);
    'numbers: for next in number + 1..end {
        // The next one is assumed to be as long as the one before it.
        if last > room {
            return;
        }
        let Some(blob) = read_fitting(store, next, room) else {
            return;
        };
        last = blob.1.as_slice().len() as u64;
        room = room.saturating_sub(last);
        if blobs.push(blob).is_err() {
            return;
        }
    }
}

// The blob of a number, if it can be read, has at most `room` bytes, and is checked together with others.
fn read_fitting<D: Disk>(store: &mut Store<D>, number: u64, room: u64) -> Option<(Ref, Octets)>
    ensures stands { IfSome result (StandsAt D.Disk store.old number) }
    ensures stays { StaysStill D.Disk store.old store.new }
    ensures later { D.faults store.old.disk ≤ D.faults store.new.disk }
{
    match store.find_number(number) {
        Ok(Some(found)) if has_room(&found, room) => Some((found.r, found.bytes)),
        _ => None,
    }
}

fn has_room(found: &UncheckedBlob, room: u64) -> bool {
    has_lanes(&found.r) && found.bytes.as_slice().len() as u64 <= room
}

/// The answer for the first of these blobs, as by `check_arrival`, and the others up to the first one that hasn't its
/// own ref. Their digests are taken together.
pub fn check_all(
    blobs: BlobList,
) -> (
    Result<Option<(Ref, Octets)>, GetFault>,
    VecDeque<(Ref, Octets)>,
)
    ensures first { result.0 ≡ checked_arrival (first_in (Ok blobs)) }
    ensures others { result.1.items ≡ take (length result.1.items) (drop 1 blobs) }
    ensures own { AreOwn result.1.items }
{
    let mut blobs = blobs.into_vec();
    let own = counted_own(&blobs);
    blobs.truncate(own.max(1));
    let mut blobs = VecDeque::from_vec(blobs);
    let first = check_first(&mut blobs, own);
    (first, blobs)
}

// How many blobs at the beginning of the list have their own refs. A single one isn't checked.
fn counted_own(blobs: &[(Ref, Octets)]) -> usize
    ensures { All IsNamed (take result blobs.now) }
{
    if blobs.len() > 1 { own_count(blobs) } else { 0 }
}

// Takes out the first blob, and returns the answer for it. The first `own` blobs are known to have their own refs.
fn check_first(
    blobs: &mut VecDeque<(Ref, Octets)>,
    own: usize,
) -> Result<Option<(Ref, Octets)>, GetFault>
    requires { All IsNamed (take own blobs.old.items) }
    ensures first { result ≡ checked_arrival (first_in (Ok blobs.old.items)) }
    ensures others { blobs.new.items ≡ drop 1 blobs.old.items }
{
    match blobs.pop_front() {
        Some(blob) => answered(blob, own > 0),
        None => Ok(None),
    }
}

// The answer for a blob. If `is_own`, its ref is known to be its own.
fn answered(blob: (Ref, Octets), is_own: bool) -> Result<Option<(Ref, Octets)>, GetFault>
    requires { is_own ≡ true → IsNamed blob }
    ensures { result ≡ checked_arrival (first_in (Ok (blob ∷ []))) }
{
    if is_own {
        return Ok(Some(blob));
    }
    let (r, bytes) = blob;
    check_arrival(Ok(Some(UncheckedBlob { r, bytes })))
}
