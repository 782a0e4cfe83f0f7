//! Goes through a pack once.
ghost use Rattle.std.specs.Prelude.{◌≡◌, ◌+◌, ◌≤◌, ◌<◌, ◌^◌, [], length, drop, map, nat_le, slice_index};
ghost use Rattle.std.specs.Prelude.{slice_index_or, All, IfOk, Some};
ghost use Rattle.salvage_scan.specs.Salvage.{salvage, broken};
ghost use Rattle.salvage_scan.specs.Scan.{place_of, clean_of, joined, LiesIn};
ghost use Rattle.salvage_scan.specs.Pieces.{seen, undecided, ScanRun, Waits};
ghost use Rattle.salvage_scan.specs.Ahead.{AreKnown, front_known};

use crate::ahead::{Ahead, Lookout};
use crate::found::{Clean, Found, FoundList};
use crate::heads::{next_header, past_junk};
use blob_checks::ref_like;
use blobref::{NoMemory, Ref};
use pack_format::{HeaderAt, MAX_HEADER};
use std::alloc::Global;

/// The blobs of a pack in order, by the four cases of docs/formats/packs.md, and whether it is clean. Each finding lies
/// in the pack, and its ref is its bytes' own. A blob is hashed only where a header stands before it.
pub fn scan(alloc: Global, pack: &[u8]) -> Result<(FoundList, Clean), NoMemory>
    ensures found { IfOk result (λ scanned. scanned.0 ≡ map place_of (salvage pack.now)) }
    ensures clean { IfOk result (λ scanned. scanned.1 ≡ clean_of (broken pack.now)) }
    ensures within { IfOk result (λ scanned. All (LiesIn pack.now) scanned.0) }
{
    let told = tell(alloc, 0, Clean::Yes, pack, true)?;
    Ok((told.found, told.clean))
}

// What was told of some bytes: what was found, the first broken place, how many bytes were used, and how many the next
// ones must be for more to be told.
#[derive(Drop)]
pub(crate) struct Told {
    pub(crate) found: FoundList,
    pub(crate) clean: Clean,
    pub(crate) used: usize,
    pub(crate) wants: usize,
}

// Tells what is found in bytes at a place, as far as it doesn't depend on bytes that follow. Behind the last bytes none
// follow.
pub(crate) fn tell(
    alloc: Global,
    place: u64,
    clean: Clean,
    bytes: &[u8],
    last: bool,
) -> Result<Told, NoMemory>
    requires { place + length bytes.now < 2 ^ 64 }
    ensures used { IfOk result (λ told. told.used ≤ length bytes.now) }
    ensures leads { IfOk result (λ told. ScanRun last place clean bytes.now told.found
        (place + told.used) told.clean (drop told.used bytes.now)) }
    ensures waits { IfOk result (λ told. Waits last (drop told.used bytes.now)) }
{
    let mut found = FoundList::empty(alloc);
    let mut lookout = Lookout::over(bytes, 0);
    let mut clean = clean;
    let mut at = 0;
    'places: while at < bytes.len() {
        match next_front(&mut lookout, bytes, at, last) {
            FrontAt::Kept { r, start, size } => {
                found.push(Found {
                    r,
                    at: place + (at + start) as u64,
                    size: size as u64,
                })?;
                at += start + size;
                lookout.renew(bytes, at);
            }
            FrontAt::Passed { len } => {
                at += len;
                lookout.leave(at);
            }
            FrontAt::Junk => {
                clean = broken_at(clean, place + at as u64);
                at = past_junk(bytes, at + 1);
            }
            FrontAt::Open { wants } => {
                return Ok(Told {
                    found,
                    clean,
                    used: at,
                    wants,
                });
            }
        }
    }
    Ok(Told {
        found,
        clean,
        used: at,
        wants: 0,
    })
}

// What stands at the front of some bytes.
enum FrontAt {
    Kept { r: Ref, start: usize, size: usize },
    Passed { len: usize },
    Junk,
    // Bytes that follow may decide, once there are so many.
    Open { wants: usize },
}

// What stands at a place, by the digest of the record that is known there, or else by its bytes.
fn next_front(lookout: &mut Lookout, bytes: &[u8], at: usize, last: bool) -> FrontAt
    requires known { AreKnown bytes.now lookout.old.records }
    requires at { at ≤ length bytes.now }
    ensures front { result ≡ seen last (drop at bytes.now) }
    ensures records { lookout.new.records ≡ lookout.old.records }
{
    let next = lookout.next;
    if next < lookout.records.count && lookout.records.places[next] == at {
        lookout.next = next + 1;
        known_front(&lookout.records, next)
    } else {
        front_at(&bytes[at..], last)
    }
}

// What stands at the place of a record with this number: a blob, if its ref spells the digest.
fn known_front(records: &Ahead, i: usize) -> FrontAt
    requires { i < 64 }
    ensures { result ≡ front_known (slice_index_or records.now.said i []) (slice_index records.now.sizes i)
        (slice_index records.now.lens i) (slice_index_or records.now.digests i []) }
{
    let r = records.said[i];
    if Ref::from_digest(records.digests[i]) == r {
        FrontAt::Kept {
            r,
            start: records.lens[i],
            size: records.sizes[i],
        }
    } else {
        FrontAt::Junk
    }
}

#[tactic(auto, unfolding(crate::specs::Salvage::front, crate::specs::Pieces::is_open))]
fn front_at(bytes: &[u8], last: bool) -> FrontAt
    ensures { result ≡ seen last bytes.now }
{
    match next_header(bytes) {
        HeaderAt::Blob { r, size, len } => {
            let size = size as usize;
            if holds(bytes, len, size) {
                if ref_like(&r, &bytes[len..len + size]) == r {
                    FrontAt::Kept {
                        r,
                        start: len,
                        size,
                    }
                } else {
                    FrontAt::Junk
                }
            } else {
                undecided(last, len + size)
            }
        }
        HeaderAt::Gone { size, len } => {
            let size = size as usize;
            if holds(bytes, len, size) {
                FrontAt::Passed { len: len + size }
            } else {
                undecided(last, len + size)
            }
        }
        HeaderAt::Missing => {
            if bytes.len() < MAX_HEADER {
                undecided(last, MAX_HEADER)
            } else {
                FrontAt::Junk
            }
        }
    }
}

// Whether the bytes are so many and so many more.
fn holds(bytes: &[u8], len: usize, size: usize) -> bool
    ensures { result ≡ nat_le (len + size) (length bytes.now) }
{
    len <= bytes.len() && size <= bytes.len() - len
}

// What is said where so many bytes would decide.
fn undecided(last: bool, wants: usize) -> FrontAt
    ensures { result ≡ undecided last wants }
{
    if last {
        FrontAt::Junk
    } else {
        FrontAt::Open { wants }
    }
}

// The first place that was passed over, once this one was too.
fn broken_at(clean: Clean, at: u64) -> Clean
    ensures { result ≡ joined clean (Some at) }
{
    match clean {
        Clean::Yes => Clean::No { at },
        Clean::No { at } => Clean::No { at },
    }
}
