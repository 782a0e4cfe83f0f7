//! The facts of the blobs of a pack that a source gives in pieces.
ghost use Rattle.std.specs.Prelude.{◌≡◌, ◌+◌, ◌<◌, ◌≤◌, ◌^◌, ◌++◌, ℕ, List, [], length, map, All};
ghost use Rattle.std.specs.Prelude.{IfOk, IfSome, OnOk, OnErr, IsErrOf, Err};
ghost use Rattle.claim_model.specs.Facts.{AreDistinct, AreValid};
ghost use Rattle.edge_base.specs.Edge.{FaultsRose, SourceGaveFront};
ghost use Rattle.salvage_scan.specs.Pieces.{fed, IsKept};
ghost use Rattle.fact_lines.specs.Blobs.{with_blobs, HasRefsOf};
ghost use Rattle.fact_lines.specs.Incoming.{kept_blob, IsTaken, IsAllOf, Came, GaveFacts};

use crate::blobs::add_blob;
use blobref::{NoMemory, Ref};
use claim_index::FactList;
use edge_base::{ReadAllError, Source};
use salvage_scan::{Found, Scanner};
use std::alloc::Global;
use std::collections::BTreeSet;

/// The facts of the blobs that are salvaged from the bytes that a source has left, at most `limit`, each ref once: the
/// first finding of a ref counts, and later ones are skipped (`docs/formats/packs.md`, `docs/formats/schema.md`). The
/// bytes are read in pieces. A piece has up to 8 MiB if longer records follow one another, so that several are hashed
/// together. Besides the facts it takes memory for one record and two pieces.
///
/// `TooLong` comes only if more than `limit` bytes were left, and then `Ok` never comes. The source has then given
/// `limit + 1` bytes, and is read no further. `ReadFault` comes only if the source's count of
/// faults rose.
pub fn source_facts<S: Source>(
    alloc: Global,
    source: &mut S,
    limit: usize,
) -> Result<FactList, ReadAllError>
    ensures facts { IfOk result (GaveFacts limit (S.left source.old) (S.left source.new)) }
    ensures distinct { IfOk result (λ facts. AreDistinct facts) }
    ensures valid { IfOk result (λ facts. AreValid facts) }
    ensures long { IsErrOf result ReadAllError.TooLong → IfSome (S.left source.old) (λ left. limit < length left) }
    ensures one_past { IsErrOf result ReadAllError.TooLong → SourceGaveFront (S.left source.old) (S.left source.new)
        (limit + 1) }
    ensures fault { IsErrOf result ReadAllError.ReadFault → FaultsRose (S.faults source.old) (S.faults source.new) }
    ensures later { S.faults source.old ≤ S.faults source.new }
{
    let mut incoming = nothing(alloc)?;
    let mut space = Vec::new(alloc);
    let mut at = 0;
    'reads: loop {
        let room = next_room(&incoming.scanner, limit - at);
        widen(&mut space, room)?;
        let piece = &mut space.as_mut_slice()[..room];
        let n = source.read(piece)?;
        if n == 0 {
            return finish(alloc, incoming);
        }
        if n > limit - at {
            return Err(ReadAllError::TooLong);
        }
        feed(alloc, &mut incoming, &piece[..n])?;
        at += n;
    }
}

// How many bytes the next read requests: at most one byte more than may still come, so that a longer source is noticed.
fn next_room(scanner: &Scanner, left: usize) -> usize
    ensures some { 0 < result }
    ensures within { result ≤ left + 1 }
{
    left.min(scanner.room() - 1) + 1
}

// Grows the space to `len` bytes, if it has fewer.
fn widen(space: &mut Vec<u8>, len: usize) -> Result<(), NoMemory>
    ensures { OnOk result (len ≤ length space.new.items) }
{
    if space.len() < len {
        space.resize(len, 0)?;
    }
    Ok(())
}

// The bytes so far, and the facts of their blobs.
#[derive(Drop)]
struct Incoming {
    scanner: Scanner,
    seen: BTreeSet<Ref>,
    facts: FactList,
}

// No bytes came yet.
fn nothing(alloc: Global) -> Result<Incoming, NoMemory>
    ensures { IfOk result (λ i. IsTaken [] i.scanner i.seen i.facts) }
{
    let scanner = Scanner::start(alloc)?;
    Ok(Incoming {
        scanner,
        seen: BTreeSet::new(alloc),
        facts: FactList::empty(alloc),
    })
}

// Scans a piece, and adds the facts of its blobs.
fn feed(alloc: Global, incoming: &mut Incoming, piece: &[u8]) -> Result<(), NoMemory>
    requires fits { fed incoming.old.scanner + length piece.now < 2 ^ 64 }
    requires seen { HasRefsOf incoming.old.seen incoming.old.facts }
    ensures { OnOk result ((front : List ℕ) → IsTaken front incoming.old.scanner incoming.old.seen incoming.old.facts
        → IsTaken (front ++ piece.now) incoming.new.scanner incoming.new.seen incoming.new.facts) }
{
    let found = incoming.scanner.feed(piece)?;
    take_all(
        alloc,
        &incoming.scanner,
        found.as_slice(),
        &mut incoming.seen,
        &mut incoming.facts,
    )?;
    Ok(())
}

// The facts of all blobs, at the end.
fn finish(alloc: Global, incoming: Incoming) -> Result<FactList, ReadAllError>
    requires { HasRefsOf incoming.seen incoming.facts }
    ensures facts { IfOk result (λ facts. (front : List ℕ) → IsTaken front incoming.scanner incoming.seen incoming.facts
        → IsAllOf front facts) }
    ensures memory { OnErr result (result ≡ Err ReadAllError.NoMemory) }
{
    let Incoming {
        mut scanner,
        mut seen,
        mut facts,
    } = incoming;
    let (found, _clean) = scanner.finish()?;
    take_all(alloc, &scanner, found.as_slice(), &mut seen, &mut facts)?;
    Ok(facts)
}

// Adds the facts of the blobs that the last call of the scanner found.
fn take_all(
    alloc: Global,
    scanner: &Scanner,
    found: &[Found],
    seen: &mut BTreeSet<Ref>,
    facts: &mut FactList,
) -> Result<(), NoMemory>
    requires kept { All (IsKept scanner.now) found.now }
    requires seen { HasRefsOf seen.old facts.old }
    ensures facts { OnOk result (facts.new ≡ with_blobs facts.old (map (kept_blob scanner.now) found.now)) }
    ensures seen { OnOk result (HasRefsOf seen.new facts.new) }
{
    for place in found {
        add_blob(alloc, place.r, scanner.bytes(place), seen, facts)?;
    }
    Ok(())
}
