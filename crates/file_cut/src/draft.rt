//! Chunks are put, and runs of them closed.
ghost use Rattle.std.specs.Prelude.{◌≡◌, ◌≤◌, ◌<◌, ℕ, List, ◌∷◌, [], ◌++◌, length, IfOk, IfErr, OnOk};
ghost use Rattle.blobref.specs.Blobref.{ref_of};
ghost use Rattle.edge_base.specs.Shelf.{max_blob};
ghost use Rattle.schema_fact.specs.Limits.{total_size, MeetsLimits};
ghost use Rattle.schema_write.specs.Blobs.{bytes_blob, file_blob};
ghost use Rattle.file_cut.specs.Cutting.{below_file, parts_of_file, blob_part, own_from, blobs_from};
ghost use Rattle.file_cut.specs.Drafts.{Puts, IsCut, closed, IsPut, IsRoomy, IsShortList, MayEnd, parts_in};

use blobref::{NoMemory, Octets, Ref};
use edge_base::{PutFault, Shelf};
use schema_fact::{Origin, Part, PartList};
use schema_write::{DraftFault, bytes_blob, file_blob};
use std::alloc::Global;

/// The parts of the run that is being put, and those of the runs before it.
#[derive(Drop)]
pub(crate) struct Draft {
    pub run: PartList,
    pub runs: PartList,
}

// The blob of a file of this name and these parts. With so few it isn't too long.
fn file_octets(alloc: Global, name: &str, parts: &PartList) -> Result<Octets, NoMemory>
    requires named { length name.now ≤ 4096 }
    requires short { IsShortList parts.now }
    ensures text { IfOk result (λ blob. blob ≡ file_blob name.now parts.now) }
    ensures fits { IfOk result (λ blob. length blob ≤ max_blob) }
{
    match file_blob(alloc, name, parts) {
        Ok(blob) => Ok(blob),
        Err(DraftFault::NoMemory) => Err(NoMemory),
        Err(DraftFault::TooLong { .. }) => unreachable!(),
    }
}

// The blob of a run of parts. With so few it isn't too long.
fn run_octets(alloc: Global, parts: &PartList) -> Result<Octets, NoMemory>
    requires short { IsShortList parts.now }
    ensures text { IfOk result (λ blob. blob ≡ bytes_blob parts.now) }
    ensures fits { IfOk result (λ blob. length blob ≤ max_blob) }
{
    match bytes_blob(alloc, parts) {
        Ok(blob) => Ok(blob),
        Err(DraftFault::NoMemory) => Err(NoMemory),
        Err(DraftFault::TooLong { .. }) => unreachable!(),
    }
}

// How many bytes the parts have together.
fn total_size(parts: &[Part]) -> u64
    requires { MeetsLimits parts.now }
    ensures { result ≡ total_size parts.now }
{
    let mut total = 0;
    for part in parts {
        total += part.size;
    }
    total
}

// Puts a blob under the ref that the program gives it.
fn put_blob<B: Shelf>(shelf: &mut B, r: &Ref, bytes: &[u8]) -> Result<(), PutFault>
    requires named { r.now ≡ ref_of bytes.now }
    requires short { length bytes.now ≤ max_blob }
    ensures ok { OnOk result (Puts B.Shelf shelf.old (bytes.now ∷ []) shelf.new) }
    ensures err { IfErr result (λ fault. IsCut B.Shelf shelf.old (bytes.now ∷ []) shelf.new fault) }
{
    match shelf.keep(r, bytes) {
        Ok(_) => Ok(()),
        Err(fault) => Err(fault),
    }
}

// Puts the blob of the run, and begins another one.
fn close_run<B: Shelf>(alloc: Global, shelf: &mut B, draft: &mut Draft) -> Result<(), PutFault>
    requires { IsShortList draft.old.run }
    ensures ok { OnOk result (Puts B.Shelf shelf.old (bytes_blob draft.old.run ∷ []) shelf.new) }
    ensures draft { OnOk result (draft.new ≡ closed draft.old) }
    ensures err { IfErr result (λ fault. IsCut B.Shelf shelf.old (bytes_blob draft.old.run ∷ []) shelf.new fault) }
{
    let Ok(blob) = run_octets(alloc, &draft.run) else {
        return Err(PutFault::NoMemory);
    };
    let r = Ref::of(blob.as_slice());
    let part = Part {
        size: total_size(draft.run.as_slice()),
        offset: 0,
        origin: Origin::Tree(r),
    };
    if draft.runs.push(part).is_err() {
        return Err(PutFault::NoMemory);
    }
    draft.run = PartList::empty(alloc);
    put_blob(shelf, &r, blob.as_slice())
}

// Puts a chunk of this ref into the run that is being put.
fn put_chunk<B: Shelf>(
    shelf: &mut B,
    draft: &mut Draft,
    r: &Ref,
    bytes: &[u8],
) -> Result<(), PutFault>
    requires named { r.now ≡ ref_of bytes.now }
    requires short { length bytes.now ≤ max_blob }
    ensures ok { OnOk result (Puts B.Shelf shelf.old (bytes.now ∷ []) shelf.new) }
    ensures draft { OnOk result
        (draft.new ≡ record { run = draft.old.run ++ blob_part bytes.now ∷ []; runs = draft.old.runs }) }
    ensures err { IfErr result (λ fault. IsCut B.Shelf shelf.old (bytes.now ∷ []) shelf.new fault) }
{
    let part = Part {
        size: bytes.len() as u64,
        offset: 0,
        origin: Origin::Blob(*r),
    };
    if draft.run.push(part).is_err() {
        return Err(PutFault::NoMemory);
    }
    put_blob(shelf, r, bytes)
}

// Closes the run that is being put where it is full. A chunk is to come.
fn make_room<B: Shelf>(
    alloc: Global,
    shelf: &mut B,
    draft: &mut Draft,
    full: usize,
) -> Result<(), PutFault>
    requires full { 0 < full }
    requires short { IsShortList draft.old.run }
    ensures ok { OnOk result ((start : B) (chunks : List (List ℕ)) → IsPut B.Shelf full start shelf.old draft.old chunks
        → IsRoomy B.Shelf full start shelf.new draft.new chunks) }
    ensures err { IfErr result (λ fault. (start : B) (chunks more : List (List ℕ)) (next : List ℕ)
        → IsPut B.Shelf full start shelf.old draft.old chunks
        → IsCut B.Shelf start (below_file full (chunks ++ next ∷ more)) shelf.new fault) }
{
    if draft.run.len() >= full {
        return close_run(alloc, shelf, draft);
    }
    Ok(())
}

/// Puts the next chunk, of this ref, once the run before it is closed where it is full. After a refusal a front of the
/// blobs below the file was put, whatever chunks were to come behind this one.
pub(crate) fn put_next<B: Shelf>(
    alloc: Global,
    shelf: &mut B,
    draft: &mut Draft,
    r: &Ref,
    bytes: &[u8],
    full: usize,
) -> Result<(), PutFault>
    requires named { r.now ≡ ref_of bytes.now }
    requires full { 0 < full }
    requires short { IsShortList draft.old.run }
    requires fits { length bytes.now ≤ max_blob }
    ensures ok { OnOk result ((start : B) (chunks : List (List ℕ)) → IsPut B.Shelf full start shelf.old draft.old chunks
        → IsPut B.Shelf full start shelf.new draft.new (chunks ++ bytes.now ∷ [])) }
    ensures err { IfErr result (λ fault. (start : B) (chunks more : List (List ℕ))
        → IsPut B.Shelf full start shelf.old draft.old chunks
        → IsCut B.Shelf start (below_file full (chunks ++ bytes.now ∷ more)) shelf.new fault) }
{
    make_room(alloc, shelf, draft, full)?;
    put_chunk(shelf, draft, r, bytes)
}

// Closes the last run, once all chunks were put, where there are several.
fn close_last<B: Shelf>(
    alloc: Global,
    shelf: &mut B,
    draft: &mut Draft,
    full: usize,
) -> Result<(), PutFault>
    requires full { 0 < full }
    requires short { MayEnd draft.old }
    ensures ok { OnOk result ((start : B) (chunks : List (List ℕ)) → IsPut B.Shelf full start shelf.old draft.old chunks
        → Puts B.Shelf start (below_file full chunks) shelf.new × (parts_in draft.new ≡ parts_of_file full chunks)) }
    ensures short { OnOk result (IsShortList (parts_in draft.new)) }
    ensures err { IfErr result (λ fault. (start : B) (chunks : List (List ℕ))
        → IsPut B.Shelf full start shelf.old draft.old chunks
        → IsCut B.Shelf start (below_file full chunks) shelf.new fault) }
{
    if draft.runs.len() == 0 {
        return Ok(());
    }
    close_run(alloc, shelf, draft)
}

// The parts of the file.
fn parts_of(draft: &Draft) -> &PartList
    ensures { result.now ≡ parts_in draft.now }
{
    if draft.runs.len() == 0 {
        return &draft.run;
    }
    &draft.runs
}

/// Puts what comes once all chunks were put: the blob of the last run where there are several, and the file's own,
/// whose ref is answered.
pub(crate) fn put_end<B: Shelf>(
    alloc: Global,
    name: &str,
    shelf: &mut B,
    draft: &mut Draft,
    full: usize,
) -> Result<Ref, PutFault>
    requires full { 0 < full }
    requires short { MayEnd draft.old }
    requires named { length name.now ≤ 4096 }
    ensures ok { IfOk result (λ r. (start : B) (chunks : List (List ℕ))
        → IsPut B.Shelf full start shelf.old draft.old chunks
        → Puts B.Shelf start (blobs_from full name.now chunks) shelf.new
        × (r ≡ ref_of (own_from full name.now chunks))) }
    ensures err { IfErr result (λ fault. (start : B) (chunks : List (List ℕ))
        → IsPut B.Shelf full start shelf.old draft.old chunks
        → IsCut B.Shelf start (blobs_from full name.now chunks) shelf.new fault) }
{
    close_last(alloc, shelf, draft, full)?;
    let Ok(blob) = file_octets(alloc, name, parts_of(draft)) else {
        return Err(PutFault::NoMemory);
    };
    let r = Ref::of(blob.as_slice());
    put_blob(shelf, &r, blob.as_slice())?;
    Ok(r)
}
