//! A source is cut into chunks, of which several are read together, and then put.
ghost use Rattle.std.specs.Prelude.{◌≡◌, ◌≤◌, ◌<◌, ◌*◌, ℕ, List, length, Err, IfOk, IfErr};
ghost use Rattle.blobref.specs.Blobref.{ref_of};
ghost use Rattle.edge_base.specs.Edge.{SourceGaveAll};
ghost use Rattle.file_cut.specs.declared.fault.CutFault.TheVariants as fault;
ghost use Rattle.file_cut.specs.Cutting.{cut, below_file, blobs_from, own_from, together};
ghost use Rattle.file_cut.specs.Drafts.{IsPut, Puts};
ghost use Rattle.file_cut.specs.Source.{ReadsBack};
ghost use Rattle.file_cut.specs.Writing.{AreSizes, Unwritten, Written, NotWritten, unput, longest_name};

use crate::draft::{Draft, put_end};
use crate::fault::CutFault;
use crate::group::{TOGETHER, put_piece};
use crate::pieces::read_piece;
use blobref::Ref;
use edge_base::{PutFault, Shelf, Source};
use schema_fact::PartList;
use std::alloc::{AllocError, Global};

// How many bytes a chunk has, and how many chunks a run.
const CHUNK: usize = 1_048_576;

const RUN: usize = 4_096;

/// The most bytes of a file (`docs/files.md`).
pub const MAX_FILE: u64 = 17_592_186_044_416;

/// The most bytes of a file's name (`docs/files.md`).
pub const MAX_NAME: usize = 4_096;

/// Cuts a source into the blobs of a file of this name, puts them as they are read (`docs/files.md`), and answers the
/// ref of the file's own blob, which is the last one.
///
/// `NameTooLong` comes exactly above 4,096 bytes, before anything is read. `TooLong` comes only where the source had
/// more than 17,592,186,044,416 bytes, and where that is so `Ok` never comes. `ReadFault` comes only where its count of
/// faults rose, and `Put` for the shelf's refusal of the blob that was next, never with `TooBig`: no blob has more than
/// 1,048,576 bytes. After each of these and `NoMemory` a front of the file's blobs was put, and nothing else; after
/// `Put(Disk)` the shelf holds such a front.
///
/// What was written reads back: where no two of the blobs share a ref, nor one of them with another blob of the shelf,
/// the bytes of the file at the answered ref are all that the source had left.
///
/// It holds eight chunks, and at most 8,192 parts. Eight are read before the first of them is put, so after `ReadFault`
/// up to seven whole ones that were read weren't put.
pub fn write_file<S: Source, B: Shelf>(
    alloc: Global,
    name: &str,
    source: &mut S,
    shelf: &mut B,
) -> Result<Ref, CutFault>
    ensures ok { IfOk result (Written S.Source B.Shelf name.now source.old source.new shelf.old shelf.new) }
    ensures reads { IfOk result (ReadsBack (S.left source.old) (B.content shelf.old) (B.content shelf.new) name.now) }
    ensures err { IfErr result (NotWritten S.Source B.Shelf name.now source.old source.new shelf.old shelf.new) }
    ensures named { longest_name < length name.now → result ≡ Err (fault.NameTooLong (length name.now)) }
    ensures later { S.faults source.old ≤ S.faults source.new }
{
    if name.len() > MAX_NAME {
        return Err(CutFault::NameTooLong {
            len: name.len() as u64,
        });
    }
    let Ok(mut space) = zeros(alloc, TOGETHER * CHUNK) else {
        return Err(CutFault::NoMemory);
    };
    let buf = space.as_mut_slice();
    write_cut(alloc, name, source, shelf, buf, CHUNK, RUN, MAX_FILE)
}

// So many zero bytes.
fn zeros(alloc: Global, len: usize) -> Result<Vec<u8>, AllocError>
    ensures { IfOk result (λ bytes. length bytes.items ≡ len) }
{
    vec![in alloc; 0; len]
}

// Writes a file with chunks of such a size, of which the buffer has room for eight, runs of so many, and at most so
// many bytes.
fn write_cut<S: Source, B: Shelf>(
    alloc: Global,
    name: &str,
    source: &mut S,
    shelf: &mut B,
    buf: &mut [u8],
    size: usize,
    full: usize,
    most: u64,
) -> Result<Ref, CutFault>
    requires sizes { AreSizes size full most }
    requires room { length buf.old ≡ together * size }
    requires named { length name.now ≤ longest_name }
    ensures ok { IfOk result (λ r. (bytes : List ℕ) × SourceGaveAll (S.left source.old) (S.left source.new) bytes
        × (length bytes ≤ most)
        × Puts B.Shelf shelf.old (blobs_from full name.now (cut size bytes)) shelf.new
        × (r ≡ ref_of (own_from full name.now (cut size bytes)))) }
    ensures err { IfErr result (λ fault. Unwritten S.Source B.Shelf most
        (λ input. blobs_from full name.now (cut size input))
        source.old source.new shelf.old shelf.new fault) }
    ensures later { S.faults source.old ≤ S.faults source.new }
{
    let mut draft = put_chunks(alloc, source, shelf, buf, size, full, most)?;
    match put_end(alloc, name, shelf, &mut draft, full) {
        Ok(r) => Ok(r),
        Err(fault) => Err(unput(fault)),
    }
}

// Puts the chunks of a source, once eight are read, or as many as there are.
fn put_chunks<S: Source, B: Shelf>(
    alloc: Global,
    source: &mut S,
    shelf: &mut B,
    buf: &mut [u8],
    size: usize,
    full: usize,
    most: u64,
) -> Result<Draft, CutFault>
    requires sizes { AreSizes size full most }
    requires room { length buf.old ≡ together * size }
    ensures ok { IfOk result (λ draft. (bytes : List ℕ) × SourceGaveAll (S.left source.old) (S.left source.new) bytes
        × (length bytes ≤ most) × IsPut B.Shelf full shelf.old shelf.new draft (cut size bytes)) }
    ensures err { IfErr result (λ fault. Unwritten S.Source B.Shelf most
        (λ input. below_file full (cut size input))
        source.old source.new shelf.old shelf.new fault) }
    ensures later { S.faults source.old ≤ S.faults source.new }
{
    let mut draft = Draft {
        run: PartList::empty(alloc),
        runs: PartList::empty(alloc),
    };
    let mut left = most;
    'pieces: loop {
        let Ok(n) = read_piece(source, buf) else {
            return Err(CutFault::ReadFault);
        };
        if n as u64 > left {
            return Err(CutFault::TooLong);
        }
        if let Err(fault) = put_piece(alloc, shelf, &mut draft, &buf[..n], size, full) {
            return Err(unput(fault));
        }
        if n < buf.len() {
            return Ok(draft);
        }
        left -= n as u64;
    }
}

// A shelf's refusal as a file's.
fn unput(fault: PutFault) -> CutFault
    ensures { result ≡ unput fault }
{
    match fault {
        PutFault::NoMemory => CutFault::NoMemory,
        fault => CutFault::Put(fault),
    }
}
