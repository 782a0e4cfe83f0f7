//! Blobs that a file needs.
ghost use Rattle.std.specs.Prelude.{◌≡◌, ◌≤◌, ◌<◌, ℕ, length, IfOk, IfSome, Ok, Err};
ghost use Rattle.std.specs.Option.{ok_or};
ghost use Rattle.schema_fact.specs.Validity.{IsValidKind};
ghost use Rattle.schema_fact.specs.Limits.{total_size, MeetsLimits};
ghost use Rattle.claim_model.specs.Trees.{tree_parts};
ghost use Rattle.file_tree.specs.declared.fault.FileFault.TheVariants.{Absent};
ghost use Rattle.file_tree.specs.Walk.{opened_blob, opened_tree, opened_file, file_parts};
ghost use Rattle.file_tree.specs.Reading.{IsOpening, IsCausedByShelf, Rests};

use crate::fault::FileFault;
use blobref::{Octets, Ref};
use edge_base::{GetFault, Shelf};
use schema_fact::{Kind, Part, PartList};
use schema_json::fact;
use std::alloc::Global;

/// A blob that should have so many bytes.
pub(crate) fn open_blob<B: Shelf>(shelf: &mut B, r: &Ref, end: u64) -> Result<Octets, FileFault>
    ensures opens { IsOpening B.Shelf shelf.old shelf.new r.now (λ found. opened_blob found r.now end) result }
    ensures long { IfOk result (λ bytes. end ≤ length bytes) }
    ensures cause { IsCausedByShelf B.Shelf shelf.old shelf.new result }
    ensures rests { Rests B.Shelf shelf.old shelf.new }
{
    let bytes = fetched(shelf, r)?;
    let has = bytes.as_slice().len() as u64;
    if has < end {
        return Err(FileFault::Short {
            r: *r,
            has,
            wants: end,
        });
    }
    Ok(bytes)
}

/// The parts of a file or bytes blob that should have so many bytes.
pub(crate) fn open_tree<B: Shelf>(
    alloc: Global,
    shelf: &mut B,
    r: &Ref,
    end: u64,
) -> Result<PartList, FileFault>
    ensures opens { IsOpening B.Shelf shelf.old shelf.new r.now (λ found. opened_tree found r.now end) result }
    ensures valid { IfOk result (λ parts. MeetsLimits parts) }
    ensures cause { IsCausedByShelf B.Shelf shelf.old shelf.new result }
    ensures rests { Rests B.Shelf shelf.old shelf.new }
{
    let bytes = fetched(shelf, r)?;
    let fact = fact(alloc, bytes.as_slice())?;
    let Some(parts) = tree_parts(fact.kind) else {
        return Err(FileFault::NotAFile { r: *r });
    };
    let has = total_size(parts.as_slice());
    if has < end {
        return Err(FileFault::Short {
            r: *r,
            has,
            wants: end,
        });
    }
    Ok(parts)
}

/// The parts of a file.
pub(crate) fn open_file<B: Shelf>(
    alloc: Global,
    shelf: &mut B,
    r: &Ref,
) -> Result<PartList, FileFault>
    ensures opens { IsOpening B.Shelf shelf.old shelf.new r.now (λ found. opened_file found r.now) result }
    ensures valid { IfOk result (λ parts. MeetsLimits parts) }
    ensures cause { IsCausedByShelf B.Shelf shelf.old shelf.new result }
    ensures rests { Rests B.Shelf shelf.old shelf.new }
{
    let bytes = fetched(shelf, r)?;
    let fact = fact(alloc, bytes.as_slice())?;
    match file_parts(fact.kind) {
        Some(parts) => Ok(parts),
        None => Err(FileFault::NotAFile { r: *r }),
    }
}

// The bytes of a blob.
fn fetched<B: Shelf>(shelf: &mut B, r: &Ref) -> Result<Octets, FileFault>
    ensures opens { IsOpening B.Shelf shelf.old shelf.new r.now (λ found. ok_or found (Absent r.now)) result }
    ensures cause { IsCausedByShelf B.Shelf shelf.old shelf.new result }
    ensures rests { Rests B.Shelf shelf.old shelf.new }
{
    match shelf.fetch(r) {
        Ok(Some(bytes)) => Ok(bytes),
        Ok(None) => Err(FileFault::Absent { r: *r }),
        Err(GetFault::NoMemory) => Err(FileFault::NoMemory),
        Err(fault) => Err(FileFault::Get(fault)),
    }
}

fn tree_parts(kind: Kind) -> Option<PartList>
    requires { IsValidKind kind }
    ensures value { result ≡ tree_parts kind }
    ensures valid { IfSome result (λ parts. MeetsLimits parts) }
{
    match kind {
        Kind::File { name: _, parts } => Some(parts),
        Kind::Bytes(parts) => Some(parts),
        _ => None,
    }
}

fn file_parts(kind: Kind) -> Option<PartList>
    requires { IsValidKind kind }
    ensures value { result ≡ file_parts kind }
    ensures valid { IfSome result (λ parts. MeetsLimits parts) }
{
    match kind {
        Kind::File { name: _, parts } => Some(parts),
        _ => None,
    }
}

/// How many bytes the parts have together.
pub(crate) fn total_size(parts: &[Part]) -> u64
    requires { MeetsLimits parts.now }
    ensures { result ≡ total_size parts.now }
{
    let mut total = 0;
    for part in parts {
        total += part.size;
    }
    total
}
