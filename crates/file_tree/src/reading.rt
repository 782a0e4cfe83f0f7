//! A file is read to a sink, part by part, in the order of its bytes.
ghost use Rattle.std.specs.Prelude.{◌≡◌, ◌≤◌, ◌<◌, ◌+◌, ◌-◌, ℕ, length, take, drop, replicate, All, IfOk};
ghost use Rattle.std.specs.Option.{ForSome};
ghost use Rattle.schema_fact.specs.Limits.{IsShortPart};
ghost use Rattle.file_tree.specs.Walk.{walk, all_of, opened_blob};
ghost use Rattle.file_tree.specs.Fetching.{PartsRead, PartRead, IfAsked, Opens, Writes};
ghost use Rattle.file_tree.specs.Reading.{HasReadFile, HasRead, GivesSome, Gives, IsCaused, IsCausedBySink, Rests};

use crate::fault::FileFault;
use crate::opening::{open_blob, open_file, open_tree, total_size};
use crate::part_shelf::PartShelf;
use crate::zeros::{write_zeros, zeros};
use blobref::Ref;
use edge_base::{Failed, Shelf, Sink, write_all};
use schema_fact::{Origin, Part};
use std::alloc::Global;

// How deep trees may nest within a file.
const MAX_DEPTH: u32 = 63;

/// Writes a file's bytes to the sink, part by part, and answers their number (`docs/files.md`).
///
/// The refusals come in the order of the file's bytes, and after each the sink has exactly the bytes before it:
/// `Absent` for a blob that isn't there, `NotAFile` for one that should be a file, or within it a file or bytes blob,
/// `Short` for one that has fewer bytes than its part wants, `Deep` for a tree within 64 others. Only what is asked
/// for a byte is looked at. `WriteFault` and `Get(Disk)` come only where the count of faults of the sink or the shelf
/// rose, `Get(Damaged)` never where the shelf tells what it holds; after these and `NoMemory` the sink has a front of
/// the bytes. Nothing is put.
///
/// It holds one blob at a time, the part lists of the trees in which it is, at most 64 of them, and for a run of zeros
/// 65,536 bytes.
pub fn read_file<B: PartShelf, K: Sink>(
    alloc: Global,
    r: &Ref,
    shelf: &mut B,
    sink: &mut K,
) -> Result<u64, FileFault>
    ensures reads { HasReadFile B.Shelf shelf.old shelf.new (K.written sink.old) (K.written sink.new) r.now result }
    ensures gives { GivesSome (B.content shelf.old) (λ held. walk held r.now) result
        (K.written sink.old) (K.written sink.new) }
    ensures number { IfOk result (λ n. ForSome (B.content shelf.old) (λ held. n ≡ length (walk held r.now).bytes)) }
    ensures cause { IsCaused B.Shelf K.Sink shelf.old shelf.new sink.old sink.new result }
    ensures rests { Rests B.Shelf shelf.old shelf.new }
    ensures later { K.faults sink.old ≤ K.faults sink.new }
{
    let parts = open_file(alloc, shelf, r)?;
    let size = total_size(parts.as_slice());
    read_parts(alloc, shelf, sink, parts.as_slice(), 0, size, MAX_DEPTH)?;
    Ok(size)
}

// So many bytes of the parts from a place on.
#[cycle(reading)]
fn read_parts<B: PartShelf, K: Sink>(
    alloc: Global,
    shelf: &mut B,
    sink: &mut K,
    parts: &[Part],
    from: u64,
    count: u64,
    depth: u32,
) -> Result<(), FileFault>
    requires { All IsShortPart parts.now }
    ensures reads { HasRead B.Shelf shelf.old shelf.new (K.written sink.old) (K.written sink.new)
        (PartsRead (PartRead depth) parts.now from count) result }
    ensures cause { IsCaused B.Shelf K.Sink shelf.old shelf.new sink.old sink.new result }
    ensures rests { Rests B.Shelf shelf.old shelf.new }
    ensures later { K.faults sink.old ≤ K.faults sink.new }
{
    let mut at = from;
    let mut left = count;
    for (i, part) in parts.iter().enumerate() {
        shelf.look_ahead(&parts[i..], at, left);
        let here = left.min(part.size.saturating_sub(at));
        read_asked(alloc, shelf, sink, part, at, here, depth)?;
        at = at.saturating_sub(part.size);
        left -= here;
    }
    Ok(())
}

// So many bytes of a part from a place on, which is not looked at where they are none.
#[cycle(reading)]
fn read_asked<B: PartShelf, K: Sink>(
    alloc: Global,
    shelf: &mut B,
    sink: &mut K,
    part: &Part,
    from: u64,
    count: u64,
    depth: u32,
) -> Result<(), FileFault>
    requires short { IsShortPart part.now }
    requires within { count ≤ part.now.size - from }
    ensures reads { HasRead B.Shelf shelf.old shelf.new (K.written sink.old) (K.written sink.new)
        (IfAsked count (PartRead depth part.now from)) result }
    ensures cause { IsCaused B.Shelf K.Sink shelf.old shelf.new sink.old sink.new result }
    ensures rests { Rests B.Shelf shelf.old shelf.new }
    ensures later { K.faults sink.old ≤ K.faults sink.new }
{
    if count == 0 {
        return Ok(());
    }
    read_part(alloc, shelf, sink, part, from, count, depth)
}

#[cycle(reading)]
fn read_part<B: PartShelf, K: Sink>(
    alloc: Global,
    shelf: &mut B,
    sink: &mut K,
    part: &Part,
    from: u64,
    count: u64,
    depth: u32,
) -> Result<(), FileFault>
    requires short { IsShortPart part.now }
    requires within { from + count ≤ part.now.size }
    ensures reads { HasRead B.Shelf shelf.old shelf.new (K.written sink.old) (K.written sink.new)
        (PartRead depth part.now from count) result }
    ensures cause { IsCaused B.Shelf K.Sink shelf.old shelf.new sink.old sink.new result }
    ensures rests { Rests B.Shelf shelf.old shelf.new }
    ensures later { K.faults sink.old ≤ K.faults sink.new }
{
    let end = part.offset + part.size;
    let at = part.offset + from;
    match &part.origin {
        Origin::Zeros => read_zeros(alloc, sink, count),
        Origin::Blob(r) => read_blob(shelf, sink, r, end, at, count),
        Origin::Tree(r) => {
            let Some(depth) = depth.checked_sub(1) else {
                return Err(FileFault::Deep { r: *r });
            };
            let parts = open_tree(alloc, shelf, r, end)?;
            read_parts(alloc, shelf, sink, parts.as_slice(), at, count, depth)
        }
    }
}

fn read_zeros<K: Sink>(alloc: Global, sink: &mut K, count: u64) -> Result<(), FileFault>
    ensures gives { Gives (all_of (replicate count 0)) result (K.written sink.old) (K.written sink.new) }
    ensures cause { IsCausedBySink K.Sink sink.old sink.new result }
    ensures later { K.faults sink.old ≤ K.faults sink.new }
{
    let Ok(zeros) = zeros(alloc, count) else {
        return Err(FileFault::NoMemory);
    };
    match write_zeros(sink, &zeros, count) {
        Ok(()) => Ok(()),
        Err(Failed) => Err(FileFault::WriteFault),
    }
}

// So many bytes of a blob from a place on.
fn read_blob<B: Shelf, K: Sink>(
    shelf: &mut B,
    sink: &mut K,
    r: &Ref,
    end: u64,
    at: u64,
    count: u64,
) -> Result<(), FileFault>
    requires { at + count ≤ end }
    ensures reads { HasRead B.Shelf shelf.old shelf.new (K.written sink.old) (K.written sink.new)
        (Opens r.now (λ found. opened_blob found r.now end) (λ bytes. Writes (take count (drop at bytes)))) result }
    ensures cause { IsCaused B.Shelf K.Sink shelf.old shelf.new sink.old sink.new result }
    ensures rests { Rests B.Shelf shelf.old shelf.new }
    ensures later { K.faults sink.old ≤ K.faults sink.new }
{
    let bytes = open_blob(shelf, r, end)?;
    write_bytes(sink, bytes.as_slice(), at as usize, count as usize)
}

fn write_bytes<K: Sink>(
    sink: &mut K,
    bytes: &[u8],
    at: usize,
    count: usize,
) -> Result<(), FileFault>
    requires { at + count ≤ length bytes.now }
    ensures gives { Gives (all_of (take count (drop at bytes.now))) result (K.written sink.old) (K.written sink.new) }
    ensures cause { IsCausedBySink K.Sink sink.old sink.new result }
    ensures later { K.faults sink.old ≤ K.faults sink.new }
{
    match write_all(sink, &bytes[at..at + count]) {
        Ok(()) => Ok(()),
        Err(Failed) => Err(FileFault::WriteFault),
    }
}
