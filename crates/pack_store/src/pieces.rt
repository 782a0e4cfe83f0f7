//! A pack is read piece by piece, and what is found is taken up as it is found.
ghost use Rattle.std.specs.Prelude.{◌≡◌, ◌+◌, ◌≤◌, ◌<◌, ◌^◌, length, IfOk, OnOk, IsSome, Err};
ghost use Rattle.std.specs.Option.{ForSome};
ghost use Rattle.std.specs.FinMap.{get};
ghost use Rattle.edge_base.specs.Edge.{FaultsRose};
ghost use Rattle.pack_disk.specs.Runs.{Stays};
ghost use Rattle.pack_store.specs.Rows.{AreBytes};
ghost use Rattle.pack_store.specs.Calls.{ReadsPack};
ghost use Rattle.salvage_scan.specs.Pieces.{fed};
ghost use Rattle.pack_store.specs.Taking.{Feeds, TookPiece, EndsPack, TookPack};

use crate::opening::OpenFault;
use crate::takers::Taker;
use blobref::NoMemory;
use pack_disk::Disk;
use salvage_scan::{Clean, Scanner};
use std::alloc::Global;

// The most bytes that one read asks for, where nothing else is said. That many are read where records of some length
// follow one another, and 65,536 elsewhere (`Scanner::room`).
pub(crate) const PIECE: usize = 8_388_608;

// Whether a pack is clean, and how many bytes it has.
#[derive(Clone, Copy)]
pub(crate) struct Taken {
    pub(crate) clean: Clean,
    pub(crate) size: u64,
}

// Takes up what a pack holds, and reads at most so many bytes at once. It takes memory for the record at hand and for
// two pieces, of which one is read and one is kept behind the record.
pub(crate) fn take_pieces<D: Disk, T: Taker>(
    alloc: Global,
    disk: &mut D,
    pack: u32,
    piece: usize,
    taker: &mut T,
) -> Result<Taken, OpenFault>
    requires there { ForSome (D.packs disk.old) (λ held. IsSome (get held pack)) }
    requires some { 0 < piece }
    requires ready { T.ready taker.old }
    ensures took { IfOk result (TookPack T.Taker (D.packs disk.old)
        (λ bytes. ReadsPack D.Disk disk.old pack bytes disk.new) pack taker.old taker.new) }
    ensures stays { Stays D.Disk disk.old disk.new }
    ensures still { D.moment disk.new ≡ D.moment disk.old }
    ensures failed { result ≡ Err OpenFault.Disk → FaultsRose (D.faults disk.old) (D.faults disk.new) }
    ensures later { D.faults disk.old ≤ D.faults disk.new }
{
    let Ok(size) = disk.size(pack) else {
        return Err(OpenFault::Disk);
    };
    let mut scanner = Scanner::start(alloc)?;
    let mut space = Vec::new(alloc);
    let mut at = 0;
    'pieces: while at < size {
        let room = next_room(&scanner, piece, size - at);
        widen(alloc, &mut space, room)?;
        let buf = &mut space.as_mut_slice()[..room];
        let count = take_piece(disk, pack, at, buf, &mut scanner, taker)?;
        if count == 0 {
            let taken = take_end(scanner, at, taker)?;
            return Ok(taken);
        }
        at += count as u64;
    }
    let taken = take_end(scanner, at, taker)?;
    Ok(taken)
}

// How many bytes the next read asks for, where so many are left.
fn next_room(scanner: &Scanner, piece: usize, left: u64) -> usize
    requires piece { 0 < piece }
    requires left { 0 < left }
    ensures some { 0 < result }
    ensures within { result ≤ left }
{
    left.min(scanner.room().min(piece) as u64) as usize
}

// Makes space for so many bytes, where it has fewer.
fn widen(alloc: Global, space: &mut Vec<u8>, len: usize) -> Result<(), NoMemory>
    ensures { OnOk result (len ≤ length space.new.items) }
{
    if space.len() < len {
        *space = zeros(alloc, len)?;
    }
    Ok(())
}

// Reads the next piece of a pack, as long as the buffer at most, and takes up what it tells.
fn take_piece<D: Disk, T: Taker>(
    disk: &mut D,
    pack: u32,
    at: u64,
    buf: &mut [u8],
    scanner: &mut Scanner,
    taker: &mut T,
) -> Result<usize, OpenFault>
    requires there { ForSome (D.packs disk.old) (λ held. IsSome (get held pack)) }
    requires fits { fed scanner.old + length buf.old < 2 ^ 64 }
    requires ready { T.ready taker.old }
    ensures ready { OnOk result (T.ready taker.new) }
    ensures bound { IfOk result (λ count. count ≤ length buf.old) }
    ensures took { IfOk result (λ count. TookPiece T.Taker (D.packs disk.old)
        (λ piece. D.gives disk.old pack at (length buf.old) piece disk.new) pack at (length buf.old) count
        scanner.old scanner.new taker.old taker.new) }
    ensures stays { Stays D.Disk disk.old disk.new }
    ensures still { D.moment disk.new ≡ D.moment disk.old }
    ensures failed { result ≡ Err OpenFault.Disk → FaultsRose (D.faults disk.old) (D.faults disk.new) }
    ensures later { D.faults disk.old ≤ D.faults disk.new }
{
    let Ok(count) = disk.read(pack, at, buf) else {
        return Err(OpenFault::Disk);
    };
    feed(scanner, &buf[..count], taker)?;
    Ok(count)
}

// Takes up what a piece tells.
fn feed<T: Taker>(scanner: &mut Scanner, piece: &[u8], taker: &mut T) -> Result<(), NoMemory>
    requires fits { fed scanner.old + length piece.now < 2 ^ 64 }
    requires ready { T.ready taker.old }
    ensures ready { OnOk result (T.ready taker.new) }
    ensures feeds { OnOk result (Feeds T.Taker scanner.old piece.now scanner.new taker.old taker.new) }
    ensures octets { AreBytes piece.now }
{
    octets(piece);
    let found = scanner.feed(piece)?;
    taker.take(scanner, found.as_slice())?;
    Ok(())
}

// What a slice of bytes holds are bytes.
fn octets(piece: &[u8])
    ensures { AreBytes piece.now }
{
    // The contract of a call on the slice says that its items are bytes.
    let _count = piece.len();
}

// Takes up what is told at the end of a pack of this length.
fn take_end<T: Taker>(scanner: Scanner, size: u64, taker: &mut T) -> Result<Taken, NoMemory>
    requires { T.ready taker.old }
    ensures { IfOk result (EndsPack T.Taker scanner size taker.old taker.new) }
{
    let mut scanner = scanner;
    let (found, clean) = scanner.finish()?;
    taker.take(&scanner, found.as_slice())?;
    Ok(Taken { clean, size })
}

// So many zero bytes.
fn zeros(alloc: Global, len: usize) -> Result<Vec<u8>, NoMemory>
    ensures { IfOk result (λ bytes. length bytes.items ≡ len) }
{
    let bytes = vec![in alloc; 0; len]?;
    Ok(bytes)
}
