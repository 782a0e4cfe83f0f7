//! A disk in memory, and what crashes leave of it.
ghost use Rattle.std.specs.Prelude.{◌≡◌, ◌≢◌, ◌≤◌, ℕ, IfOk, IfSome, IsSome, None};
ghost use Rattle.std.specs.FinMap.{get};
ghost use Rattle.pack_disk.specs.Disk.{last_number};
ghost use Rattle.pack_disk.specs.Past.{told};

use crate::edges::failing;
use blobref::NoMemory;
use edge_base::{CallList, Failed};
use pack_disk::{Disk, MemDisk, disk_model};
use std::alloc::Global;
use std::test::Fail;

// A disk with one pack, whose bytes are durable.
pub(crate) fn synced(alloc: Global, pack: u32, bytes: &[u8]) -> Result<MemDisk, Failed>
    requires { pack ≤ last_number }
    ensures there { IfOk result (λ disk. IsSome (get (told disk.history) pack)) }
    ensures absent { IfOk result (λ disk. (n : ℕ) → n ≢ pack → get (told disk.history) n ≡ None) }
{
    let mut disk = MemDisk::empty(alloc, CallList::empty(alloc), u64::MAX);
    disk.make(pack)?;
    disk.append(pack, bytes)?;
    disk.sync(pack)?;
    Ok(disk)
}

// Three durable bytes of pack 2 and five more, and pack 4, of which nothing is durable.
fn written(alloc: Global) -> Result<MemDisk, Failed>
    ensures { IfOk result (λ disk. IsSome (get (told disk.history) 2)) }
{
    let mut disk = synced(alloc, 2, b"abc")?;
    disk.make(4)?;
    disk.append(4, b"x")?;
    disk.append(2, b"defgh")?;
    Ok(disk)
}

// Whether these are the bytes of pack 2 from a place on, four at most.
fn reads(disk: &mut MemDisk, at: u64, want: &[u8]) -> bool
    requires { IsSome (get (told disk.old.history) 2) }
    ensures { disk.new.history ≡ disk.old.history }
{
    let mut buf = [0; 4];
    match disk.read(2, at, &mut buf) {
        Ok(n) => &buf[..n] == want,
        Err(_) => false,
    }
}

// Whether pack 2 has eight bytes, and packs 2 and 4 are all there are.
fn tells(disk: &mut MemDisk) -> bool
    requires { IsSome (get (told disk.old.history) 2) }
{
    disk.size(2) == Ok(8)
        && disk.packs(0) == Ok(Some(2))
        && disk.packs(3) == Ok(Some(4))
        && disk.packs(5) == Ok(None)
        && disk.faults() == 0
}

#[test]
fn packs_are_read_as_written(rt: HostRuntime) -> Result<(), Failed> {
    let mut disk = written(rt.alloc())?;
    let read = reads(&mut disk, 1, b"bcde") && reads(&mut disk, 6, b"gh");
    let none = reads(&mut disk, 9, b"");
    assert!(rt; read && none && tells(&mut disk));
    disk_model();
    Ok(())
}

// Call 1 fails, and each from call 3 on.
#[test]
fn calls_fail_by_their_numbers(rt: HostRuntime) -> Result<(), NoMemory> {
    let alloc = rt.alloc();
    let mut disk = MemDisk::empty(alloc, failing(alloc, Some(1))?, 3);
    for (want, faults) in [
        (Ok(None), 0),
        (Err(Failed), 1),
        (Ok(None), 1),
        (Err(Failed), 2),
        (Err(Failed), 3),
    ] {
        assert!(rt; disk.packs(0) == want && disk.faults() == faults);
    }
    Ok(())
}

// The least pack number at or above one.
fn next_number(disk: &mut MemDisk, from: u32) -> Result<Option<u32>, Failed>
    ensures { IfOk result (λ o. IfSome o (λ n. IsSome (get (told disk.new.history) n))) }
{
    disk.packs(from)
}

// Whether there is a pack of this number with these bytes, or, where none are given, no pack from this number on.
pub(crate) fn holds(disk: &mut MemDisk, pack: u32, want: Option<&[u8]>) -> bool {
    let Ok(next) = next_number(disk, pack) else {
        return false;
    };
    let (Some(number), Some(bytes)) = (next, want) else {
        return next.is_none() && want.is_none();
    };
    let mut buf = [0; 256];
    match disk.read(number, 0, &mut buf) {
        Ok(n) => number == pack && &buf[..n] == bytes,
        Err(_) => false,
    }
}

// Whether a crash leaves these bytes of packs 2 and 4, of the latter maybe not even the pack, and a second one, which
// takes all that isn't durable, pack 2 as it was synced, and no other pack.
fn leaves(
    alloc: Global,
    choice: u64,
    synced: &[u8],
    unsynced: Option<&[u8]>,
) -> Result<bool, Fail> {
    let mut disk = written(alloc)?.crash(choice)?;
    let left = holds(&mut disk, 2, Some(synced)) && holds(&mut disk, 4, unsynced);
    let mut disk = disk.crash(1)?;
    Ok(left && holds(&mut disk, 2, Some(b"abc")) && holds(&mut disk, 3, None))
}

#[test]
fn crashes_leave_what_is_durable(rt: HostRuntime) -> Result<(), Fail> {
    for (choice, synced, unsynced) in [
        (0, b"abcdefgh".as_slice(), Some(b"x".as_slice())),
        (1, b"abc".as_slice(), None),
        (2, b"abcde".as_slice(), Some(b"".as_slice())),
        (3, b"abcd".as_slice(), Some(b"x".as_slice())),
        (4, b"abcdefg".as_slice(), Some(b"".as_slice())),
        (5, b"abc\0\0\0\0\0".as_slice(), Some(b"\0".as_slice())),
        (
            6,
            b"abc\x9e\x3c\xda\x78\x17".as_slice(),
            Some(b"\x9e".as_slice()),
        ),
        (7, b"abc[sha2".as_slice(), Some(b"[".as_slice())),
    ] {
        assert!(rt;
            leaves(rt.alloc(), choice, synced, unsynced)?,
            "choice {choice}"
        );
    }
    Ok(())
}
