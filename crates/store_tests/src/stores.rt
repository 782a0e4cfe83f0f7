//! Stores on a disk in memory: what is put and read, and what outlives crashes.
ghost use Rattle.std.specs.Prelude.{◌<◌};
ghost use Rattle.pack_store.specs.Archive.{AreLimits};

use crate::disks::{holds, synced};
use crate::edges::failing;
use crate::names::{ABC, EMPTY, OLDER_ABC, OLDER_EMPTY, named};
use blobref::{NoMemory, Ref, RefList};
use edge_base::{CallList, Put, PutFault};
use pack_disk::MemDisk;
use pack_store::{
    Limits, Onlooker, OpenFault, Store, holds_content, lives_keep, puts_last, scan_pack,
};
use salvage_scan::{Clean, Found, FoundList, Scanner};
use std::alloc::Global;
use std::test::Fail;

// The digests of 16,777,216 bytes 0 and of one more, by another program.
const LARGEST: &str = "sha224-bdd5a834fdbd387aee8c5c5ad219ab71f2dd1b7c88693bd1741a3d4d";

const TOO_BIG: &str = "sha224-905a64e1e08fef7dacda1de723a93c300ca0d6f0c726b579fa42a453";

// Digits under their refs, by another program.
const DIGITS: &str = "sha224-dfd5f9139a820075df69d7895015360b76d0360f3d4b77a845689614 0
sha224-e25388fde8290dc286a6164fa2d97e551b53498dcbf7bc378eb1f178 1
sha224-58b2aaa0bfae7acc021b3260e941117b529b2e69de878fd7d45c61a9 2
sha224-4cfc3a1811fe40afa401b25ef7fa0379f1f7c1930a04f8755d678474 3
sha224-271f93f45e9b4067327ed5c8cd30a034730aaace4382803c3e1d6c2f 4
sha224-b51d18b551043c1f145f22dbde6f8531faeaf68c54ed9dd79ce24d17 5
sha224-31da1a042dc910775ed8b487afbdafd929a7afdeaadc660cb963bd26 6
sha224-56929c1607626a1edbdaafb9c7f10c247e54fcbb20f1e3260f783011 7
sha224-525ab75c928c6fac98a0f62e4da5316b7247ccd704c967ef9142925c 8
sha224-192f56eb9bd894a72b30c303247b107be2c4591f310dd69a67927f48 9";

// The record of `abc`.
const ABC_RECORD: &[u8] = b"[sha224-23097d223405d8228642a477bda255b32aadbce4bda0b3f7e36c9da7 3]abc";

// The record of `abc`, and one byte.
const ABC_AND_MORE: &[u8] =
    b"[sha224-23097d223405d8228642a477bda255b32aadbce4bda0b3f7e36c9da7 3]abcx";

// Both records, that of `abc` first.
const BOTH_RECORDS: &[u8] =
    b"[sha224-23097d223405d8228642a477bda255b32aadbce4bda0b3f7e36c9da7 3]abc[sha224-d14a028c2a3a2bc9476102bb288234c415a2b01f828ea62ac5b3e42f 0]";

// `abc` under the name that older stores give it, and then under the other one.
const UNDER_BOTH_NAMES: &[u8] =
    b"[sha1-a9993e364706816aba3e25717850c26c9cd0d89d 3]abc[sha224-23097d223405d8228642a477bda255b32aadbce4bda0b3f7e36c9da7 3]abc";

// The first of these with another byte.
const OTHER_BYTES: &[u8] =
    b"[sha1-a9993e364706816aba3e25717850c26c9cd0d89d 3]abd[sha224-23097d223405d8228642a477bda255b32aadbce4bda0b3f7e36c9da7 3]abc";

// The record of no bytes.
const EMPTY_RECORD: &[u8] = b"[sha224-d14a028c2a3a2bc9476102bb288234c415a2b01f828ea62ac5b3e42f 0]";

// Room for all that is put here, in one pack.
const WIDE: Limits = Limits {
    blobs: 100,
    pack_bytes: 1_000_000_000,
    last_pack: 99_999,
};

// Three records of one byte fill a pack.
const NARROW: Limits = Limits {
    blobs: 100,
    pack_bytes: 150,
    last_pack: 99_999,
};

// One blob.
const ONE_BLOB: Limits = Limits {
    blobs: 1,
    pack_bytes: 1_000,
    last_pack: 9,
};

// One pack, which one record fills.
const ONE_PACK: Limits = Limits {
    blobs: 9,
    pack_bytes: 1,
    last_pack: 0,
};

// Opens a store.
fn opened(alloc: Global, disk: MemDisk, limits: Limits) -> Result<Store<MemDisk>, OpenFault>
    requires { AreLimits limits }
{
    match Store::open_on(alloc, disk, limits) {
        Ok(store) => Ok(store),
        Err((_, fault)) => Err(fault),
    }
}

// The ref that is said, the bytes, and what is answered.
type PutRow<'a> = (&'a str, &'a [u8], Result<Put, PutFault>);

// Whether a store answers these puts so, one after another.
fn answers(store: &mut Store<MemDisk>, puts: &[PutRow]) -> bool {
    for (said, bytes, want) in puts {
        if store.put(&named(said), bytes) != *want {
            return false;
        }
    }
    true
}

// Whether a store on this disk answers these puts so, with so many faults, and these are its packs 0 and 1 then.
fn leaves(
    alloc: Global,
    disk: MemDisk,
    limits: Limits,
    puts: &[PutRow],
    faults: u64,
    packs: [Option<&[u8]>; 2],
) -> Result<bool, Fail>
    requires { AreLimits limits }
{
    let mut store = opened(alloc, disk, limits)?;
    let answered = answers(&mut store, puts) && store.faults() == faults;
    let mut disk = store.give_back();
    Ok(answered && holds(&mut disk, 0, packs[0]) && holds(&mut disk, 1, packs[1]))
}

// A ref that is false.
#[test]
fn false_refs_are_refused(rt: HostRuntime) -> Result<(), Fail> {
    let alloc = rt.alloc();
    let disk = MemDisk::empty(alloc, CallList::empty(alloc), u64::MAX);
    let refused = PutFault::BadDigest {
        said: named(EMPTY),
        is: named(ABC),
    };
    let puts = [(EMPTY, b"abc".as_slice(), Err(refused))];
    assert!(rt; leaves(alloc, disk, WIDE, &puts, 0, [None, None])?);
    Ok(())
}

// `abc` is stored under either name, once under each. What is refused carries the ref of the bytes under the digest
// that was said.
#[test]
fn both_names_of_a_blob(rt: HostRuntime) -> Result<(), Fail> {
    let alloc = rt.alloc();
    let disk = MemDisk::empty(alloc, CallList::empty(alloc), u64::MAX);
    let refused = PutFault::BadDigest {
        said: named(OLDER_ABC),
        is: named(OLDER_EMPTY),
    };
    let puts = [
        (OLDER_ABC, b"".as_slice(), Err(refused)),
        (OLDER_ABC, b"abc".as_slice(), Ok(Put::Stored { number: 0 })),
        (ABC, b"abc".as_slice(), Ok(Put::Stored { number: 1 })),
        (OLDER_ABC, b"abc".as_slice(), Ok(Put::Already { number: 0 })),
    ];
    let packs = [Some(UNDER_BOTH_NAMES), None];
    assert!(rt; leaves(alloc, disk, WIDE, &puts, 0, packs)?);
    let mut store = opened(alloc, synced(alloc, 0, UNDER_BOTH_NAMES)?, WIDE)?;
    let read = reads(&mut store, &named(OLDER_ABC), b"abc");
    let both = [(named(OLDER_ABC), 3), (named(ABC), 3)];
    assert!(rt; read && lists(&store, None, 9, &both));
    Ok(())
}

// The store has room for `abc` alone, for its blobs or for its packs.
#[test]
fn stores_are_full(rt: HostRuntime) -> Result<(), Fail> {
    let alloc = rt.alloc();
    let full = PutFault::Full { blobs: 1, pack: 0 };
    let puts = [
        (ABC, b"abc".as_slice(), Ok(Put::Stored { number: 0 })),
        (EMPTY, b"".as_slice(), Err(full)),
        (ABC, b"abc".as_slice(), Ok(Put::Already { number: 0 })),
    ];
    let packs = [Some(ABC_RECORD), None];
    let disk = MemDisk::empty(alloc, CallList::empty(alloc), u64::MAX);
    assert!(rt; leaves(alloc, disk, ONE_BLOB, &puts, 0, packs)?);
    let disk = MemDisk::empty(alloc, CallList::empty(alloc), u64::MAX);
    assert!(rt; leaves(alloc, disk, ONE_PACK, &puts, 0, packs)?);
    Ok(())
}

// The calls are `packs`, `make`, `append` and `sync`, and the last of them fails.
#[test]
fn packs_are_left_after_a_fault(rt: HostRuntime) -> Result<(), Fail> {
    let alloc = rt.alloc();
    let disk = MemDisk::empty(alloc, failing(alloc, Some(3))?, u64::MAX);
    let puts = [
        (EMPTY, b"".as_slice(), Err(PutFault::Disk)),
        (EMPTY, b"".as_slice(), Ok(Put::Stored { number: 0 })),
    ];
    let packs = [Some(EMPTY_RECORD), Some(EMPTY_RECORD)];
    assert!(rt; leaves(alloc, disk, WIDE, &puts, 1, packs)?);
    Ok(())
}

// The pack ends after each byte of its last record but the last one.
#[test]
fn torn_packs_are_left(rt: HostRuntime) -> Result<(), Fail> {
    let alloc = rt.alloc();
    let puts = [
        (ABC, b"abc".as_slice(), Ok(Put::Already { number: 0 })),
        (EMPTY, b"".as_slice(), Ok(Put::Stored { number: 1 })),
    ];
    for size in 71..137 {
        let torn = &BOTH_RECORDS[..size];
        let disk = synced(alloc, 0, torn)?;
        let packs = [Some(torn), Some(EMPTY_RECORD)];
        assert!(rt; leaves(alloc, disk, WIDE, &puts, 0, packs)?, "{size} bytes");
    }
    Ok(())
}

// So many bytes 0.
fn zeros(alloc: Global, size: usize) -> Result<Vec<u8>, NoMemory> {
    let Ok(bytes) = vec![in alloc; 0u8; size] else {
        return Err(NoMemory);
    };
    Ok(bytes)
}

// A blob that is too big is refused, also under a false ref.
#[test]
fn blobs_have_a_greatest_size(rt: HostRuntime) -> Result<(), Fail> {
    let alloc = rt.alloc();
    let disk = MemDisk::empty(alloc, CallList::empty(alloc), u64::MAX);
    let mut store = opened(alloc, disk, WIDE)?;
    let bytes = zeros(alloc, 16_777_217)?;
    let largest = bytes.get(1..).unwrap_or(b"");
    let size = 16_777_217;
    let puts = [
        (TOO_BIG, bytes.as_slice(), Err(PutFault::TooBig { size })),
        (ABC, bytes.as_slice(), Err(PutFault::TooBig { size })),
        (LARGEST, largest, Ok(Put::Stored { number: 0 })),
    ];
    assert!(rt; answers(&mut store, &puts));
    Ok(())
}

// Whether a blob is read back with these bytes.
fn reads(store: &mut Store<MemDisk>, r: &Ref, want: &[u8]) -> bool {
    match store.get(r) {
        Ok(Some(bytes)) => bytes.as_slice() == want,
        _ => false,
    }
}

// Whether the arrival of a number has this ref and these bytes.
fn arrives(store: &mut Store<MemDisk>, number: u64, r: &Ref, want: &[u8]) -> bool {
    match store.arrival(number) {
        Ok(Some((name, bytes))) => name == *r && bytes.as_slice() == want,
        _ => false,
    }
}

// Whether `abc` is stored once, and read back, and no other blob is there.
fn abc_is_stored(store: &mut Store<MemDisk>) -> bool {
    let (empty, abc) = (named(EMPTY), named(ABC));
    let puts = [
        (ABC, b"abc".as_slice(), Ok(Put::Stored { number: 0 })),
        (ABC, b"abc".as_slice(), Ok(Put::Already { number: 0 })),
    ];
    answers(store, &puts)
        && store.count() == 1
        && arrives(store, 0, &abc, b"abc")
        && reads(store, &abc, b"abc")
        && matches!(store.get(&empty), Ok(None))
        && matches!(store.arrival(1), Ok(None))
        && store.stat(&abc) == Some(3)
        && store.stat(&empty) == None
}

// Whether these are the refs behind one, or from the first on, so many at most, with the sizes of their blobs.
fn lists(store: &Store<MemDisk>, after: Option<&Ref>, limit: usize, want: &[(Ref, u64)]) -> bool {
    match store.list(after, limit) {
        Ok(listing) => listing.as_slice() == want,
        Err(_) => false,
    }
}

// Whether both are listed. The ref of `abc` is the lesser one.
fn both_are_listed(store: &Store<MemDisk>) -> bool {
    let (empty, abc) = (named(EMPTY), named(ABC));
    lists(store, None, 9, &[(abc, 3), (empty, 0)])
        && lists(store, None, 1, &[(abc, 3)])
        && lists(store, Some(&abc), 9, &[(empty, 0)])
}

#[test]
fn blobs_are_put_and_read(rt: HostRuntime) -> Result<(), Fail> {
    let alloc = rt.alloc();
    let disk = MemDisk::empty(alloc, CallList::empty(alloc), u64::MAX);
    let mut store = opened(alloc, disk, WIDE)?;
    let first = abc_is_stored(&mut store);
    let second = store.put_own(&Ref::of(b""), b"") == Ok(Put::Stored { number: 1 });
    let listed = both_are_listed(&store);
    store.arrivals_are_held();
    let mut disk = store.give_back();
    assert!(rt; first && second && listed && holds(&mut disk, 0, Some(BOTH_RECORDS)));
    holds_content();
    lives_keep::<MemDisk>();
    puts_last::<MemDisk>();
    Ok(())
}

// Whether a scan of a pack with these bytes finds so, and tells so whether it is clean, also where they come in pieces.
fn scans(alloc: Global, bytes: &[u8], found: &[Found], clean: Clean) -> Result<bool, Fail> {
    let mut disk = synced(alloc, 0, bytes)?;
    let scan = scan_pack(alloc, &mut disk, 0)?;
    let whole = scan.found.as_slice() == found
        && scan.clean == clean
        && scan.size == bytes.len() as u64;
    Ok(
        whole
            && tells(alloc, bytes, 1, found, clean)?
            && tells(alloc, bytes, 2, found, clean)?
            && tells(alloc, bytes, 73, found, clean)?
            && tells(alloc, bytes, 65_536, found, clean)?,
    )
}

// Whether a scanner tells so that is fed the bytes in pieces of so many.
fn tells(
    alloc: Global,
    bytes: &[u8],
    size: usize,
    found: &[Found],
    clean: Clean,
) -> Result<bool, NoMemory> {
    let told = scan_by(alloc, bytes, size)?;
    Ok(told.0.as_slice() == found && told.1 == clean)
}

// What a scanner tells that is fed the bytes in pieces of so many.
fn scan_by(alloc: Global, bytes: &[u8], size: usize) -> Result<(FoundList, Clean), NoMemory> {
    let mut scanner = Scanner::start(alloc)?;
    let mut found = FoundList::empty(alloc);
    let mut at = 0;
    'pieces: while at < bytes.len() {
        let count = size.max(1).min(bytes.len() - at);
        add_all(&mut found, &scanner.feed(&bytes[at..at + count])?)?;
        at += count;
    }
    let (rest, clean) = scanner.end()?;
    add_all(&mut found, &rest)?;
    Ok((found, clean))
}

fn add_all(found: &mut FoundList, more: &FoundList) -> Result<(), NoMemory> {
    for f in more.as_slice() {
        found.push(*f)?;
    }
    Ok(())
}

// `abc` as it is found under a ref, from a place on.
fn abc_at(name: &str, at: u64) -> Found {
    Found {
        r: named(name),
        at,
        size: 3,
    }
}

// A scan finds each record, and the first byte that belongs to nothing.
#[test]
fn packs_are_scanned(rt: HostRuntime) -> Result<(), Fail> {
    let alloc = rt.alloc();
    let one = [abc_at(ABC, 67)];
    assert!(rt; scans(alloc, ABC_AND_MORE, &one, Clean::No { at: 70 })?);
    let both = [abc_at(OLDER_ABC, 49), abc_at(ABC, 119)];
    assert!(rt; scans(alloc, UNDER_BOTH_NAMES, &both, Clean::Yes)?);
    let second = [abc_at(ABC, 119)];
    assert!(rt; scans(alloc, OTHER_BYTES, &second, Clean::No { at: 0 })?);
    Ok(())
}

// Opens a store on a disk, puts each digit, lists those that were acknowledged, also as there before, and gives the
// disk back.
fn put_digits(
    alloc: Global,
    disk: MemDisk,
    acknowledged: &mut RefList,
) -> Result<MemDisk, NoMemory> {
    let mut store = match Store::open_on(alloc, disk, NARROW) {
        Ok(store) => store,
        Err((disk, _)) => return Ok(disk),
    };
    for line in DIGITS.lines() {
        let (name, digit) = line.split_once(' ').unwrap_or(("", ""));
        let r = named(name);
        if store.put(&r, digit.as_bytes()).is_ok() {
            acknowledged.push(r)?;
        }
    }
    Ok(store.give_back())
}

// Whether a store has each of these digits, and takes another blob.
fn goes_on(store: &mut Store<MemDisk>, acknowledged: &[Ref]) -> bool {
    for line in DIGITS.lines() {
        let (name, digit) = line.split_once(' ').unwrap_or(("", ""));
        let r = named(name);
        if acknowledged.contains(&r) && !reads(store, &r, digit.as_bytes()) {
            return false;
        }
    }
    let number = store.count();
    store.put(&named(ABC), b"abc") == Ok(Put::Stored { number })
}

// Counts the bytes of the blobs that it is shown.
#[derive(Clone, Copy)]
struct Witness {
    bytes: u64,
}

impl Onlooker for Witness {
    ghost saw = { λ witness seen. Unit {0} };

    fn see(&mut self, _r: &Ref, bytes: &[u8]) -> Result<(), NoMemory> {
        self.bytes = self.bytes.saturating_add(bytes.len() as u64);
        Ok(())
    }
}

// Opens a store of blobs of one byte in pieces of so many bytes, and says whether each blob was shown.
fn opened_by(
    alloc: Global,
    disk: MemDisk,
    piece: usize,
) -> Result<(Store<MemDisk>, bool), OpenFault>
    requires { 0 < piece }
{
    match Store::open_watched(alloc, disk, NARROW, piece, Witness { bytes: 0 }) {
        Ok((store, witness)) => {
            let shown = witness.bytes == store.count();
            Ok((store, shown))
        }
        Err((_, fault)) => Err(fault),
    }
}

// How many bytes are read at a time, by the number of a crash.
fn piece_of(choice: u64) -> usize
    ensures { 0 < result }
{
    match choice % 4 {
        0 => 1,
        1 => 2,
        2 => 73,
        _ => 65_536,
    }
}

// Whether so many digits are acknowledged on a disk, and are there after a crash.
fn outlives(alloc: Global, disk: MemDisk, choice: u64, want: usize) -> Result<bool, Fail> {
    let mut acknowledged = RefList::empty(alloc);
    let disk = put_digits(alloc, disk, &mut acknowledged)?;
    let (mut store, shown) = opened_by(alloc, disk.crash(choice)?, piece_of(choice))?;
    Ok(shown && acknowledged.len() == want && goes_on(&mut store, acknowledged.as_slice()))
}

// How many digits are acknowledged by a disk that stops at its call 0, 1, .. 25. The first call is `packs`. Each
// digit takes `append` and `sync`, and before those of the first, fourth, seventh and tenth comes `make`.
const ACKNOWLEDGED: &[usize; 26] = &[
    0, 0, 0, 0, 1, 1, 2, 2, 3, 3, 3, 4, 4, 5, 5, 6, 6, 6, 7, 7, 8, 8, 9, 9, 9, 10,
];

// Then all digits are put on what a crash has left, and a second crash takes all that isn't durable.
#[test]
fn acknowledged_blobs_outlive_crashes(rt: HostRuntime) -> Result<(), Fail> {
    let alloc = rt.alloc();
    for (stop, want) in ACKNOWLEDGED.iter().enumerate() {
        for choice in 0..8 {
            let disk = MemDisk::empty(alloc, CallList::empty(alloc), stop as u64);
            assert!(rt;
                outlives(alloc, disk, choice, *want)?,
                "call {stop}, choice {choice}"
            );
            let disk = MemDisk::empty(alloc, CallList::empty(alloc), stop as u64);
            let disk = put_digits(alloc, disk, &mut RefList::empty(alloc))?.crash(choice)?;
            assert!(rt;
                outlives(alloc, disk, 1, 10)?,
                "call {stop}, choice {choice}, twice"
            );
        }
    }
    Ok(())
}
