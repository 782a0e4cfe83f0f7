//! Which packs a folder has.
ghost use Rattle.std.specs.Prelude.{◌≤◌, IfOk, IfSome};
ghost use Rattle.pack_disk.specs.Disk.{last_number};

use std::collections::BTreeSet;
use std::fs::{self, DirEntry};
use std::io::{self, ErrorKind};

// Packs are numbered up to this.
const LAST_NUMBER: u32 = 99_999;

/// The numbers of the packs in a folder. It is read from one end to the other.
pub(crate) fn pack_numbers(rt: &HostRuntime, folder: &str) -> io::Result<BTreeSet<u32>> {
    let mut numbers = BTreeSet::new(rt.alloc());
    for entry in fs::read_dir(rt, folder)? {
        if let Some(number) = number_of(entry)? {
            numbers.insert(number)?;
        }
    }
    Ok(numbers)
}

/// The least number of a pack at or above `from`.
pub(crate) fn least_from(numbers: &BTreeSet<u32>, from: u32) -> Option<u32>
    ensures range { IfSome result (λ n. (from ≤ n) × (n ≤ last_number)) }
{
    if from > LAST_NUMBER {
        return None;
    }
    numbers.range(from..=LAST_NUMBER).next().copied()
}

// The number of the pack that an entry of the folder is, if it is one. A name that is no text is none.
fn number_of(entry: io::Result<DirEntry>) -> io::Result<Option<u32>> {
    match entry {
        Ok(entry) => Ok(pack_number(entry.file_name())),
        Err(error) if error.kind() == ErrorKind::InvalidFilename => Ok(None),
        Err(error) => Err(error),
    }
}

// The number in the name of a pack.
fn pack_number(name: &str) -> Option<u32> {
    let digits = name.strip_prefix("pack-")?.strip_suffix(".blobs")?;
    if digits.len() != 5 || !digits.bytes().all(|b| b.is_ascii_digit()) {
        return None;
    }
    digits.parse().ok()
}
