//! The least number that isn't among some.
ghost use Rattle.std.specs.Prelude.{◌≡◌, ◌<◌, ◌≤◌, ◌+◌, length, IfOk, replicate};
ghost use Rattle.peer_requests.specs.Boundaries.{IsLeastAbsent};
ghost use Rattle.peer_requests.specs.Flags.{marked, zeros, IsFirstZero};

use blobref::NoMemory;
use memchr::memchr;
use std::alloc::{AllocError, Global};

/// The least number that isn't listed. It takes memory only where some are listed, a byte for each, and the time of one
/// walk over the list.
pub(crate) fn least_absent(alloc: Global, numbers: &[u32]) -> Result<usize, NoMemory>
    ensures { IfOk result (λ n. IsLeastAbsent numbers.now n) }
{
    if numbers.is_empty() {
        return Ok(0);
    }
    let mut space = unmarked(alloc, numbers.len() + 1)?;
    let flags = space.as_mut_slice();
    for number in numbers {
        mark(flags, *number as usize);
    }
    Ok(first_unmarked(flags))
}

// So many numbers, none of them marked.
fn unmarked(alloc: Global, len: usize) -> Result<Vec<u8>, AllocError>
    ensures { IfOk result (λ flags. flags.items ≡ replicate len 0) }
{
    vec![in alloc; 0; len]
}

// Marks a number, where there is room for it.
fn mark(flags: &mut [u8], number: usize)
    ensures { flags.new ≡ marked number flags.old }
{
    if number < flags.len() {
        flags[number] = 1;
    }
}

// The first number that isn't marked.
fn first_unmarked(flags: &[u8]) -> usize
    requires { 0 < zeros flags.now }
    ensures { IsFirstZero flags.now result }
{
    match memchr(0, flags) {
        Some(number) => number,
        None => unreachable!(),
    }
}
