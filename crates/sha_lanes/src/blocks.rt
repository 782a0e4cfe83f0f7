//! The compression function (FIPS 180-4, 6.2.2) over several blocks of one message, one after the other.
ghost use Rattle.std.specs.Prelude.{◌≡◌, ℕ, List, ◌+◌, ◌/◌, ◌%◌, ◌<◌, ◌≤◌, ◌^◌, length};
ghost use Rattle.sha2.specs.Sha256.{hash_after};
ghost use Rattle.sha_lanes.specs.Hashing.{IsHashAfter};
ghost use Rattle.sha_lanes.specs.Message.{padded_rest};

use crate::message::{block_at, block_count, line_of, put_line, tail_of};
use crate::rounds::compress;
use crate::schedule::schedule_of;

// Hashes so many blocks, from block `at` on: their schedules side by side, and then the rounds of one after the other.
#[inline(never)]
fn hash_run<const N: usize>(
    state: &mut [u32; 8],
    message: &[u8],
    tail: &[u8; 128],
    at: usize,
    blocks: usize,
)
    requires width { N ≤ 8 }
    requires few { blocks ≤ N }
    requires place { at + blocks < 2 ^ 64 }
    ensures { (h : List ℕ) → IsHashAfter h message.now tail.now state.old at
        → IsHashAfter h message.now tail.now state.new (at + blocks) }
{
    let mut words = [[0; N]; 16];
    'load: for lane in 0..blocks {
        let line = line_of(block_at(message, tail, at + lane));
        put_line(&mut words, lane, &line);
    }
    let words = schedule_of(&words);
    'lanes: for lane in 0..blocks {
        compress(state, &words, lane);
    }
}

// The same, with no more lanes than so many blocks are worth.
fn hash_some(state: &mut [u32; 8], message: &[u8], tail: &[u8; 128], at: usize, blocks: usize)
    requires few { blocks ≤ 8 }
    requires place { at + blocks < 2 ^ 64 }
    ensures { (h : List ℕ) → IsHashAfter h message.now tail.now state.old at
        → IsHashAfter h message.now tail.now state.new (at + blocks) }
{
    if blocks <= 1 {
        hash_run::<1>(state, message, tail, at, blocks)
    } else if blocks <= 4 {
        hash_run::<4>(state, message, tail, at, blocks)
    } else {
        hash_run::<8>(state, message, tail, at, blocks)
    }
}

/// Hashes so many of the whole blocks of a message and the two of its tail, from block `at` on.
pub(crate) fn hash_blocks(
    state: &mut [u32; 8],
    message: &[u8],
    tail: &[u8; 128],
    at: usize,
    blocks: usize,
)
    requires { at + blocks < 2 ^ 64 }
    ensures { (h : List ℕ) → IsHashAfter h message.now tail.now state.old at
        → IsHashAfter h message.now tail.now state.new (at + blocks) }
{
    let mut next = at;
    let mut left = blocks;
    'runs: while left > 0 {
        let run = left.min(8);
        hash_some(state, message, tail, next, run);
        next += run;
        left -= run;
    }
}

/// Runs the compression function of SHA-256 (FIPS 180-4, 6.2.2) over whole blocks of 64 bytes, one after the other, and
/// leaves in `state` the hash value after them. It takes no memory, some 8 kB of stack, and the time of `sha224` for as
/// many blocks.
pub fn compress_blocks(state: &mut [u32; 8], blocks: &[u8])
    requires whole { length blocks.now % 64 ≡ 0 }
    ensures { state.new ≡ hash_after state.old blocks.now (length blocks.now / 64) }
{
    // A tail of which no block is hashed.
    hash_blocks(state, blocks, &[0; 128], 0, blocks.len() / 64);
}

/// Runs the compression function of SHA-256 over the rest of a message and the padding of the whole message (FIPS 180-4,
/// 5.1.1), and leaves in `state` the hash value of the message. `before` bytes, which are whole blocks, are before the
/// rest, and `state` is the hash value after them. It takes no memory, some 8 kB of stack, and the time of `sha224` for
/// the rest.
pub fn compress_rest(state: &mut [u32; 8], rest: &[u8], before: usize)
    requires whole { before % 64 ≡ 0 }
    ensures { state.new ≡ hash_after state.old (padded_rest before rest.now) (length (padded_rest before rest.now) / 64) }
{
    let tail = tail_of(rest, before);
    hash_blocks(state, rest, &tail, 0, block_count(rest.len()));
}
