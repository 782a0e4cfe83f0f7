//! A message, block by block, with its padding (FIPS 180-4, 5.1.1 and 5.2.1).
ghost use Rattle.std.specs.Prelude.{◌≡◌, ℕ, ◌+◌, ◌%◌, ◌<◌, ◌≤◌, length, slice_index};
ghost use Rattle.sha2.specs.Sha256.{word_at};
ghost use Rattle.sha_lanes.specs.Lanes.{AreRows, lane_at};
ghost use Rattle.sha_lanes.specs.Message.{IsTail, block_count, block_in, whole_blocks, with_tail};
ghost use Rattle.sha_lanes.specs.Schedules.{HasBlock, IsLine};

/// How many blocks a message of so many bytes has with its padding.
pub(crate) fn block_count(len: usize) -> usize
    ensures { result ≡ block_count len }
{
    let whole = len / 64;
    if len % 64 < 56 { whole + 1 } else { whole + 2 }
}

/// The blocks that the rest of a message has after its whole ones, with the padding in them. So many bytes are before
/// the rest.
pub(crate) fn tail_of(rest: &[u8], before: usize) -> [u8; 128]
    requires { before % 64 ≡ 0 }
    ensures { IsTail result rest.now before }
{
    let whole = rest.len() / 64;
    let last = &rest[64 * whole..];
    let mut tail = [0u8; 128];
    tail[..last.len()].copy_from_slice(last);
    tail[last.len()] = 0x80;
    let end = 64 * (block_count(rest.len()) - whole);
    // The padding has the length of the whole message.
    let bits = (before.wrapping_add(rest.len()) as u64).wrapping_mul(8);
    tail[end - 8..end].copy_from_slice(&bits.to_be_bytes());
    tail
}

/// Block `i` of the whole ones of a message and the two of its tail, and the last of these past it.
pub(crate) fn block_at<'a>(message: &'a [u8], tail: &'a [u8; 128], i: usize) -> &'a [u8]
    ensures long { length result.now ≡ 64 }
    ensures block { i < whole_blocks (length message.now) + 2
        → result.now ≡ block_in (with_tail message.now tail.now) i }
{
    let whole = message.len() / 64;
    if i < whole {
        &message[64 * i..64 * i + 64]
    } else if i == whole {
        &tail[..64]
    } else {
        &tail[64..]
    }
}

// The word at a place of a block.
#[inline(always)]
fn word_at(block: &[u8], at: usize) -> u32
    requires { at + 4 ≤ length block.now }
    ensures { result ≡ word_at block.now at }
{
    u32::from_be_bytes([block[at], block[at + 1], block[at + 2], block[at + 3]])
}

/// The words of a block.
#[inline(always)]
pub(crate) fn line_of(block: &[u8]) -> [u32; 16]
    requires { length block.now ≡ 64 }
    ensures { IsLine result block.now }
{
    let mut line = [0; 16];
    for k in 0..16 {
        line[k] = word_at(block, 4 * k);
    }
    line
}

/// Puts the words of four blocks into four lanes from `lane` on, row by row, so that the compiler makes one write of
/// each four words.
#[inline(always)]
pub(crate) fn put_four<const N: usize>(
    words: &mut [[u32; N]; 16],
    lane: usize,
    a: &[u8],
    b: &[u8],
    c: &[u8],
    d: &[u8],
)
    requires rows { AreRows N words.old }
    requires lane { lane + 4 ≤ N }
    requires a { length a.now ≡ 64 }
    requires b { length b.now ≡ 64 }
    requires c { length c.now ≡ 64 }
    requires d { length d.now ≡ 64 }
    ensures rows { AreRows N words.new }
    ensures a { HasBlock words.new lane a.now }
    ensures b { HasBlock words.new (lane + 1) b.now }
    ensures c { HasBlock words.new (lane + 2) c.now }
    ensures d { HasBlock words.new (lane + 3) d.now }
    ensures rest { (j : ℕ) → j < lane → (k : ℕ) → lane_at words.new k j ≡ lane_at words.old k j }
{
    for k in 0..16 {
        let at = 4 * k;
        let first = word_at(a, at);
        let second = word_at(b, at);
        let third = word_at(c, at);
        let fourth = word_at(d, at);
        words[k][lane] = first;
        words[k][lane + 1] = second;
        words[k][lane + 2] = third;
        words[k][lane + 3] = fourth;
    }
}

/// Puts the words of a block into a lane.
#[inline(always)]
pub(crate) fn put_line<const N: usize>(words: &mut [[u32; N]; 16], lane: usize, line: &[u32; 16])
    requires rows { AreRows N words.old }
    requires lane { lane < N }
    ensures rows { AreRows N words.new }
    ensures put { (k : ℕ) → k < 16 → lane_at words.new k lane ≡ slice_index line.now k }
    ensures rest { (j : ℕ) → j < N → ¬ (j ≡ lane) → (k : ℕ) → lane_at words.new k j ≡ lane_at words.old k j }
{
    for k in 0..16 {
        words[k][lane] = line[k];
    }
}
