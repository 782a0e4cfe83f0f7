//! Marks, which are delimiters and the close: what begins at a place of a body, and the first place at which one does.
ghost use Rattle.std.specs.Prelude.{◌≡◌, ◌+◌, ◌<◌, ◌≤◌, ◌^◌, ◌==◌, length, slice_index};
ghost use Rattle.std.specs.List.{position_or_len};
ghost use Rattle.multipart_read.specs.Marks.{is_pad, mark_from, mark_behind, first_mark, Lies};
ghost use Rattle.multipart_read.specs.Marks.{after_dash, after_pad, after_return};

use crate::limits::MAX_PAD;
use memchr::memchr;

/// Which mark begins at a place.
#[derive(Clone, Copy)]
pub enum Mark {
    /// No delimiter and no close, whatever follows.
    Absent,
    /// The bytes end before that is known.
    Undecided,
    /// A delimiter of so many bytes.
    Delimiter(usize),
    /// The close, of so many bytes.
    Close(usize),
}

/// How many bytes surely stand before the first mark, which begins, or may begin, behind them.
#[derive(Clone, Copy)]
pub struct Sight {
    pub sure: usize,
    pub mark: Mark,
}

fn is_pad(byte: u8) -> bool
    ensures { result ≡ is_pad byte }
{
    byte == b' ' || byte == b'\t'
}

fn after_return(taken: usize, bytes: &[u8]) -> Mark
    requires { taken + length bytes.now < 2 ^ 64 }
    ensures { result ≡ after_return taken bytes.now }
{
    match bytes {
        [] => Mark::Undecided,
        [b'\n', ..] => Mark::Delimiter(taken + 1),
        _ => Mark::Absent,
    }
}

fn after_dash(taken: usize, bytes: &[u8]) -> Mark
    requires { taken + length bytes.now < 2 ^ 64 }
    ensures { result ≡ after_dash taken bytes.now }
{
    match bytes {
        [] => Mark::Undecided,
        [b'-', ..] => Mark::Close(taken + 1),
        _ => Mark::Absent,
    }
}

fn after_pad(left: u8, taken: usize, bytes: &[u8]) -> Mark
    requires { taken + length bytes.now < 2 ^ 64 }
    ensures { result ≡ after_pad left taken bytes.now }
{
    if bytes.is_empty() {
        return Mark::Undecided;
    }
    if bytes[0] == b'\r' {
        return after_return(taken + 1, &bytes[1..]);
    }
    if left == 0 {
        return Mark::Absent;
    }
    if !is_pad(bytes[0]) {
        return Mark::Absent;
    }
    after_pad(left - 1, taken + 1, &bytes[1..])
}

#[tactic(auto, unfolding(crate::specs::Marks::mark_behind))]
fn mark_behind(taken: usize, bytes: &[u8]) -> Mark
    requires { taken + length bytes.now < 2 ^ 64 }
    ensures { result ≡ mark_behind taken bytes.now }
{
    match bytes {
        [] => Mark::Undecided,
        [b'-', rest @ ..] => after_dash(taken + 1, rest),
        _ => after_pad(MAX_PAD, taken, bytes),
    }
}

/// The mark at the front of these bytes: `start` is CR LF, `--` and the boundary.
fn mark_at(start: &[u8], bytes: &[u8]) -> Mark
    ensures { result ≡ mark_from 0 start.now bytes.now }
{
    for i in 0..start.len() {
        if i >= bytes.len() {
            return Mark::Undecided;
        }
        if bytes[i] != start[i] {
            return Mark::Absent;
        }
    }
    mark_behind(start.len(), &bytes[start.len()..])
}

/// How many bytes stand before the first CR, or how many there are.
fn before_return(bytes: &[u8]) -> usize
    ensures value { result ≡ position_or_len (λ x. x == 13) bytes.now }
    ensures within { result ≤ length bytes.now }
{
    memchr(b'\r', bytes).unwrap_or(bytes.len())
}

/// The first place at which a mark begins or may begin. The bytes are looked at once, since `start` has one CR.
pub fn first_mark(start: &[u8], bytes: &[u8]) -> Sight
    requires starts { slice_index start.now 0 ≡ 13 }
    requires some { 0 < length start.now }
    ensures value { result ≡ first_mark start.now bytes.now }
    ensures lies { Lies (length start.now + 17) (length bytes.now) result.sure result.mark }
{
    let mut at = before_return(bytes);
    'places: while at < bytes.len() {
        match mark_at(start, &bytes[at..]) {
            Mark::Absent => at += 1 + before_return(&bytes[at + 1..]),
            mark => return Sight { sure: at, mark },
        }
    }
    Sight {
        sure: bytes.len(),
        mark: Mark::Undecided,
    }
}
