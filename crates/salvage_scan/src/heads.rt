//! Where headers may begin, and the headers, as `pack_format` has them.
ghost use Rattle.std.specs.Prelude.{◌≡◌, ◌≤◌, ◌==◌, ◌&&◌, ◌||◌, length};
ghost use Rattle.pack_format.specs.Reading.{header_at};
ghost use Rattle.salvage_scan.specs.JunkRuns.{IsJunkTo, may_begin};

use pack_format::{HeaderAt, MAX_HEADER, read_header};

/// The header with which the bytes begin. It is called in two places, and the reader is inlined into it alone.
#[inline(never)]
pub(crate) fn next_header(bytes: &[u8]) -> HeaderAt
    ensures { result ≡ header_at bytes.now }
{
    read_header(bytes)
}

/// The first place from one on at which a header may begin, or that fewer than 156 bytes are left at. Every byte before
/// it is junk, whatever follows the bytes.
pub(crate) fn past_junk(bytes: &[u8], at: usize) -> usize
    requires { at ≤ length bytes.now }
    ensures { IsJunkTo bytes.now at result }
{
    let mut at = at;
    'junk: while bytes.len() - at >= MAX_HEADER
        && !may_begin(bytes[at], bytes[at + 1], bytes[at + 2], bytes[at + 3])
    {
        at += 1;
    }
    at
}

// Whether a header may begin with these four bytes: `[sha`, `[x-0`, `[xx-` or `[xxx`.
fn may_begin(a: u8, b: u8, c: u8, d: u8) -> bool
    ensures { result ≡ may_begin a b c d }
{
    a == b'[' && (b == b's' && c == b'h' && d == b'a' || b == b'x' && may_be_deleted(c, d))
}

// The same of a deleted record's header behind its first letter.
fn may_be_deleted(c: u8, d: u8) -> bool
    ensures { result ≡ (((c == 120) && ((d == 120) || (d == 45))) || ((c == 45) && (d == 48))) }
{
    c == b'x' && (d == b'x' || d == b'-') || c == b'-' && d == b'0'
}
