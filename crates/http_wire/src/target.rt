//! The path and the query of a request's target.
ghost use Rattle.std.specs.Prelude.{◌≡◌, ◌+◌, ◌<◌, ◌≤◌, length};
ghost use Rattle.std.specs.List.{position, position_or_len};
ghost use Rattle.httparse.specs.Spans.{span_bytes, IsWithin};
ghost use Rattle.http_wire.specs.Heads.{IsPieceOf, is_question, path_of, query_of};

use crate::head::Piece;
use httparse::spans::Span;

/// The target up to its first question mark.
pub fn path_at(text: &[u8], target: Span) -> Piece
    requires { IsWithin (length text.now) target }
    ensures { IsPieceOf text.now result (path_of (span_bytes text.now target)) }
{
    let len = path_len(target.of(text));
    Piece {
        start: target.start,
        end: target.start + len,
    }
}

/// All that stands after its first question mark, or nothing where there is none.
pub fn query_at(text: &[u8], target: Span) -> Piece
    requires { IsWithin (length text.now) target }
    ensures { IsPieceOf text.now result (query_of (span_bytes text.now target)) }
{
    let bytes = target.of(text);
    let len = path_len(bytes);
    if len == bytes.len() {
        return Piece {
            start: target.end,
            end: target.end,
        };
    }
    Piece {
        start: target.start + len + 1,
        end: target.end,
    }
}

// How many bytes stand before the first question mark, or how many there are where there is none.
fn path_len(bytes: &[u8]) -> usize
    ensures is { result ≡ position_or_len is_question bytes.now }
    ensures within { result ≤ length bytes.now }
{
    match question_in(bytes) {
        Some(n) => n,
        None => bytes.len(),
    }
}

// Where the first question mark stands.
fn question_in(bytes: &[u8]) -> Option<usize>
    ensures { result ≡ position is_question bytes.now }
{
    bytes.iter().position(|byte| *byte == b'?')
}
