//! What the text of a head says.
ghost use Rattle.std.specs.Prelude.{◌≡◌, ◌<◌, ◌≤◌, ◌+◌, ℕ, [], List, length, map, take, All, codes, option_map};
ghost use Rattle.std.specs.Prelude.{if◌then◌else◌, Some, None};
ghost use Rattle.httparse.specs.Grammar.{RequestHead, ReadsRequest};
ghost use Rattle.httparse.specs.Spans.{header_bytes, span_bytes, IsWithin, IsHeaderWithin, IsRequestWithin};
ghost use Rattle.httparse.specs.Spans.{IsRequestAt};
ghost use Rattle.http_wire.specs.Heads.{HeadSpec, framing_of, length_in, same_text, values, IsPieceOf, IsFirstOf};

use crate::closing::closes_at;
use crate::fields::{Values, values_at};
use crate::head::{Framing, Head, HeadFault, Piece};
use crate::judging::{ParsedHead, judge};
use crate::target::{path_at, query_at};
use httparse::spans::{HeaderSpan, RequestSpans, Span};

/// Reads the head that the lines are.
pub fn read_head(text: &[u8], headers: &mut [HeaderSpan]) -> Result<Head, HeadFault>
    requires { length headers.old ≡ 5462 }
    ensures { HeadSpec text.now result }
{
    match judge(text, headers) {
        ParsedHead::Head(spans) => head_at(text, headers, spans),
        ParsedHead::TooMany => Err(HeadFault::TooMany),
        ParsedHead::BadHead => Err(HeadFault::BadHead),
    }
}

// The head whose parts lie there.
fn head_at(text: &[u8], headers: &[HeaderSpan], spans: RequestSpans) -> Result<Head, HeadFault>
    requires { IsRequestWithin text.now headers.now spans }
    ensures { (h : RequestHead) → ReadsRequest text.now h [] → length h.fields ≤ 64
        → IsRequestAt text.now headers.now spans h → HeadSpec text.now result }
{
    let used = &headers[..spans.headers];
    let Some(framing) = framing_at(text, used) else {
        return Err(HeadFault::BadLength);
    };
    Ok(Head {
        method: piece_at(text, spans.method),
        path: path_at(text, spans.path),
        query: query_at(text, spans.path),
        content_type: first_at(text, used, b"content-type"),
        framing,
        closes: closes_at(text, spans.version, used),
    })
}

// The same place as a piece.
fn piece_at(text: &[u8], span: Span) -> Piece
    requires { IsWithin (length text.now) span }
    ensures { IsPieceOf text.now result (span_bytes text.now span) }
{
    // The contract of the call says that a slice's length is a `usize`.
    let _len = text.len();
    Piece {
        start: span.start,
        end: span.end,
    }
}

// The value of the first header of that name.
fn first_at(text: &[u8], headers: &[HeaderSpan], name: &[u8]) -> Option<Piece>
    requires { All (IsHeaderWithin (length text.now)) headers.now }
    ensures { IsFirstOf text.now (values name.now (map (header_bytes text.now) headers.now)) result }
{
    match values_at(text, headers, name) {
        Values::Nothing => None,
        Values::One(span) => Some(piece_at(text, span)),
        Values::More(span) => Some(piece_at(text, span)),
    }
}

// How long the body is, by the headers.
pub(crate) fn framing_at(text: &[u8], headers: &[HeaderSpan]) -> Option<Framing>
    requires { All (IsHeaderWithin (length text.now)) headers.now }
    ensures { result ≡ framing_of (map (header_bytes text.now) headers.now) }
{
    let lengths = values_at(text, headers, b"content-length");
    let codings = values_at(text, headers, b"transfer-encoding");
    match lengths {
        Values::Nothing => match codings {
            Values::Nothing => Some(Framing::Empty),
            Values::One(span) => coded_by(span.of(text)),
            Values::More(_) => None,
        },
        Values::One(span) => match codings {
            Values::Nothing => long_by(span.of(text)),
            Values::One(_) => None,
            Values::More(_) => None,
        },
        Values::More(_) => None,
    }
}

// The framing of one value of Transfer-Encoding.
fn coded_by(value: &[u8]) -> Option<Framing>
    ensures { result ≡ (if same_text value.now (codes "chunked") then Some Framing.Chunked else None) }
{
    if value.eq_ignore_ascii_case(b"chunked") {
        Some(Framing::Chunked)
    } else {
        None
    }
}

// The framing of one value of Content-Length.
fn long_by(value: &[u8]) -> Option<Framing>
    ensures { result ≡ option_map Framing.Length (length_in value.now) }
{
    match length_of(value) {
        Some(n) => Some(Framing::Length(n)),
        None => None,
    }
}

// The number that 1 to 19 digits are.
fn length_of(text: &[u8]) -> Option<u64>
    ensures { result ≡ length_in text.now }
{
    if text.is_empty() || text.len() > 19 {
        return None;
    }
    let mut n: u64 = 0;
    for digit in text {
        if !digit.is_ascii_digit() {
            return None;
        }
        n = n * 10 + u64::from(*digit - 48);
    }
    Some(n)
}
