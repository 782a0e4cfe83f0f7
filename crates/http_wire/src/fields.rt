//! The values of headers of one name.
ghost use Rattle.std.specs.Prelude.{◌≡◌, ℕ, ◌≤◌, List, ◌∷◌, [], ◌++◌, length, map, All};
ghost use Rattle.httparse.specs.Spans.{header_bytes, span_bytes, IsWithin, IsHeaderWithin};
ghost use Rattle.http_wire.specs.Heads.{AreValues, values, value_at, same_text};

use httparse::spans::{HeaderSpan, Span};

/// What was found of the values of some headers.
#[derive(Clone, Copy)]
pub enum Values {
    /// There are none.
    Nothing,
    /// There is one.
    One(Span),
    /// There are several, and the first.
    More(Span),
}

/// Whether both are one text, in any case.
pub fn same_text(a: &[u8], b: &[u8]) -> bool
    ensures { result ≡ same_text a.now b.now }
{
    a.eq_ignore_ascii_case(b)
}

/// The values of the headers of that name, in any case.
pub fn values_at(buf: &[u8], headers: &[HeaderSpan], name: &[u8]) -> Values
    requires { All (IsHeaderWithin (length buf.now)) headers.now }
    ensures { AreValues buf.now (values name.now (map (header_bytes buf.now) headers.now)) result }
{
    let mut found = Values::Nothing;
    for header in headers {
        found = with_header(buf, found, *header, name);
    }
    found
}

// The same with one more header.
fn with_header(buf: &[u8], found: Values, header: HeaderSpan, name: &[u8]) -> Values
    requires { IsHeaderWithin (length buf.now) header }
    ensures { (before : List (List ℕ)) → AreValues buf.now before found
        → AreValues buf.now (before ++ value_at name.now (header_bytes buf.now header)) result }
{
    if header.name.of(buf).eq_ignore_ascii_case(name) {
        one_more(buf, found, header.value)
    } else {
        found
    }
}

// The same with one more value.
fn one_more(buf: &[u8], found: Values, value: Span) -> Values
    requires { IsWithin (length buf.now) value }
    ensures { (before : List (List ℕ)) → AreValues buf.now before found
        → AreValues buf.now (before ++ span_bytes buf.now value ∷ []) result }
{
    // The contract of the call says that a slice's length is a `usize`.
    let _len = buf.len();
    match found {
        Values::Nothing => Values::One(value),
        Values::One(first) => Values::More(first),
        Values::More(first) => Values::More(first),
    }
}
