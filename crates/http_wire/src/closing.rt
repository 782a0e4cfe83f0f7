//! Whether a connection closes behind a reply.
ghost use Rattle.std.specs.Prelude.{◌≡◌, ◌≤◌, length, reverse, map, All};
ghost use Rattle.std.specs.List.{list_any};
ghost use Rattle.httparse.specs.Grammar.{skip_ows, trim_ows};
ghost use Rattle.httparse.specs.Spans.{header_bytes, IsHeaderWithin};
ghost use Rattle.http_wire.specs.Heads.{closes_by, is_closing, asks_close, is_close};

use crate::fields::same_text;
use httparse::is_space_or_tab;
use httparse::spans::HeaderSpan;

/// Whether the connection closes behind the reply: by the minor version, or by a header.
pub fn closes_at(text: &[u8], minor: u8, headers: &[HeaderSpan]) -> bool
    requires { All (IsHeaderWithin (length text.now)) headers.now }
    ensures { result ≡ closes_by minor (map (header_bytes text.now) headers.now) }
{
    minor == 0 || some_closing(text, headers)
}

fn some_closing(text: &[u8], headers: &[HeaderSpan]) -> bool
    requires { All (IsHeaderWithin (length text.now)) headers.now }
    ensures { result ≡ list_any is_closing (map (header_bytes text.now) headers.now) }
{
    let mut closes = false;
    for header in headers {
        closes |= is_closing(text, *header);
    }
    closes
}

fn is_closing(text: &[u8], header: HeaderSpan) -> bool
    requires { IsHeaderWithin (length text.now) header }
    ensures { result ≡ is_closing (header_bytes text.now header) }
{
    same_text(header.name.of(text), b"connection") && asks_close(header.value.of(text))
}

fn asks_close(value: &[u8]) -> bool
    ensures { result ≡ asks_close value.now }
{
    value.split(|byte| *byte == b',').any(|part| is_close(part))
}

fn is_close(part: &[u8]) -> bool
    ensures { result ≡ is_close part.now }
{
    same_text(trim(part), b"close")
}

// The bytes without the spaces and tabs at both ends.
fn trim(bytes: &[u8]) -> &[u8]
    ensures { result.now ≡ trim_ows bytes.now }
{
    trim_end(trim_start(bytes))
}

fn trim_start(mut bytes: &[u8]) -> &[u8]
    ensures { result.now ≡ skip_ows bytes.now }
{
    'spaces: while let [first, rest @ ..] = bytes
        && is_space_or_tab(*first)
    {
        bytes = rest;
    }
    bytes
}

fn trim_end(mut bytes: &[u8]) -> &[u8]
    ensures { result.now ≡ reverse (skip_ows (reverse bytes.now)) }
{
    'spaces: while let [rest @ .., last] = bytes
        && is_space_or_tab(*last)
    {
        bytes = rest;
    }
    bytes
}
