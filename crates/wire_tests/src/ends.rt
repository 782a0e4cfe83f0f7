//! How reading from a connection ends, and before which byte: what no reply tells.
ghost use Rattle.std.specs.Prelude.{◌≡◌, ◌<◌, IfNone};

use blobref::{NoMemory, Octets};
use http_wire::{Body, Wire, WireEnd};
use piece_source::PieceSource;
use std::alloc::Global;

// Reads what is left of a body, and says how that ended where it wasn't at the body's end.
fn body_end(wire: &mut Wire, source: &mut PieceSource) -> Option<WireEnd>
    ensures { IfNone result (wire.new.body ≡ Body.Done) }
{
    let mut buf = [0; 4];
    for _ in 0..100 {
        match wire.body(source, &mut buf) {
            Ok(n) => {
                if n == 0 {
                    return None;
                }
            }
            Err(end) => return Some(end),
        }
    }
    Some(WireEnd::ReadFault)
}

// Reads a request, and says how that ended where it wasn't at the request's end.
fn request_end(wire: &mut Wire, source: &mut PieceSource) -> Option<WireEnd>
    requires { wire.old.body ≡ Body.Done }
    ensures { IfNone result (wire.new.body ≡ Body.Done) }
{
    match wire.next_head(source) {
        Ok(_) => body_end(wire, source),
        Err(end) => Some(end),
    }
}

// Whether a stream that comes in pieces of at most so many bytes ends so, with its first request or its second.
fn ends(alloc: Global, stream: &[u8], most: usize, want: WireEnd) -> Result<bool, NoMemory>
    requires { 0 < most }
{
    let mut source = PieceSource::of(alloc, Octets::copy(alloc, stream)?, most);
    let mut wire = Wire::make(alloc)?;
    let end = match request_end(&mut wire, &mut source) {
        Some(end) => Some(end),
        None => request_end(&mut wire, &mut source),
    };
    Ok(end == Some(want))
}

// How a row names an end.
fn end_named(name: &str, at: u64) -> WireEnd {
    match name {
        "cut" => WireEnd::Cut { at },
        "bad head" => WireEnd::BadHead { at },
        "bad length" => WireEnd::BadLength { at },
        _ => WireEnd::Closed,
    }
}

// Whether a row of an end, how many bytes stand before the request in which it comes, and the stream is right, whole
// and one byte at a time.
fn is_row(alloc: Global, row: &str) -> Result<bool, NoMemory> {
    let (name, rest) = row.split_once('|').unwrap_or(("", ""));
    let (at, stream) = rest.split_once('|').unwrap_or(("", ""));
    let end = end_named(name, at.parse().unwrap_or(u64::MAX));
    let stream = stream.as_bytes();
    Ok(ends(alloc, stream, usize::MAX, end)? && ends(alloc, stream, 1, end)?)
}

// The first row that isn't right, or nothing.
fn first_wrong(alloc: Global, rows: &str) -> Result<&str, NoMemory> {
    for row in rows.split('%') {
        if !is_row(alloc, row)? {
            return Ok(row);
        }
    }
    Ok("")
}

// Heads; lengths, by RFC 9112, section 6, and its profile; and chunks, by its section 7.1.
const ENDS: &str = "cut|20|\r\n\nGET /a HTTP/1.1\n\nGET%\
    cut|0|\r\n\n%\
    bad head|0|GET  / HTTP/1.1\r\n\r\n%\
    bad head|0|GET / HTTP/1.1\r\nA : b\r\n\r\n%\
    cut|40|POST / HTTP/1.1\nContent-Length: 5\n\nhelloGET%\
    cut|0|POST / HTTP/1.1\r\nContent-Length: 3\r\n\r\nab%\
    bad length|0|POST / HTTP/1.1\r\nContent-Length: 1\r\nContent-Length: 1\r\n\r\na%\
    bad length|0|POST / HTTP/1.1\r\nContent-Length: 1, 1\r\n\r\na%\
    bad length|0|POST / HTTP/1.1\r\nContent-Length: +1\r\n\r\na%\
    bad length|0|POST / HTTP/1.1\r\nContent-Length: 00000000000000000001\r\n\r\na%\
    bad length|0|POST / HTTP/1.1\r\nContent-Length: 1\r\nTransfer-Encoding: chunked\r\n\r\na%\
    bad length|0|POST / HTTP/1.1\r\nTransfer-Encoding: gzip, chunked\r\n\r\na%\
    cut|81|POST / HTTP/1.1\r\ntransfer-encoding: Chunked\r\n\r\n3;x=\"y\"\r\nabc\r\n002 \r\nde\r\n0\r\nT: u\n\r\nGET%\
    bad length|0|POST / HTTP/1.1\r\nTransfer-Encoding: chunked\r\n\r\n3\r\nabcd%\
    cut|0|POST / HTTP/1.1\r\nTransfer-Encoding: chunked\r\n\r\n3\r\nabc%\
    bad length|0|POST / HTTP/1.1\r\nTransfer-Encoding: chunked\r\n\r\n3\nabc%\
    bad length|0|POST / HTTP/1.1\r\nTransfer-Encoding: chunked\r\n\r\ng\r\n%\
    bad length|0|POST / HTTP/1.1\r\nTransfer-Encoding: chunked\r\n\r\n0\r\nT u\r\n\r\n%\
    cut|0|POST / HTTP/1.1\r\nTransfer-Encoding: chunked\r\n\r\n0\r\n";

#[test]
fn requests_end_where_they_have_to(rt: HostRuntime) -> Result<(), NoMemory> {
    assert_eq!(rt; first_wrong(rt.alloc(), ENDS)?, "");
    Ok(())
}
