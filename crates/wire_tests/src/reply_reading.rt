//! Replies that are read: their status, and the bytes of their bodies.
ghost use Rattle.std.specs.Prelude.{◌<◌};

use blobref::{NoMemory, Octets};
use http_wire::{Wire, WireEnd};
use piece_source::PieceSource;
use std::alloc::Global;

// How the body that is read now ends: nothing, where its bytes are the wanted ones.
fn body_is(wire: &mut Wire, source: &mut PieceSource, want: &[u8]) -> Result<bool, WireEnd> {
    let mut buf = [0; 4];
    let mut rest = want;
    for _ in 0..100 {
        let n = match wire.body(source, &mut buf) {
            Ok(n) => n,
            Err(end) => return Err(end),
        };
        if n == 0 {
            return Ok(rest.is_empty());
        }
        match rest.strip_prefix(&buf[..n]) {
            Some(behind) => rest = behind,
            None => return Ok(false),
        }
    }
    Ok(false)
}

// Reads a reply, and says whether its status and its body are the wanted ones, or how it ended.
fn reply_is(
    wire: &mut Wire,
    source: &mut PieceSource,
    status: u16,
    want: &[u8],
) -> Result<bool, WireEnd> {
    match wire.next_reply(source) {
        Ok(head) => Ok(body_is(wire, source, want)? && head.status == status),
        Err(end) => Err(end),
    }
}

// Whether a stream that comes in pieces of at most so many bytes is a reply of this status with this body, or ends so.
fn is_read(
    alloc: Global,
    stream: &[u8],
    most: usize,
    status: u16,
    want: &[u8],
    end: Option<WireEnd>,
) -> Result<bool, NoMemory>
    requires { 0 < most }
{
    let mut source = PieceSource::of(alloc, Octets::copy(alloc, stream)?, most);
    let mut wire = Wire::make(alloc)?;
    match reply_is(&mut wire, &mut source, status, want) {
        Ok(is) => Ok(is && end.is_none()),
        Err(found) => Ok(Some(found) == end),
    }
}

// The same, whole and one byte at a time.
fn is_row_read(
    alloc: Global,
    stream: &str,
    status: u16,
    want: &str,
    end: Option<WireEnd>,
) -> Result<bool, NoMemory> {
    let stream = stream.as_bytes();
    let want = want.as_bytes();
    Ok(
        is_read(alloc, stream, usize::MAX, status, want, end)?
            && is_read(alloc, stream, 1, status, want, end)?,
    )
}

// How a row names an end.
fn end_named(name: &str) -> Option<WireEnd> {
    match name {
        "closed" => Some(WireEnd::Closed),
        "cut" => Some(WireEnd::Cut { at: 0 }),
        "bad head" => Some(WireEnd::BadHead { at: 0 }),
        "bad length" => Some(WireEnd::BadLength { at: 0 }),
        _ => None,
    }
}

// Whether a row of an end, or of a status, then of a body, and then of a stream is right.
fn is_row(alloc: Global, row: &str) -> Result<bool, NoMemory> {
    let (name, rest) = row.split_once('|').unwrap_or(("", ""));
    let (want, stream) = rest.split_once('|').unwrap_or(("", ""));
    is_row_read(
        alloc,
        stream,
        name.parse().unwrap_or(0),
        want,
        end_named(name),
    )
}

// The first row that isn't right, or nothing.
fn first_wrong(alloc: Global, rows: &str) -> Result<&str, NoMemory> {
    for row in rows.split('%') {
        if !is_row(alloc, row)? {
            return Ok(row);
        }
    }
    Ok("")
}

// RFC 9112, sections 4, 6 and 7.1: a body of a length, of none, in chunks, and up to the end.
const REPLIES: &str = "200|abc|HTTP/1.1 200 OK\r\nContent-Length: 3\r\n\r\nabcHTTP%\
    404||HTTP/1.1 404 Not Found\nContent-Length: 0\n\n%\
    200|abcde|HTTP/1.1 200 OK\r\nTransfer-Encoding: chunked\r\n\r\n3\r\nabc\r\n2\r\nde\r\n0\r\n\r\nHTTP%\
    503|all that is left|HTTP/1.0 503 \r\nServer: a\r\n\r\nall that is left%\
    200||HTTP/1.1 200 OK\r\n\r\n%\
    closed||%\
    cut||HTTP/1.1 200 OK\r\nServer: a\r\n%\
    cut|ab|HTTP/1.1 200 OK\r\nContent-Length: 3\r\n\r\nab%\
    bad head||HTTP/1.1 20 OK\r\n\r\n%\
    bad head||GET / HTTP/1.1\r\n\r\n%\
    bad length||HTTP/1.1 200 OK\r\nContent-Length: x\r\n\r\n%\
    bad length||HTTP/1.1 200 OK\r\nTransfer-Encoding: chunked\r\n\r\nx\r\n";

#[test]
fn replies_are_read(rt: HostRuntime) -> Result<(), NoMemory> {
    assert_eq!(rt; first_wrong(rt.alloc(), REPLIES)?, "");
    Ok(())
}
