//! Bodies of uploads, each whole and one byte at a time.
ghost use Rattle.std.specs.Prelude.{◌≡◌, ◌+◌, ◌<◌, ◌^◌, length};

use blobref::NoMemory;
use multipart_read::{PartEvent, PartEvents, PartFault, Parts, boundary_of};
use std::alloc::Global;

// Writes what was told as a text: a name as `<name>`, a content as it is, an end as `|`.
fn write(told: &mut Vec<u8>, events: &PartEvents) -> Result<(), NoMemory> {
    for event in events.as_slice() {
        match event {
            PartEvent::Name(name) => {
                told.push(b'<')?;
                told.extend_from_slice(name.as_slice())?;
                told.push(b'>')?;
            }
            PartEvent::Content(bytes) => told.extend_from_slice(bytes.as_slice())?,
            PartEvent::PartEnd => told.push(b'|')?,
        }
    }
    Ok(())
}

fn feed(parts: &mut Parts, piece: &[u8], told: &mut Vec<u8>) -> Result<Option<PartFault>, NoMemory>
    requires { parts.old.fed + length piece.now < 2 ^ 64 }
    ensures { parts.new.fed ≡ parts.old.fed + length piece.now }
{
    match parts.feed(piece) {
        Ok(events) => {
            write(told, &events)?;
            Ok(None)
        }
        Err(fault) => Ok(Some(fault)),
    }
}

// Feeds a body in pieces of so many bytes.
fn in_pieces(
    parts: &mut Parts,
    body: &[u8],
    by: usize,
    told: &mut Vec<u8>,
) -> Result<Option<PartFault>, NoMemory>
    requires some { 0 < by }
    requires fits { parts.old.fed + length body.now < 2 ^ 64 }
{
    let mut at = 0;
    'pieces: while at < body.len() {
        let len = by.min(body.len() - at);
        if let Some(fault) = feed(parts, &body[at..at + len], told)? {
            return Ok(Some(fault));
        }
        at += len;
    }
    Ok(None)
}

// Whether a body that is fed so tells this text, and has this fault or ends by its close.
fn tells(
    alloc: Global,
    body: &[u8],
    by: usize,
    want: &[u8],
    fault: Option<PartFault>,
) -> Result<bool, NoMemory>
    requires { 0 < by }
{
    let mut told = Vec::new(alloc);
    let Ok(mut parts) = Parts::make(alloc, b"b") else {
        return Ok(false);
    };
    let fed = in_pieces(&mut parts, body, by, &mut told)?;
    let ended = match parts.end() {
        Ok(()) => None,
        Err(fault) => Some(fault),
    };
    Ok(told.as_slice() == want && ended == fault && (fed.is_none() || fed == fault))
}

// The bytes that a text spells: `~` is CR LF, `^` a line feed, `#` a header that names a part `n`, `&` 4,000 times `x`,
// `*` 1,000 such parts with the content `abc`, and `+` what is told of these.
fn spelled(alloc: Global, text: &str) -> Result<Vec<u8>, NoMemory> {
    let mut bytes = Vec::new(alloc);
    for byte in text.as_bytes() {
        push(&mut bytes, *byte)?;
    }
    Ok(bytes)
}

fn push(bytes: &mut Vec<u8>, byte: u8) -> Result<(), NoMemory> {
    match byte {
        b'~' => bytes.extend_from_slice(b"\r\n")?,
        b'^' => bytes.push(b'\n')?,
        b'#' => bytes.extend_from_slice(b"Content-Disposition: form-data; name=n")?,
        b'&' => push_often(bytes, b"x", 4_000)?,
        b'*' => push_often(bytes, PART, 1_000)?,
        b'+' => push_often(bytes, b"<n>abc|", 1_000)?,
        other => bytes.push(other)?,
    }
    Ok(())
}

const PART: &[u8] = b"--b\r\nContent-Disposition: form-data; name=n\r\n\r\nabc\r\n";

fn push_often(bytes: &mut Vec<u8>, text: &[u8], times: u32) -> Result<(), NoMemory> {
    for _ in 0..times {
        bytes.extend_from_slice(text)?;
    }
    Ok(())
}

// The fault that a text names: that of too many parts, or a place at which the body is bad.
fn fault_named(name: &str) -> Option<PartFault> {
    if name == "too many" {
        return Some(PartFault::TooLong { limit: 1_000 });
    }
    match name.parse() {
        Ok(at) => Some(PartFault::Bad { at }),
        Err(_) => None,
    }
}

// Whether a row of a body, what is told of it, and its fault is right, whole and one byte at a time.
fn is_read(alloc: Global, row: &str) -> Result<bool, NoMemory> {
    let (body, rest) = row.split_once('%').unwrap_or(("", "%"));
    let (told, fault) = rest.split_once('%').unwrap_or(("", ""));
    let (fault, body) = (fault_named(fault), spelled(alloc, body)?);
    let told = spelled(alloc, told)?;
    Ok(tells(alloc, &body, 1_000_000, &told, fault)? && tells(alloc, &body, 1, &told, fault)?)
}

// The first row that isn't right, or nothing.
fn first_wrong(alloc: Global, rows: &str) -> Result<&str, NoMemory> {
    for row in rows.lines() {
        if !is_read(alloc, row)? {
            return Ok(row);
        }
    }
    Ok("")
}

// Uploads of three parts and of two; preambles and closes; delimiters, and what is none; names of parts; the limits of
// preambles, of heads and of parts.
const BODIES: &str =
    "--b~Content-Disposition: form-data; name=\"sha224-23097d223405d8228642a477bda255b32aadbce4bda0b3f7e36c9da7\"~~abc~--b~Content-Disposition: form-data; name=\"sha224-d14a028c2a3a2bc9476102bb288234c415a2b01f828ea62ac5b3e42f\"~~abc~--b~Content-Disposition: form-data; name=\"sha224-d14a028c2a3a2bc9476102bb288234c415a2b01f828ea62ac5b3e42f\"~~~--b--%<sha224-23097d223405d8228642a477bda255b32aadbce4bda0b3f7e36c9da7>abc|<sha224-d14a028c2a3a2bc9476102bb288234c415a2b01f828ea62ac5b3e42f>abc|<sha224-d14a028c2a3a2bc9476102bb288234c415a2b01f828ea62ac5b3e42f>|%
--b~Content-Disposition: form-data; name=\"sha224-23097d223405d8228642a477bda255b32aadbce4bda0b3f7e36c9da7\"~~abc~--b~Content-Disposition: form-data; name=\"sha224-d14a028c2a3a2bc9476102bb288234c415a2b01f828ea62ac5b3e42f\"~~~--b--%<sha224-23097d223405d8228642a477bda255b32aadbce4bda0b3f7e36c9da7>abc|<sha224-d14a028c2a3a2bc9476102bb288234c415a2b01f828ea62ac5b3e42f>|%
%%0
--b--%%
~--b--%%
before~--b--behind~--b~%%
before--b--%%0
--c--%%0
--b%%0
--b~%%5
--b~Content-Dispo%%5
--b \t~#~~x~--b--%<n>x|%
--b                ~#~~~--b--%<n>|%
--b                 ~#~~~--b-%%0
--b^#^^x~--b--%%
--b~#^^x^--b~--b--%<n>x^--b|%
--b~#~~--b~--bx~--b--%<n>--b~--bx|%
--b~#~~~--b-~--b\r~--b--%<n>~--b-~--b\r|%
--b~#~~--b--%<n>--b--%47
--b~#~~xy~--%<n>xy%47
--b~Content-Disposition: form-data; name=\"a b\"~~~--b--%<a b>|%
--b~CONTENT-DISPOSITION:Form-Data;NAME=y~~~--b--%<y>|%
--b~A: b~Content-Disposition: form-data; name=\"\"~~~--b--%<>|%
--b~Content-Disposition: form-data; filename=\"x\" ; name=y; name=z ~~~--b--%<y>|%
--b~Content-Disposition: form-data; name=y~Content-Disposition: form-data; name=z~~~--b--%<y>|%
--b~Content-Disposition: form-data; filename=x~Content-Disposition: form-data; name=y~~~--b--%%5
--b~Content-Disposition: attachment; name=y~~~--b--%%5
--b~Content-Disposition: form-data; name =y~~~--b--%%5
--b~Content-Disposition: form-data; name=y;~~~--b--%%5
--b~Content-Disposition: form-data; name=\"a\\b\"~~~--b--%%5
--b~Content-Disposition: form-data~~~--b--%%5
--b~A: b~~~--b--%%5
--b~no header~~~--b--%%5
&xxxxxxxxxxxxxxxxxxxxxxxxxxxxxxxxxxxxxxxxxxxxxxxxxxxxxxxxxxxxxxxxxxxxxxxxxxxxxxxxxxxxxxxxxxxxxxxx~--b--%%
&xxxxxxxxxxxxxxxxxxxxxxxxxxxxxxxxxxxxxxxxxxxxxxxxxxxxxxxxxxxxxxxxxxxxxxxxxxxxxxxxxxxxxxxxxxxxxxxxx~--b--%%0
--b~#~X: &xxxxxxxxxxxxxxxxxxxxxxxxxxxxxxxxxxxxxxxxxxxxxxxxx~~~--b--%<n>|%
--b~#~X: &xxxxxxxxxxxxxxxxxxxxxxxxxxxxxxxxxxxxxxxxxxxxxxxxxx~~~--b--%%5
--b~X:~X:~X:~X:~X:~X:~X:~X:~X:~X:~X:~X:~X:~X:~X:~#~~~--b--%<n>|%
--b~X:~X:~X:~X:~X:~X:~X:~X:~X:~X:~X:~X:~X:~X:~X:~X:~#~~~--b--%%5
*--b--%+%
*--b~#~~abc~--b--%+%too many";

#[test]
fn bodies_are_read(rt: HostRuntime) -> Result<(), NoMemory> {
    assert_eq!(rt; first_wrong(rt.alloc(), BODIES)?, "");
    Ok(())
}

// Content types, each with its boundary where it has one.
const CONTENT_TYPES: &str = "multipart/form-data; boundary=pk00000000%pk00000000
Multipart/Form-Data;charset=utf-8 ; BOUNDARY=\"a b\"%a b
multipart/form-data; boundary=b; boundary=c%b
multipart/form-data; boundary=0123456789012345678901234567890123456789012345678901234567890123456789%0123456789012345678901234567890123456789012345678901234567890123456789
multipart/form-data; boundary=01234567890123456789012345678901234567890123456789012345678901234567890
multipart/form-data; boundary=\"b \"
multipart/form-data; boundary=\"\"
multipart/form-data; boundary=\"a\\b\"
multipart/form-data; boundary=b;
multipart/form-data; boundary=a&b
multipart/form-data
multipart/mixed; boundary=b";

// The first row of a content type and its boundary that isn't right, or nothing.
fn first_other(rows: &str) -> &str {
    for row in rows.lines() {
        let (content_type, boundary) = match row.split_once('%') {
            Some((content_type, boundary)) => (content_type, Some(boundary.as_bytes())),
            None => (row, None),
        };
        if boundary_of(content_type.as_bytes()) != boundary {
            return row;
        }
    }
    ""
}

const SEVENTY_ONE: &[u8] =
    b"01234567890123456789012345678901234567890123456789012345678901234567890";

// Whether a text is refused as a boundary.
fn is_no_boundary(alloc: Global, text: &[u8]) -> bool {
    match Parts::make(alloc, text) {
        Ok(_) => false,
        Err(fault) => fault == PartFault::BadBoundary,
    }
}

#[test]
fn boundaries_are_found(rt: HostRuntime) {
    assert_eq!(rt; first_other(CONTENT_TYPES), "");
    assert!(rt; is_no_boundary(rt.alloc(), SEVENTY_ONE));
}
