//! Streams of requests and their replies, each stream whole and one byte at a time. The home holds the blob `abc`.
ghost use Rattle.std.specs.Prelude.{◌≡◌, ◌<◌, [], IfOk};

use blob_http::{Answered, Ended, serve_connection};
use blobref::{NoMemory, Octets, Ref};
use claim_verify::Keyring;
use core_home::{CoreHome, CorePass};
use edge_base::{CallList, MemSink};
use home_core::{Core, Event};
use piece_source::PieceSource;
use std::alloc::Global;
use std::sync::Wait;

// The bytes that a text spells: `~` is CR LF, `@` the ref of `abc`, and `#` that of no bytes.
fn spelled(alloc: Global, text: &str) -> Result<Octets, NoMemory> {
    let mut bytes = Vec::new(alloc);
    for byte in text.as_bytes() {
        match *byte {
            b'~' => bytes.extend_from_slice(b"\r\n")?,
            b'@' => bytes.extend_from_slice(Ref::of(b"abc").spell().as_slice())?,
            b'#' => bytes.extend_from_slice(Ref::of(b"").spell().as_slice())?,
            other => bytes.push(other)?,
        }
    }
    Ok(Octets::from_vec(bytes))
}

// A core without keys that holds the blob `abc`.
fn core(alloc: Global) -> Result<Core<Keyring>, NoMemory>
    ensures { IfOk result (λ core. core.state.hand ≡ []) }
{
    let bytes = Octets::copy(alloc, b"abc")?;
    let said = Ref::of(b"abc");
    let mut core = Core::fresh(alloc, Keyring::empty(alloc));
    core.step(&Event::Put {
        session: 0,
        said,
        bytes,
    })?;
    Ok(core)
}

// Whether this is written to a connection on which a stream comes in pieces of at most so many bytes, and ends.
fn is_told<R: Wait>(
    rt: &R,
    alloc: Global,
    stream: &str,
    most: usize,
    want: &[u8],
) -> Result<bool, NoMemory>
    requires { 0 < most }
{
    let mut source = PieceSource::of(alloc, spelled(alloc, stream)?, most);
    let home = CoreHome::make();
    let Ok(mut pass) = CorePass::over(alloc, core(alloc)?) else {
        return Err(NoMemory);
    };
    let mut sink = MemSink::empty(alloc, CallList::empty(alloc));
    let mut log: Vec<Answered> = Vec::new(alloc);
    let ended = serve_connection(
        rt,
        alloc,
        &home,
        &mut pass,
        &mut source,
        &mut sink,
        &mut log,
    );
    Ok(matches!(ended, Ended::Closed) && sink.written() == want)
}

// Whether a stream is answered so, whole and one byte at a time.
fn is_answered<R: Wait>(rt: &R, alloc: Global, row: &str) -> Result<bool, NoMemory> {
    let (stream, want) = row.split_once('|').unwrap_or(("", "|"));
    let want = spelled(alloc, want)?;
    Ok(
        is_told(rt, alloc, stream, usize::MAX, want.as_slice())?
            && is_told(rt, alloc, stream, 1, want.as_slice())?,
    )
}

// The first row that isn't answered so, or nothing.
fn first_wrong<'a, R: Wait>(rt: &R, alloc: Global, rows: &'a str) -> Result<&'a str, NoMemory> {
    for row in rows.lines() {
        if !is_answered(rt, alloc, row)? {
            return Ok(row);
        }
    }
    Ok("")
}

// Requests that only ask.
const REQUESTS: &str =
    "GET /camli/stat?camliversion=1&blob1=@&blob2=# HTTP/1.1~Host: localhost~~|HTTP/1.1 200 OK~Content-Type: application/json~Content-Length: 97~~{\"stat\":[{\"blobRef\":\"@\",\"size\":3}]}
GET /camli/@ HTTP/1.1~~GET /camli/# HTTP/1.1~~|HTTP/1.1 200 OK~Content-Type: application/octet-stream~Content-Length: 3~~abcHTTP/1.1 404 Not Found~Content-Type: application/json~Content-Length: 94~~{\"error\":\"absent\",\"blobRef\":\"#\"}
DELETE /camli/stat HTTP/1.1~~|HTTP/1.1 405 Method Not Allowed~Content-Type: application/json~Content-Length: 18~Allow: GET, POST~~{\"error\":\"method\"}
GET /camli/xyz HTTP/1.1~~|HTTP/1.1 404 Not Found~Content-Type: application/json~Content-Length: 20~~{\"error\":\"no route\"}
GET /camli/enumerate-blobs?limit=0 HTTP/1.1~~|HTTP/1.1 400 Bad Request~Content-Type: application/json~Content-Length: 22~~{\"error\":\"bad number\"}
POST /camli/stat HTTP/1.1~Transfer-Encoding: chunked~~8~camliver~d~sion=1&blob1=~3f~@~0~~|HTTP/1.1 200 OK~Content-Type: application/json~Content-Length: 97~~{\"stat\":[{\"blobRef\":\"@\",\"size\":3}]}
POST /camli/search/query HTTP/1.1~Content-Length: 27~~{\"constraint\":{\"colour\":1}}|HTTP/1.1 400 Bad Request~Content-Type: application/json~Content-Length: 62~~{\"error\":\"bad query\",\"kind\":\"BadKey\",\"at\":\"constraint/colour\"}
POST /camli/search/query HTTP/1.1~Content-Length: 61~~{\"constraint\":{\"logical\":{\"op\":\"and\",\"a\":{\"anything\":true}}}}|HTTP/1.1 400 Bad Request~Content-Type: application/json~Content-Length: 65~~{\"error\":\"bad query\",\"kind\":\"BadValue\",\"at\":\"constraint/logical\"}
POST /camli/search/query HTTP/1.1~Content-Length: 14~~{\"constraint\":|HTTP/1.1 400 Bad Request~Content-Type: application/json~Content-Length: 46~~{\"error\":\"bad query\",\"kind\":\"NotJson\",\"at\":\"\"}";

// Uploads: of three parts, the second of which is under a false ref; and of two, with pages behind it.
const UPLOADS: &str =
    "POST /camli/upload HTTP/1.1~Content-Type: multipart/form-data; boundary=b~Content-Length: 350~~--b~Content-Disposition: form-data; name=\"@\"~~abc~--b~Content-Disposition: form-data; name=\"#\"~~abc~--b~Content-Disposition: form-data; name=\"#\"~~~--b--GET /camli/# HTTP/1.1~~|HTTP/1.1 400 Bad Request~Content-Type: application/json~Content-Length: 266~Connection: close~~{\"received\":[{\"blobRef\":\"@\",\"size\":3}],\"error\":\"bad digest\",\"said\":\"#\",\"is\":\"@\"}
POST /camli/upload HTTP/1.1~Content-Type: multipart/form-data; boundary=b~Content-Length: 234~~--b~Content-Disposition: form-data; name=\"@\"~~abc~--b~Content-Disposition: form-data; name=\"#\"~~~--b--GET /camli/enumerate-blobs HTTP/1.1~~GET /camli/enumerate-blobs?limit=1 HTTP/1.1~~GET /camli/enumerate-blobs?after=# HTTP/1.1~~|HTTP/1.1 200 OK~Content-Type: application/json~Content-Length: 188~~{\"received\":[{\"blobRef\":\"@\",\"size\":3},{\"blobRef\":\"#\",\"size\":0}]}HTTP/1.1 200 OK~Content-Type: application/json~Content-Length: 185~~{\"blobs\":[{\"blobRef\":\"@\",\"size\":3},{\"blobRef\":\"#\",\"size\":0}]}HTTP/1.1 200 OK~Content-Type: application/json~Content-Length: 180~~{\"blobs\":[{\"blobRef\":\"@\",\"size\":3}],\"continueAfter\":\"@\"}HTTP/1.1 200 OK~Content-Type: application/json~Content-Length: 12~~{\"blobs\":[]}";

#[test]
fn requests_are_answered(rt: HostRuntime) -> Result<(), NoMemory> {
    assert_eq!(rt; first_wrong(&rt, rt.alloc(), REQUESTS)?, "");
    Ok(())
}

#[test]
fn uploads_are_answered(rt: HostRuntime) -> Result<(), NoMemory> {
    assert_eq!(rt; first_wrong(&rt, rt.alloc(), UPLOADS)?, "");
    Ok(())
}
