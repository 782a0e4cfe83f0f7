//! Shares that are served over a store and a listener in memory: the blobs of `docs/shares.md`.
ghost use Rattle.std.specs.Prelude.{◌≡◌, ℕ, None};
ghost use Rattle.std.specs.FinMap.{get};
ghost use Rattle.pack_disk.specs.Past.{told};

use crate::serving::{Talk, line};
use blobref::{NoMemory, Ref};
use claim_verify::{KeyName, Keyring};
use edge_base::{CallList, Failed};
use pack_disk::{Disk, MemDisk};
use share_server::{Status, serve_shares};
use std::alloc::Global;
use std::sync::Wait;

const KEY: &str = "perkeep-hmac-sha256 jefe\n";

const CHUNK: &str = "abc";

const FILE: &str =
    r#"{"camliVersion":1,"camliType":"file","fileName":"abc.txt","parts":[{"blobRef":"sha224-23097d223405d8228642a477bda255b32aadbce4bda0b3f7e36c9da7","size":3}]}
"#;

// A share of the file that isn't transitive, and one that is; the deletion of this one, and the deletion of that.
const SHARE: &str =
    r#"{"camliVersion":1,"camliType":"claim","camliSigner":"sha224-da4a89851a3c8f7ce55ef510378a1b717451b9f0b152bb73f28508dc","claimDate":"2020-01-01T00:00:00Z","claimType":"share","authType":"haveref","target":"sha224-acf3a4f544fe52e339900ceed80919b30d491c01a21788c1360a78be","camliSig":"143087a49eb06cfd39d63a01bdf93efb1cc651b780ebbac41f2d78f8e4e372a3"}
"#;

const TRANSITIVE: &str =
    r#"{"camliVersion":1,"camliType":"claim","camliSigner":"sha224-da4a89851a3c8f7ce55ef510378a1b717451b9f0b152bb73f28508dc","claimDate":"2020-01-01T00:00:00Z","claimType":"share","authType":"haveref","target":"sha224-acf3a4f544fe52e339900ceed80919b30d491c01a21788c1360a78be","transitive":true,"camliSig":"16e9de3dc2a32d06e88a90a96ac32debec9218b6e766d85de6dc390bfab66a83"}
"#;

const DELETED: &str =
    r#"{"camliVersion":1,"camliType":"claim","camliSigner":"sha224-da4a89851a3c8f7ce55ef510378a1b717451b9f0b152bb73f28508dc","claimDate":"2020-01-02T00:00:00Z","claimType":"delete","target":"sha224-00db53ba77fcec2ea7615b58115a87c61172cd1895cdc5b127a46493","camliSig":"1eb218b9d9d377b758e9cb4fc4a149a0f7575694e75768cefa8b7523a106a5ef"}
"#;

const RESTORED: &str =
    r#"{"camliVersion":1,"camliType":"claim","camliSigner":"sha224-da4a89851a3c8f7ce55ef510378a1b717451b9f0b152bb73f28508dc","claimDate":"2020-01-03T00:00:00Z","claimType":"delete","target":"sha224-c560078dcbae6f20d269c1270a7474c61dee75316dd4ed69350ce2a9","camliSig":"c65cd12dacc245af501be97ddeccd9526419630e8539aa45246dfa0598b0d0c1"}
"#;

// What is asked: the file by each of the two shares, and its chunk by the one that isn't transitive.
const FILE_BY_SHARE: &str =
    "GET /share/sha224-acf3a4f544fe52e339900ceed80919b30d491c01a21788c1360a78be?via=sha224-821f699c907a52f33aa7c85a40ed78fd6bb04c76f6e09ad5c50ad92e HTTP/1.1~~";

const FILE_BY_TRANSITIVE: &str =
    "GET /share/sha224-acf3a4f544fe52e339900ceed80919b30d491c01a21788c1360a78be?via=sha224-00db53ba77fcec2ea7615b58115a87c61172cd1895cdc5b127a46493 HTTP/1.1~~";

const CHUNK_BY_SHARE: &str =
    "GET /share/sha224-23097d223405d8228642a477bda255b32aadbce4bda0b3f7e36c9da7?via=sha224-821f699c907a52f33aa7c85a40ed78fd6bb04c76f6e09ad5c50ad92e,sha224-acf3a4f544fe52e339900ceed80919b30d491c01a21788c1360a78be HTTP/1.1~~";

const FILE_SERVED: &str =
    r#"HTTP/1.1 200 OK~Content-Type: application/octet-stream~Content-Length: 156~~{"camliVersion":1,"camliType":"file","fileName":"abc.txt","parts":[{"blobRef":"sha224-23097d223405d8228642a477bda255b32aadbce4bda0b3f7e36c9da7","size":3}]}
"#;

const IS_NOT_TRANSITIVE: &str =
    r#"HTTP/1.1 403 Forbidden~Content-Type: application/json~Content-Length: 41~~{"error":"share","rule":"not transitive"}"#;

const IS_DELETED: &str =
    r#"HTTP/1.1 403 Forbidden~Content-Type: application/json~Content-Length: 34~~{"error":"share","rule":"deleted"}"#;

// The blobs of a store, a request, and its reply.
const CASES: [(&[&str], &str, &str); 4] = [
    (&[KEY, CHUNK, FILE, SHARE], FILE_BY_SHARE, FILE_SERVED),
    (
        &[KEY, CHUNK, FILE, SHARE],
        CHUNK_BY_SHARE,
        IS_NOT_TRANSITIVE,
    ),
    (
        &[KEY, CHUNK, FILE, TRANSITIVE, DELETED],
        FILE_BY_TRANSITIVE,
        IS_DELETED,
    ),
    (
        &[KEY, CHUNK, FILE, TRANSITIVE, DELETED, RESTORED],
        FILE_BY_TRANSITIVE,
        FILE_SERVED,
    ),
];

// A pack of these blobs (`docs/formats/packs.md`).
fn pack_of(alloc: Global, blobs: &[&str]) -> Result<Vec<u8>, NoMemory> {
    let mut pack = Vec::new(alloc);
    for blob in blobs {
        let size = format!(in alloc; " {}]", blob.len())?;
        pack.push(b'[')?;
        pack.extend_from_slice(Ref::of(blob.as_bytes()).spell().as_slice())?;
        pack.extend_from_slice(size.as_bytes())?;
        pack.extend_from_slice(blob.as_bytes())?;
    }
    Ok(pack)
}

// A disk whose one pack holds these blobs.
fn disk_of(alloc: Global, blobs: &[&str]) -> Result<MemDisk, NoMemory> {
    let pack = pack_of(alloc, blobs)?;
    let mut disk = MemDisk::empty(alloc, CallList::empty(alloc), u64::MAX);
    match add_pack(&mut disk, &pack) {
        Ok(()) => Ok(disk),
        Err(_) => Err(NoMemory),
    }
}

fn add_pack(disk: &mut MemDisk, bytes: &[u8]) -> Result<(), Failed>
    requires { (n : ℕ) → get (told disk.old.history) n ≡ None }
{
    disk.make(0)?;
    disk.append(0, bytes)?;
    disk.sync(0)
}

// The key under which all was signed.
fn keys(alloc: Global) -> Keyring {
    let mut keys = Keyring::empty(alloc);
    if let Some(name) = KeyName::read(b"jefe") {
        let _ = keys.add(&name, b"Jefe");
    }
    keys
}

// Serves one connection, on which this is said, and answers whether that was all, and the reply the one that is wanted.
fn is_answered<R: Wait>(
    rt: &R,
    alloc: Global,
    blobs: &[&str],
    request: &str,
    talk: &Talk,
) -> Result<bool, NoMemory> {
    let mut listener = line(alloc, talk.connection(alloc, request, "", &talk.told, 0)?)?;
    let (_, status) = serve_shares(
        rt,
        alloc,
        disk_of(alloc, blobs)?,
        &keys(alloc),
        &mut listener,
        1,
    );
    Ok(matches!(status, Status::Done) && talk.is_told())
}

#[test]
fn shares_are_served(rt: HostRuntime) -> Result<(), NoMemory> {
    for (blobs, request, reply) in CASES {
        let talk = Talk::of(rt.alloc(), reply)?;
        assert!(rt;
            is_answered(&rt, rt.alloc(), blobs, request, &talk)?,
            "{request}"
        );
    }
    Ok(())
}
