//! Requests and their replies.
use blobref::{NoMemory, Octets, Ref};
use std::alloc::Global;

/// The bytes that a text spells: `~` is CR LF, `@` the ref of `abc`, and `$` that of no bytes.
pub(crate) fn spelled(alloc: Global, text: &str) -> Result<Octets, NoMemory> {
    let mut bytes = Vec::new(alloc);
    for byte in text.as_bytes() {
        match *byte {
            b'~' => bytes.extend_from_slice(b"\r\n")?,
            b'@' => bytes.extend_from_slice(Ref::of(b"abc").spell().as_slice())?,
            b'$' => bytes.extend_from_slice(Ref::of(b"").spell().as_slice())?,
            other => bytes.push(other)?,
        }
    }
    Ok(Octets::from_vec(bytes))
}

// An upload of `abc`, and its reply, which has so many bytes.
pub(crate) const UPLOAD_ABC: &str =
    r#"POST /camli/upload HTTP/1.1~Content-Type: multipart/form-data; boundary=b~Content-Length: 121~~--b~Content-Disposition: form-data; name="@"~~abc~--b--"#;

pub(crate) const ABC_KEPT: &str =
    r#"HTTP/1.1 200 OK~Content-Type: application/json~Content-Length: 101~~{"received":[{"blobRef":"@","size":3}]}"#;

pub(crate) const KEPT_LEN: u64 = 173;

// An upload of no bytes, and the reply where the store has room for one blob.
pub(crate) const UPLOAD_NONE: &str =
    r#"POST /camli/upload HTTP/1.1~Content-Type: multipart/form-data; boundary=b~Content-Length: 118~~--b~Content-Disposition: form-data; name="$"~~~--b--"#;

pub(crate) const FULL: &str =
    r#"HTTP/1.1 507 Insufficient Storage~Content-Type: application/json~Content-Length: 49~Connection: close~~{"received":[],"error":"full","blobs":1,"pack":0}"#;

// `abc` is asked for, and then what has the tag; and the replies to an upload of no bytes and to these, over a store
// without claims.
pub(crate) const GET_AND_SEARCH: &str =
    r#"GET /camli/@ HTTP/1.1~~POST /camli/search/query HTTP/1.1~Content-Length: 55~~{"constraint":{"permanode":{"attr":"tag","value":"a"}}}"#;

pub(crate) const NONE_KEPT_ABC_NOTHING: &str =
    r#"HTTP/1.1 200 OK~Content-Type: application/json~Content-Length: 101~~{"received":[{"blobRef":"$","size":0}]}HTTP/1.1 200 OK~Content-Type: application/octet-stream~Content-Length: 3~~abcHTTP/1.1 200 OK~Content-Type: application/json~Content-Length: 12~~{"blobs":[]}"#;

// An upload of a key, a permanode, and a claim of 2020-01-01 that its tag is `a`, and then a search for that. They were
// signed outside, with the secret `Jefe` under the name `jefe`.
pub(crate) const UPLOAD_TAGGED_AND_SEARCH: &str =
    r#"POST /camli/upload HTTP/1.1~Content-Type: multipart/form-data; boundary=b~Content-Length: 982~~--b~Content-Disposition: form-data; name="sha224-da4a89851a3c8f7ce55ef510378a1b717451b9f0b152bb73f28508dc"~~perkeep-hmac-sha256 jefe
~--b~Content-Disposition: form-data; name="sha224-adef53a16a87934f7f5595fa4225e39e14c1c80a4e3ed252d959d9b1"~~{"camliVersion":1,"camliType":"permanode","camliSigner":"sha224-da4a89851a3c8f7ce55ef510378a1b717451b9f0b152bb73f28508dc","random":"00112233445566778899aabbccddeeff","camliSig":"20480ddb6050caf547458d70031d535e53bcdb1e1c6be755f5c37d2722b3a864"}
~--b~Content-Disposition: form-data; name="sha224-fdf2b2a7262df1d5a2da6a596527afe7a7c33c1241d7e446d13a7b61"~~{"camliVersion":1,"camliType":"claim","camliSigner":"sha224-da4a89851a3c8f7ce55ef510378a1b717451b9f0b152bb73f28508dc","claimDate":"2020-01-01T00:00:00Z","claimType":"set-attribute","permaNode":"sha224-adef53a16a87934f7f5595fa4225e39e14c1c80a4e3ed252d959d9b1","attribute":"tag","value":"a","camliSig":"10d1df5725e386c0844211f029346266308cb6a1fa16dc782132134c54b3e52d"}
~--b--POST /camli/search/query HTTP/1.1~Content-Length: 55~~{"constraint":{"permanode":{"attr":"tag","value":"a"}}}"#;

// The replies: the three were kept, and the permanode is found.
pub(crate) const TAGGED_AND_FOUND: &str =
    r#"HTTP/1.1 200 OK~Content-Type: application/json~Content-Length: 280~~{"received":[{"blobRef":"sha224-da4a89851a3c8f7ce55ef510378a1b717451b9f0b152bb73f28508dc","size":25},{"blobRef":"sha224-adef53a16a87934f7f5595fa4225e39e14c1c80a4e3ed252d959d9b1","size":245},{"blobRef":"sha224-fdf2b2a7262df1d5a2da6a596527afe7a7c33c1241d7e446d13a7b61","size":368}]}HTTP/1.1 200 OK~Content-Type: application/json~Content-Length: 86~~{"blobs":[{"blob":"sha224-adef53a16a87934f7f5595fa4225e39e14c1c80a4e3ed252d959d9b1"}]}"#;
