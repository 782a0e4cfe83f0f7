//! Digests of blobs, by lanes.
ghost use Rattle.std.specs.Prelude.{◌≡◌, ◌≤◌, ◌<◌, ℕ, [], All, length, nat_eq, not, take, slice_index_or};
ghost use Rattle.std.specs.List.{prefix_len, starts_with};
ghost use Rattle.sha2.specs.Sha256.{sha224};
ghost use Rattle.blobref.specs.Blobref.{ref_like, sha1_name};
ghost use Rattle.blob_checks.specs.Checks.{IsNamed, is_named, bytes_at};

use blobref::{Octets, Ref};
use sha_lanes::{sha224, sha224_all};

/// How many blobs are checked together at most.
pub const COUNT: usize = 64;

/// How many bytes these had better have together at most: so much is read at a time of what is checked.
pub const BYTES: u64 = 8_388_608;

/// Whether blobs of such a ref are checked together. Those of older refs, which name a SHA-1, are checked one by one.
pub fn has_lanes(r: &Ref) -> bool
    ensures { result ≡ not (starts_with nat_eq r.now sha1_name) }
{
    !r.is_sha1()
}

/// The ref that the bytes have under the digest that `r` names, as `Ref::like` gives it. A SHA-224 takes less time than
/// there, seven tenths of it where the bytes are many.
pub fn ref_like(r: &Ref, bytes: &[u8]) -> Ref
    ensures { result ≡ ref_like r.now bytes.now }
{
    if r.is_sha1() {
        r.like(bytes)
    } else {
        Ref::from_digest(sha224(bytes))
    }
}

/// How many blobs come before the first one whose ref isn't the SHA-224 of its bytes, of the first `COUNT`. These are
/// hashed together, up to eight at a time, which takes less time than one after the other.
pub fn own_count(blobs: &[(Ref, Octets)]) -> usize
    ensures count { result ≡ prefix_len is_named (take 64 blobs.now) }
    ensures named { All IsNamed (take result blobs.now) }
{
    let blobs = &blobs[..blobs.len().min(COUNT)];
    let digests = digests_of(blobs);
    'blobs: for i in 0..blobs.len() {
        if blobs[i].0 != Ref::from_digest(digests[i]) {
            return i;
        }
    }
    blobs.len()
}

fn digests_of(blobs: &[(Ref, Octets)]) -> [[u8; 28]; COUNT]
    requires { length blobs.now ≤ 64 }
    ensures { (i : ℕ) → i < length blobs.now → slice_index_or result i [] ≡ sha224 (bytes_at blobs.now i) }
{
    let mut messages: [&[u8]; COUNT] = [&[]; COUNT];
    let mut digests = [[0; 28]; COUNT];
    'blobs: for i in 0..blobs.len() {
        messages[i] = blobs[i].1.as_slice();
    }
    let count = blobs.len();
    sha224_all(&messages[..count], &mut digests[..count]);
    digests
}
