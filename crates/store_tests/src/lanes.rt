//! Digests of several messages at once.
use crate::names::{ABC, EMPTY};
use blobref::Ref;
use sha_lanes::sha224_all;

// FIPS 180-4's example of two blocks.
const BLOCKS: &str = "sha224-75388b16512776cc5dba5da1fd890150b0c6455cb4f58b1952522525";

// Whether the text spells the digest.
fn spells(text: &str, digest: [u8; 28]) -> bool {
    Ref::from_digest(digest).spell().as_slice() == text.as_bytes()
}

// The examples of the standard and the empty message: the fifth takes the lane of one that has ended, and the last two
// are ended alone.
#[test]
fn digests_of_the_standards_examples(rt: HostRuntime) {
    let blocks: &[u8] = b"abcdbcdecdefdefgefghfghighijhijkijkljklmklmnlmnomnopnopq";
    let mut digests = [[0; 28]; 6];
    sha224_all(&[b"", blocks, b"abc", b"", blocks, b"abc"], &mut digests);
    assert!(rt; spells(EMPTY, digests[0]) && spells(EMPTY, digests[3]));
    assert!(rt; spells(BLOCKS, digests[1]) && spells(BLOCKS, digests[4]));
    assert!(rt; spells(ABC, digests[2]) && spells(ABC, digests[5]));
}
