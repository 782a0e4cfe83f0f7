//! SHA-256 (FIPS 180-4) of a message whose first block is hashed by itself.
ghost use Rattle.std.specs.Prelude.{◌≡◌};
ghost use Rattle.sha2.specs.Sha256.{digest_bytes};
ghost use Rattle.claim_verify.specs.Hashing.{digest_after, hash_of_block};

use sha_lanes::{compress_blocks, compress_rest};

pub(crate) const BLOCK: usize = 64;

// FIPS 180-4, 5.3.3.
const INITIAL_HASH: [u32; 8] = [
    0x6a09e667, 0xbb67ae85, 0x3c6ef372, 0xa54ff53a, 0x510e527f, 0x9b05688c, 0x1f83d9ab, 0x5be0cd19,
];

/// The hash value after a message's first block.
pub(crate) fn hash_of_block(block: &[u8; BLOCK]) -> [u32; 8]
    ensures { result ≡ hash_of_block block.now }
{
    let mut hash = INITIAL_HASH;
    compress_blocks(&mut hash, block);
    hash
}

/// The digest of a message, by the hash value after its first block and the rest of the message.
pub(crate) fn digest_after(hash: &[u32; 8], rest: &[u8]) -> [u8; 32]
    ensures { result ≡ digest_after hash.now rest.now }
{
    let mut hash = *hash;
    compress_rest(&mut hash, rest, BLOCK);
    digest_of(&hash)
}

// The words of a hash value, high byte first.
fn digest_of(hash: &[u32; 8]) -> [u8; 32]
    ensures { result ≡ digest_bytes hash.now 8 }
{
    let mut digest = [0; 32];
    'words: for i in 0..8 {
        digest[4 * i..4 * i + 4].copy_from_slice(&hash[i].to_be_bytes());
    }
    digest
}
