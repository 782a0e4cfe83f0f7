//! One message by itself.
ghost use Rattle.std.specs.Prelude.{◌≡◌};
ghost use Rattle.sha2.specs.Sha256.{sha224};

use crate::blocks::compress_rest;
use crate::constants::INITIAL_HASH;
use crate::lanes::digest_of;

/// The SHA-224 of a message, in seven to nine tenths of the time that it takes by `sha2`. It takes no memory, and some
/// 8 kB of stack.
pub fn sha224(message: &[u8]) -> [u8; 28]
    ensures { result ≡ sha224 message.now }
{
    let mut state = INITIAL_HASH;
    compress_rest(&mut state, message, 0);
    digest_of(&state)
}
