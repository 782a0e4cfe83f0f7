//! Why a blob is refused by its size or its digest alone.
ghost use Rattle.std.specs.Prelude.{◌≡◌, None};
ghost use Rattle.blobref.specs.Blobref.{IsOwnRef};
ghost use Rattle.pack_format.specs.Refusing.{put_refused};

use crate::sizes::MAX_SIZE;
use blob_checks::ref_like;
use blobref::Ref;
use edge_base::PutFault;

/// Why these bytes can't be put under a said ref, whatever the store holds, if they can't: `TooBig` where there are
/// more than 16,777,216 of them, and else `BadDigest` where their ref, under the digest that the said one names, isn't
/// the said one. It hashes the bytes.
pub fn put_refusal(said: &Ref, bytes: &[u8]) -> Option<PutFault>
    ensures refused { result ≡ put_refused said.now bytes.now }
    ensures own { result ≡ None → IsOwnRef said.now bytes.now }
{
    let size = bytes.len() as u64;
    if size > MAX_SIZE {
        return Some(PutFault::TooBig { size });
    }
    let is = ref_like(said, bytes);
    if is != *said {
        return Some(PutFault::BadDigest { said: *said, is });
    }
    None
}
