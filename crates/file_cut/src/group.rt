//! The chunks of a piece, which are named together and put one after the other.
ghost use Rattle.std.specs.Prelude.{◌≡◌, ◌≤◌, ◌<◌, ◌*◌, ℕ, List, ◌++◌, length, slice_index_or, [], IfErr, OnOk};
ghost use Rattle.sha2.specs.Sha256.{sha224};
ghost use Rattle.edge_base.specs.Shelf.{max_blob};
ghost use Rattle.file_cut.specs.Cutting.{cut, below_file, chunk_at, together};
ghost use Rattle.file_cut.specs.Drafts.{IsCut, IsPut, HasRoom};

use crate::draft::{Draft, put_next};
use blobref::Ref;
use edge_base::{PutFault, Shelf};
use sha_lanes::sha224_all;
use std::alloc::Global;

/// How many chunks a piece has at most.
pub(crate) const TOGETHER: usize = 8;

// The chunk of this number, and nothing past the last one.
fn chunk_at(bytes: &[u8], size: usize, i: usize) -> &[u8]
    requires size { size ≤ max_blob }
    requires few { i < together }
    ensures { result.now ≡ chunk_at size bytes.now i }
{
    let rest = &bytes[(i * size).min(bytes.len())..];
    &rest[..size.min(rest.len())]
}

// The digests of the chunks, in their order, and past the last one that of nothing. They are hashed together.
fn digests_of(bytes: &[u8], size: usize) -> [[u8; 28]; TOGETHER]
    requires { size ≤ max_blob }
    ensures { (i : ℕ) → i < together → slice_index_or result i [] ≡ sha224 (chunk_at size bytes.now i) }
{
    let mut chunks: [&[u8]; TOGETHER] = [&[]; TOGETHER];
    'chunks: for i in 0..TOGETHER {
        chunks[i] = chunk_at(bytes, size, i);
    }
    let mut digests = [[0; 28]; TOGETHER];
    sha224_all(&chunks, &mut digests);
    digests
}

/// Puts the chunks of a piece, each once the run before it is closed where it is full. After a refusal a front of the
/// blobs below the file was put, whatever chunks were to come behind these.
pub(crate) fn put_piece<B: Shelf>(
    alloc: Global,
    shelf: &mut B,
    draft: &mut Draft,
    bytes: &[u8],
    size: usize,
    full: usize,
) -> Result<(), PutFault>
    requires some { 0 < size }
    requires fits { size ≤ max_blob }
    requires full { 0 < full }
    requires short { full ≤ 4096 }
    requires few { length bytes.now ≤ together * size }
    requires room { HasRoom B.Shelf full shelf.old draft.old (length bytes.now) }
    ensures ok { OnOk result ((start : B) (chunks : List (List ℕ)) → IsPut B.Shelf full start shelf.old draft.old chunks
        → IsPut B.Shelf full start shelf.new draft.new (chunks ++ cut size bytes.now)) }
    ensures err { IfErr result (λ fault. (start : B) (chunks more : List (List ℕ))
        → IsPut B.Shelf full start shelf.old draft.old chunks
        → IsCut B.Shelf start (below_file full (chunks ++ (cut size bytes.now ++ more))) shelf.new fault) }
{
    let digests = digests_of(bytes, size);
    'chunks: for i in 0..TOGETHER {
        let chunk = chunk_at(bytes, size, i);
        if chunk.is_empty() {
            return Ok(());
        }
        let r = Ref::from_digest(digests[i]);
        put_next(alloc, shelf, draft, &r, chunk, full)?;
    }
    Ok(())
}
