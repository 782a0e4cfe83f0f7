//! The records of blobs.
ghost use Rattle.std.specs.Prelude.{◌≡◌, ◌≤◌, length, IfOk};
ghost use Rattle.pack_format.specs.Header.{max_size, record_under};

use blobref::{NoMemory, Ref};
use pack_format::write_header;
use std::alloc::Global;

// The record of a blob under a ref: see docs/formats/packs.md.
pub(crate) fn record_of(alloc: Global, r: &Ref, bytes: &[u8]) -> Result<Vec<u8>, NoMemory>
    requires { length bytes.now ≤ max_size }
    ensures { IfOk result (λ text. text.items ≡ record_under r.now bytes.now) }
{
    let header = write_header(r, bytes.len() as u64);
    let header = header.as_slice();
    let mut record = Vec::with_capacity(alloc, header.len() + bytes.len())?;
    record.extend_from_slice(header)?;
    record.extend_from_slice(bytes)?;
    Ok(record)
}
