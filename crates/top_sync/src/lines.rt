//! The line that both write.
ghost use Rattle.std.specs.Prelude.{◌≡◌, ◌++◌, decimal, IfOk, OnOk};
ghost use Rattle.top_sync.specs.Meanings.{copied_line};

use blobref::{NoMemory, Octets};
use itoa::Buffer;
use std::alloc::Global;
use sync_core::Synced;

/// How many blobs were copied, and how many stood there already.
pub(crate) fn copied_line(alloc: Global, synced: Synced) -> Result<Octets, NoMemory>
    ensures { IfOk result (λ line. line ≡ copied_line synced.copied synced.already) }
{
    let mut line = Vec::new(alloc);
    line.extend_from_slice(b"copied ")?;
    push_decimal(&mut line, synced.copied)?;
    line.extend_from_slice(b" already ")?;
    push_decimal(&mut line, synced.already)?;
    line.push(b'\n')?;
    Ok(Octets::from_vec(line))
}

/// Puts the decimal digits of a number behind what is there.
pub fn push_decimal(line: &mut Vec<u8>, number: u64) -> Result<(), NoMemory>
    ensures { OnOk result (line.new.items ≡ line.old.items ++ decimal number) }
{
    let mut digits = Buffer::new();
    line.extend_from_slice(digits.format(number).as_bytes())?;
    Ok(())
}
