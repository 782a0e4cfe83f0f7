//! What is told of a run.

use blobref::{NoMemory, Ref};
use std::alloc::Global;

/// Adds bytes.
pub(crate) fn add_bytes(line: &mut Vec<u8>, bytes: &[u8]) -> Result<(), NoMemory> {
    line.extend_from_slice(bytes)?;
    Ok(())
}

/// Adds a number.
pub(crate) fn add_number(alloc: Global, line: &mut Vec<u8>, number: u64) -> Result<(), NoMemory> {
    let digits = format!(in alloc; "{}", number)?;
    add_bytes(line, digits.as_bytes())
}

/// Adds a space, an equals sign, and bytes in hexadecimal digits.
pub(crate) fn add_written(
    alloc: Global,
    line: &mut Vec<u8>,
    written: &[u8],
) -> Result<(), NoMemory> {
    let digits = hex::encode(alloc, written)?;
    line.extend_from_slice(b" =")?;
    add_bytes(line, digits.as_bytes())
}

/// Adds a space and the ref of bytes.
pub(crate) fn add_ref(line: &mut Vec<u8>, bytes: &[u8]) -> Result<(), NoMemory> {
    line.push(b' ')?;
    line.extend_from_slice(Ref::of(bytes).spell().as_slice())?;
    Ok(())
}
