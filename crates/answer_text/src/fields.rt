//! Fields behind others.
ghost use Rattle.std.specs.Prelude.{◌≡◌, ◌++◌, OnOk};
ghost use Rattle.answer_text.specs.Refusals.{ref_detail, ref_field, number_detail};

use blobref::{NoMemory, Ref};
use itoa::Buffer;

// Writes a number under a key, behind a comma.
pub(crate) fn push_number(text: &mut Vec<u8>, key: &[u8], number: u64) -> Result<(), NoMemory>
    ensures { OnOk result (text.new.items ≡ text.old.items ++ number_detail key.now number) }
{
    text.extend_from_slice(b",\"")?;
    text.extend_from_slice(key)?;
    text.extend_from_slice(b"\":")?;
    text.extend_from_slice(Buffer::new().format(number).as_bytes())?;
    Ok(())
}

// Writes a ref under a key, behind a comma.
pub(crate) fn push_ref(text: &mut Vec<u8>, key: &[u8], r: &Ref) -> Result<(), NoMemory>
    ensures { OnOk result (text.new.items ≡ text.old.items ++ ref_detail key.now r.now) }
{
    text.extend_from_slice(b",")?;
    push_ref_field(text, key, r)
}

// Writes a ref under a key.
pub(crate) fn push_ref_field(text: &mut Vec<u8>, key: &[u8], r: &Ref) -> Result<(), NoMemory>
    ensures { OnOk result (text.new.items ≡ text.old.items ++ ref_field key.now r.now) }
{
    text.extend_from_slice(b"\"")?;
    text.extend_from_slice(key)?;
    text.extend_from_slice(b"\":\"")?;
    text.extend_from_slice(r.spell().as_slice())?;
    text.extend_from_slice(b"\"")?;
    Ok(())
}
