//! Lists of entries.
ghost use Rattle.std.specs.Prelude.{◌≡◌, ◌++◌, ℕ, List, OnOk, map};
ghost use Rattle.std.specs.List.{join_with_byte};
ghost use Rattle.answer_text.specs.Listings.{blob_entry};
ghost use Rattle.answer_text.specs.Search.{search_entry};

use crate::fields::{push_number, push_ref_field};
use blobref::{NoMemory, Ref};

// An item of a list in a text.
pub(crate) trait Entry {
    // The text of the item.
    ghost entry: { Self → List ℕ };

    // Writes it.
    fn push_to(&self, text: &mut Vec<u8>) -> Result<(), NoMemory>
        ensures { OnOk result (text.new.items ≡ text.old.items ++ entry self.now) };
}

// A blob that a search found.
impl Entry for Ref {
    ghost entry = { search_entry };

    fn push_to(&self, text: &mut Vec<u8>) -> Result<(), NoMemory> {
        text.extend_from_slice(b"{\"blob\":\"")?;
        text.extend_from_slice(self.spell().as_slice())?;
        text.extend_from_slice(b"\"}")?;
        Ok(())
    }
}

// A blob with its size.
impl Entry for (Ref, u64) {
    ghost entry = { blob_entry };

    fn push_to(&self, text: &mut Vec<u8>) -> Result<(), NoMemory> {
        push_blob(text, &self.0, self.1)
    }
}

fn push_blob(text: &mut Vec<u8>, r: &Ref, size: u64) -> Result<(), NoMemory>
    ensures { OnOk result (text.new.items ≡ text.old.items ++ blob_entry (r.now, size)) }
{
    text.extend_from_slice(b"{")?;
    push_ref_field(text, b"blobRef", r)?;
    push_number(text, b"size", size)?;
    text.extend_from_slice(b"}")?;
    Ok(())
}

// Writes the items, with a comma between each two.
pub(crate) fn push_entries<T: Entry>(text: &mut Vec<u8>, items: &[T]) -> Result<(), NoMemory>
    ensures { OnOk result (text.new.items ≡ text.old.items ++ join_with_byte 44 (map T.entry items.now)) }
{
    let Some((first, others)) = items.split_first() else {
        return Ok(());
    };
    first.push_to(text)?;
    for item in others {
        text.push(b',')?;
        item.push_to(text)?;
    }
    Ok(())
}
