//! Blobs with their sizes, as the text of an answer lists them.
ghost use Rattle.std.specs.Prelude.{◌≡◌, IfOk, option_copied};
ghost use Rattle.std.specs.FinMap.{is_sorted};
ghost use Rattle.serde_json.specs.View.{view, items_view};
ghost use Rattle.blobref.specs.Blobref.{ref_cmp};
ghost use Rattle.answer_text.specs.Reading.{text_at, ref_at, whole_at, entry_in, entries_of, entries_at};

use blobref::{Listing, NoMemory, Ref};
use serde_json::Value;
use std::alloc::Global;

// The text under a key.
fn text_at<'v>(object: &'v Value, key: &str) -> Option<&'v str>
    ensures { option_copied result ≡ text_at key.now (view object.now) }
{
    object.get(key).and_then(Value::as_str)
}

// The ref under a key.
fn ref_at(object: &Value, key: &str) -> Option<Ref>
    ensures { result ≡ ref_at key.now (view object.now) }
{
    Ref::read(text_at(object, key)?.as_bytes())
}

// The whole number under a key.
fn whole_at(object: &Value, key: &str) -> Option<u64>
    ensures { result ≡ whole_at key.now (view object.now) }
{
    object.get(key).and_then(Value::as_u64)
}

// The ref and the size of one blob.
fn entry_in(object: &Value) -> Option<(Ref, u64)>
    ensures { result ≡ entry_in (view object.now) }
{
    let r = ref_at(object, "blobRef")?;
    let size = whole_at(object, "size")?;
    Some((r, size))
}

// The list of blobs under a key: None where no list stands there, or one of its items is no blob.
pub(crate) fn entries_at(
    alloc: Global,
    object: &Value,
    key: &str,
) -> Result<Option<Listing>, NoMemory>
    ensures { IfOk result (λ entries. entries ≡ entries_at key.now (view object.now)) }
{
    match object.get(key).and_then(Value::as_array) {
        Some(items) => entries_of(alloc, items),
        None => Ok(None),
    }
}

fn entries_of(alloc: Global, items: &[Value]) -> Result<Option<Listing>, NoMemory>
    ensures { IfOk result (λ entries. entries ≡ entries_of (items_view items.now)) }
{
    let mut entries = Listing::empty(alloc);
    for value in items {
        let Some(entry) = entry_in(value) else {
            return Ok(None);
        };
        entries.push(entry)?;
    }
    Ok(Some(entries))
}

// Whether the refs ascend, each once.
pub(crate) fn ascends(entries: &[(Ref, u64)]) -> bool
    ensures { result ≡ is_sorted ref_cmp entries.now }
{
    entries.is_sorted_by(|one, next| one.0 < next.0)
}
