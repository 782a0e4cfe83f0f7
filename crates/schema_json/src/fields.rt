//! The fields of JSON objects that facts are made of.
ghost use Rattle.std.specs.Prelude.{◌≡◌, IfOk, Some, None, option_map, option_copied};
ghost use Rattle.json.specs.Word.{is_space};
ghost use Rattle.serde_json.specs.View.{view, items_view};
ghost use Rattle.serde_json.specs.Find.{get};
ghost use Rattle.schema_json.specs.Fields.{begins_object, text_at, text_or_empty, whole_at, whole_or_zero, ref_in, ref_at, refs_at, refs_of, type_of, has_type};

use blobref::{NoMemory, Ref, RefList};
use serde_json::Value;
use std::alloc::Global;

// Whether the first byte that is no white space is a brace, as in the text of an object.
pub(crate) fn begins_object(bytes: &[u8]) -> bool
    ensures { result ≡ begins_object bytes.now }
{
    bytes.iter().find(|byte| !is_space(**byte)) == Some(&b'{')
}

fn is_space(byte: u8) -> bool
    ensures { result ≡ is_space byte }
{
    matches!(byte, b' ' | b'\t' | b'\n' | b'\r')
}

/// The text under a key.
pub fn text_at<'v>(object: &'v Value, key: &str) -> Option<&'v str>
    ensures { option_copied result ≡ text_at key.now (view object.now) }
{
    object.get(key).and_then(Value::as_str)
}

// The text under a key, or the empty one where there is no such key.
pub(crate) fn text_or_empty<'v>(object: &'v Value, key: &str) -> Option<&'v str>
    ensures { option_copied result ≡ text_or_empty (get key.now (view object.now)) }
{
    match object.get(key) {
        None => Some(""),
        Some(value) => value.as_str(),
    }
}

// The whole number under a key.
pub(crate) fn whole_at(object: &Value, key: &str) -> Option<u64>
    ensures { result ≡ whole_at key.now (view object.now) }
{
    object.get(key).and_then(Value::as_u64)
}

// The whole number under a key, or zero where there is no such key.
pub(crate) fn whole_or_zero(object: &Value, key: &str) -> Option<u64>
    ensures { result ≡ whole_or_zero (get key.now (view object.now)) }
{
    match object.get(key) {
        None => Some(0),
        Some(value) => value.as_u64(),
    }
}

// The ref that a value is.
pub(crate) fn ref_in(value: &Value) -> Option<Ref>
    ensures { result ≡ ref_in (view value.now) }
{
    Ref::read(value.as_str()?.as_bytes())
}

/// The ref under a key.
pub fn ref_at(object: &Value, key: &str) -> Option<Ref>
    ensures { result ≡ ref_at key.now (view object.now) }
{
    ref_in(object.get(key)?)
}

// The list of refs under a key.
pub(crate) fn refs_at(alloc: Global, object: &Value, key: &str) -> Result<Option<RefList>, NoMemory>
    ensures { IfOk result (λ refs. refs ≡ refs_at key.now (view object.now)) }
{
    match object.get(key).and_then(Value::as_array) {
        Some(items) => refs_of(alloc, items),
        None => Ok(None),
    }
}

fn refs_of(alloc: Global, items: &[Value]) -> Result<Option<RefList>, NoMemory>
    ensures { IfOk result (λ refs. refs ≡ refs_of (items_view items.now)) }
{
    let mut refs = RefList::empty(alloc);
    for value in items {
        let Some(r) = ref_in(value) else {
            return Ok(None);
        };
        refs.push(r)?;
    }
    Ok(Some(refs))
}

// The type of a schema object.
pub(crate) fn type_of(object: &Value) -> Option<&str>
    ensures { option_copied result ≡ type_of (view object.now) }
{
    if whole_at(object, "camliVersion")? != 1 {
        return None;
    }
    text_at(object, "camliType")
}

/// Whether it is a schema object of this type.
pub fn has_type(object: &Value, name: &str) -> bool
    ensures { result ≡ has_type name.now (view object.now) }
{
    type_of(object) == Some(name)
}
