//! Part lists of schema objects.
ghost use Rattle.std.specs.Prelude.{◌≡◌, ◌++◌, ◌∷◌, [], IfOk, OnOk};
ghost use Rattle.serde_json.specs.View.{view, items_view};
ghost use Rattle.schema_json.specs.Parts.{length_in, origin_in, part_in, parts_of, part_list_of};
ghost use Rattle.schema_fact.specs.Limits.{is_length, total_size};

use crate::fields::{ref_in, whole_at, whole_or_zero};
use blobref::NoMemory;
use schema_fact::{Origin, Part, PartList};
use serde_json::Value;
use std::alloc::Global;

const MAX_LENGTH: u64 = 281_474_976_710_656;

// The part list under `parts`.
pub(crate) fn part_list_of(alloc: Global, object: &Value) -> Result<Option<PartList>, NoMemory>
    ensures { IfOk result (λ parts. parts ≡ part_list_of (view object.now)) }
{
    let Some(items) = object.get("parts").and_then(Value::as_array) else {
        return Ok(None);
    };
    let Some(parts) = parts_of(alloc, items)? else {
        return Ok(None);
    };
    if are_short(parts.as_slice()) {
        Ok(Some(parts))
    } else {
        Ok(None)
    }
}

fn parts_of(alloc: Global, items: &[Value]) -> Result<Option<PartList>, NoMemory>
    ensures { IfOk result (λ parts. parts ≡ parts_of (items_view items.now)) }
{
    let mut parts = PartList::empty(alloc);
    for value in items {
        let Some(part) = part_in(value) else {
            return Ok(None);
        };
        push(&mut parts, part)?;
    }
    Ok(Some(parts))
}

// Puts a part behind the others.
fn push(parts: &mut PartList, part: Part) -> Result<(), NoMemory>
    ensures { OnOk result (parts.new ≡ parts.old ++ part ∷ []) }
{
    let Part {
        size,
        offset,
        origin,
    } = part;
    parts.push(Part {
        size,
        offset,
        origin,
    })
}

// Whether the sum of the sizes is within the limit.
fn are_short(parts: &[Part]) -> bool
    ensures { result ≡ is_length (total_size parts.now) }
{
    let mut left = MAX_LENGTH;
    for part in parts {
        if part.size > left {
            return false;
        }
        left -= part.size;
    }
    true
}

fn part_in(value: &Value) -> Option<Part>
    ensures { result ≡ part_in (view value.now) }
{
    let size = length_in(whole_at(value, "size"))?;
    let offset = length_in(whole_or_zero(value, "offset"))?;
    let origin = origin_in(value)?;
    Some(Part {
        size,
        offset,
        origin,
    })
}

fn length_in(found: Option<u64>) -> Option<u64>
    ensures { result ≡ length_in found }
{
    found.filter(|length| *length <= MAX_LENGTH)
}

// At most one of the two keys may stand.
fn origin_in(value: &Value) -> Option<Origin>
    ensures { result ≡ origin_in (view value.now) }
{
    match (value.get("blobRef"), value.get("bytesRef")) {
        (None, None) => Some(Origin::Zeros),
        (Some(blob), None) => Some(Origin::Blob(ref_in(blob)?)),
        (None, Some(tree)) => Some(Origin::Tree(ref_in(tree)?)),
        (Some(_), Some(_)) => None,
    }
}
