//! What blobs say.
ghost use Rattle.std.specs.Prelude.{◌≡◌, IfOk};
ghost use Rattle.serde_json.specs.View.{view};
ghost use Rattle.schema_json.specs.Facts.{fact_of, kind_of, schema_kind, file_kind, bytes_kind, directory_kind};
ghost use Rattle.schema_json.specs.Facts.{set_kind, key_in};
ghost use Rattle.schema_json.specs.Reading.{signed_of, payload_kind, signed_first, unsigned_kind, unsigned_object};
ghost use Rattle.schema_json.specs.Reading.{unsigned_in};
ghost use Rattle.schema_fact.specs.Validity.{IsValid};

use crate::claims::claim_of;
use crate::fields::{begins_object, has_type, ref_at, refs_at, text_or_empty, type_of};
use crate::part_list::part_list_of;
use crate::signing::signed_in;
use blobref::{NoMemory, Text};
use claim_verify::KeyName;
use json_laws::json_in;
use schema_fact::{Fact, Kind, Signed};
use serde_json::Value;
use std::alloc::Global;

const MAX_SCHEMA: usize = 1_048_576;

/// What the blob of these bytes says (`docs/formats/schema.md`). The fact is valid: its part list, if it has one,
/// meets the limits on offsets, sizes and their sum. The only error is want of memory.
#[tactic(auto, unfolding(crate::specs::Facts::fact_of))]
pub fn fact(alloc: Global, bytes: &[u8]) -> Result<Fact, NoMemory>
    ensures value { IfOk result (λ found. found ≡ fact_of bytes.now) }
    ensures valid { IfOk result IsValid }
{
    let size = bytes.len() as u64;
    let kind = kind_of(alloc, bytes)?;
    Ok(Fact { size, kind })
}

fn kind_of(alloc: Global, bytes: &[u8]) -> Result<Kind, NoMemory>
    ensures { IfOk result (λ kind. kind ≡ kind_of bytes.now) }
{
    match key_in(bytes) {
        Some(name) => Ok(Kind::Key(name)),
        None => schema_kind(alloc, bytes),
    }
}

// The name of the key whose blob it is.
fn key_in(bytes: &[u8]) -> Option<KeyName>
    ensures { result ≡ key_in bytes.now }
{
    let line = bytes.strip_prefix(b"perkeep-hmac-sha256 ")?;
    KeyName::read(line.strip_suffix(b"\n")?)
}

// What a blob that is no key says. It is read as JSON only where it may be an object.
fn schema_kind(alloc: Global, bytes: &[u8]) -> Result<Kind, NoMemory>
    ensures { IfOk result (λ kind. kind ≡ schema_kind bytes.now) }
{
    if bytes.len() > MAX_SCHEMA {
        return Ok(Kind::Plain);
    }
    if !begins_object(bytes) {
        return Ok(Kind::Plain);
    }
    match signed_first(alloc, bytes)? {
        Some(kind) => Ok(kind),
        None => unsigned_in(alloc, bytes),
    }
}

// What a signed blob says, by its payload and its signature: the whole isn't read.
fn signed_first(alloc: Global, bytes: &[u8]) -> Result<Option<Kind>, NoMemory>
    ensures { IfOk result (λ kind. kind ≡ signed_first bytes.now) }
{
    match signed_in(alloc, bytes)? {
        Some((object, signed)) => Ok(Some(payload_kind(alloc, &object, signed)?)),
        None => Ok(None),
    }
}

// What a payload's object says, with what is signed or by itself.
fn payload_kind(alloc: Global, object: &Value, signed: Signed) -> Result<Kind, NoMemory>
    ensures { IfOk result (λ kind. kind ≡ payload_kind (view object.now) signed) }
{
    match signed_of(alloc, object, signed)? {
        Some(kind) => Ok(kind),
        None => unsigned_object(alloc, object),
    }
}

// What a payload's object says with what is signed.
fn signed_of(alloc: Global, object: &Value, signed: Signed) -> Result<Option<Kind>, NoMemory>
    ensures { IfOk result (λ kind. kind ≡ signed_of (view object.now) signed) }
{
    if has_type(object, "permanode") {
        return Ok(Some(Kind::Permanode(signed)));
    }
    claim_of(alloc, object, signed)
}

// What a blob says that isn't signed.
fn unsigned_in(alloc: Global, bytes: &[u8]) -> Result<Kind, NoMemory>
    ensures { IfOk result (λ kind. kind ≡ unsigned_in bytes.now) }
{
    match json_in(alloc, bytes)? {
        Some(value) => unsigned_object(alloc, &value),
        None => Ok(Kind::Plain),
    }
}

fn unsigned_object(alloc: Global, value: &Value) -> Result<Kind, NoMemory>
    ensures { IfOk result (λ kind. kind ≡ unsigned_object (view value.now)) }
{
    let Some(type_name) = type_of(value) else {
        return Ok(Kind::Plain);
    };
    match unsigned_kind(alloc, type_name, value)? {
        Some(kind) => Ok(kind),
        None => Ok(Kind::Unread(Text::copy(alloc, type_name)?)),
    }
}

// What an object of this type says that needn't be signed, where it meets the conditions of the type.
fn unsigned_kind(alloc: Global, type_name: &str, value: &Value) -> Result<Option<Kind>, NoMemory>
    ensures { IfOk result (λ kind. kind ≡ unsigned_kind type_name.now (view value.now)) }
{
    match type_name {
        "file" => file_kind(alloc, value),
        "bytes" => bytes_kind(alloc, value),
        "directory" => directory_kind(alloc, value),
        "static-set" => set_kind(alloc, value),
        _ => Ok(None),
    }
}

fn file_kind(alloc: Global, value: &Value) -> Result<Option<Kind>, NoMemory>
    ensures { IfOk result (λ kind. kind ≡ file_kind (view value.now)) }
{
    let Some(name) = text_or_empty(value, "fileName") else {
        return Ok(None);
    };
    let Some(parts) = part_list_of(alloc, value)? else {
        return Ok(None);
    };
    let name = Text::copy(alloc, name)?;
    Ok(Some(Kind::File { name, parts }))
}

fn bytes_kind(alloc: Global, value: &Value) -> Result<Option<Kind>, NoMemory>
    ensures { IfOk result (λ kind. kind ≡ bytes_kind (view value.now)) }
{
    Ok(part_list_of(alloc, value)?.map(Kind::Bytes))
}

fn directory_kind(alloc: Global, value: &Value) -> Result<Option<Kind>, NoMemory>
    ensures { IfOk result (λ kind. kind ≡ directory_kind (view value.now)) }
{
    let Some(name) = text_or_empty(value, "fileName") else {
        return Ok(None);
    };
    let Some(entries) = ref_at(value, "entries") else {
        return Ok(None);
    };
    let name = Text::copy(alloc, name)?;
    Ok(Some(Kind::Directory { name, entries }))
}

fn set_kind(alloc: Global, value: &Value) -> Result<Option<Kind>, NoMemory>
    ensures { IfOk result (λ kind. kind ≡ set_kind (view value.now)) }
{
    if value.get("mergeSets").is_some() {
        return Ok(None);
    }
    Ok(refs_at(alloc, value, "members")?.map(Kind::StaticSet))
}
