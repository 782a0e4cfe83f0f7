//! Signed blobs.
ghost use Rattle.std.specs.Prelude.{◌≡◌, ◌<◌, ◌++◌, length, IfOk, IfSome, Some, option_map};
ghost use Rattle.serde_json.specs.View.{view};
ghost use Rattle.schema_json.specs.Signing.{is_signature, signature_in, has_one_key, signature_of, signature_after, object_of, signed_at, signed_in};
ghost use Rattle.std.specs.List.{list_all};
ghost use Rattle.blobref.specs.Blobref.{is_lower_digit};

use crate::fields::{ref_at, text_at};
use blobref::{NoMemory, Octets};
use claim_verify::split_signed;
use json_laws::json_in;
use schema_fact::Signed;
use serde_json::Value;
use std::alloc::Global;

/// The payload's object of a signed blob, with what is signed (`docs/formats/schema.md`).
pub fn signed_in(alloc: Global, blob: &[u8]) -> Result<Option<(Value, Signed)>, NoMemory>
    ensures { IfOk result (λ found. option_map (λ pair. (view pair.0, pair.1)) found ≡ signed_in blob.now) }
{
    match split_signed(blob) {
        Some(end) => signed_at(alloc, blob, end),
        None => Ok(None),
    }
}

fn signed_at(alloc: Global, blob: &[u8], end: usize) -> Result<Option<(Value, Signed)>, NoMemory>
    requires { end < length blob.now }
    ensures { IfOk result (λ found. option_map (λ pair. (view pair.0, pair.1)) found ≡ signed_at blob.now end) }
{
    // It is copied before the rest is read, so that it doesn't stand between what is let go of again.
    let payload = Octets::copy(alloc, &blob[..end])?;
    let Some(object) = object_of(alloc, payload.as_slice())? else {
        return Ok(None);
    };
    let Some(signer) = ref_at(&object, "camliSigner") else {
        return Ok(None);
    };
    let Some(sig) = signature_after(alloc, &blob[end + 1..])? else {
        return Ok(None);
    };
    Ok(Some((
        object,
        Signed {
            signer,
            payload,
            sig,
        },
    )))
}

// The object that a payload is with a brace after it.
fn object_of(alloc: Global, payload: &[u8]) -> Result<Option<Value>, NoMemory>
    ensures { IfOk result (λ value. option_map view value ≡ object_of payload.now) }
{
    let text = joined(alloc, payload, b"}")?;
    json_in(alloc, &text)
}

// The signature of the object that the rest of a blob is with a brace before it. It is read as JSON only where it
// hasn't the form in which signatures are written.
fn signature_after(alloc: Global, rest: &[u8]) -> Result<Option<[u8; 32]>, NoMemory>
    ensures { IfOk result (λ sig. sig ≡ signature_after rest.now) }
{
    if let Some(sig) = written_signature(rest) {
        return Ok(Some(sig));
    }
    let text = joined(alloc, b"{", rest)?;
    Ok(json_in(alloc, &text)?.and_then(|value| signature_of(&value)))
}

// The signature of the rest of a blob that has the form in which signatures are written.
fn written_signature(rest: &[u8]) -> Option<[u8; 32]>
    ensures { IfSome result (λ sig. signature_after rest.now ≡ Some sig) }
{
    let text = rest.strip_prefix(b"\"camliSig\":\"")?;
    signature_in(text.strip_suffix(b"\"}\n")?)
}

fn signature_of(value: &Value) -> Option<[u8; 32]>
    ensures { result ≡ signature_of (view value.now) }
{
    if !has_one_key(value) {
        return None;
    }
    signature_in(text_at(value, "camliSig")?.as_bytes())
}

fn has_one_key(value: &Value) -> bool
    ensures { result ≡ has_one_key (view value.now) }
{
    match value.as_object() {
        Some(members) => members.len() == 1,
        None => false,
    }
}

fn signature_in(text: &[u8]) -> Option<[u8; 32]>
    ensures { result ≡ signature_in text.now }
{
    if !is_signature(text) {
        return None;
    }
    let mut sig = [0; 32];
    hex::decode_to_slice(text, &mut sig).ok()?;
    Some(sig)
}

fn is_signature(text: &[u8]) -> bool
    ensures { result ≡ is_signature text.now }
{
    text.len() == 64 && are_lower_digits(text)
}

fn are_lower_digits(text: &[u8]) -> bool
    ensures { result ≡ list_all is_lower_digit text.now }
{
    text.iter()
        .all(|byte| matches!(byte, b'0'..=b'9' | b'a'..=b'f'))
}

fn joined(alloc: Global, front: &[u8], back: &[u8]) -> Result<Vec<u8>, NoMemory>
    ensures { IfOk result (λ text. text.items ≡ front.now ++ back.now) }
{
    let mut text = Vec::with_capacity(alloc, front.len().saturating_add(back.len()))?;
    text.extend_from_slice(front)?;
    text.extend_from_slice(back)?;
    Ok(text)
}
