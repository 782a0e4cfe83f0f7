//! Shares, read from their bytes.
ghost use Rattle.std.specs.Prelude.{◌≡◌, IfOk};
ghost use Rattle.std.specs.Option.{option_copied};
ghost use Rattle.serde_json.specs.View.{view};
ghost use Rattle.serde_json.specs.Find.{get};
ghost use Rattle.share_model.specs.Shares.{has_text, is_share_object, transitive_of};
ghost use Rattle.share_model.specs.Shares.{share_in, share_of, signed_share_in};

use crate::share::Share;
use blobref::NoMemory;
use schema_fact::Signed;
use schema_json::{date_of, has_type, ref_at, signed_in, text_at};
use serde_json::Value;
use std::alloc::Global;

/// A schema blob has at most this many bytes (`docs/formats/schema.md`).
const MAX_SCHEMA: usize = 1_048_576;

/// The share that the blob of these bytes is, and `None` exactly where it is none (`docs/shares.md`, "Shares"). The
/// only error is want of memory. It takes the time of reading the payload as JSON, and none of a blob that is too long.
pub fn share_in(alloc: Global, bytes: &[u8]) -> Result<Option<Share>, NoMemory>
    ensures { IfOk result (λ found. found ≡ share_in bytes.now) }
{
    if bytes.len() > MAX_SCHEMA {
        return Ok(None);
    }
    signed_share_in(alloc, bytes)
}

// By the payload alone: what is signed and of the type in its payload is of the type as a whole.
fn signed_share_in(alloc: Global, bytes: &[u8]) -> Result<Option<Share>, NoMemory>
    ensures { IfOk result (λ found. found ≡ signed_share_in bytes.now) }
{
    match signed_in(alloc, bytes)? {
        Some((object, signed)) => Ok(share_of(&object, signed)),
        None => Ok(None),
    }
}

fn share_of(object: &Value, signed: Signed) -> Option<Share>
    ensures { result ≡ share_of (view object.now) signed }
{
    if !is_share_object(object) {
        return None;
    }
    let target = ref_at(object, "target")?;
    let transitive = transitive_of(object)?;
    Some(Share {
        signed,
        target,
        transitive,
    })
}

fn is_share_object(object: &Value) -> bool
    ensures { result ≡ is_share_object (view object.now) }
{
    has_type(object, "claim")
        && has_text(object, "claimType", "share")
        && has_text(object, "authType", "haveref")
        && date_of(object).is_some()
        && object.get("expires").is_none()
}

fn has_text(object: &Value, key: &str, text: &str) -> bool
    ensures { result ≡ has_text key.now text.now (view object.now) }
{
    text_at(object, key) == Some(text)
}

fn transitive_of(object: &Value) -> Option<bool>
    ensures { result ≡ transitive_of (view object.now) }
{
    match object.get("transitive") {
        None => Some(false),
        Some(value) => value.as_bool(),
    }
}
