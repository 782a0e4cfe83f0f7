//! The texts of refusals.
ghost use Rattle.std.specs.Prelude.{◌≡◌, ◌++◌, IfOk, OnOk};
ghost use Rattle.answer_text.specs.Refusals.{refusal_text, fields_of, detail_of, query_detail};

use crate::fields::{push_number, push_ref};
use crate::refusal::{BadKind, Refusal};
use blobref::{NoMemory, Octets};
use serde_json::Value;
use std::alloc::Global;

/// The JSON text of a refusal (`docs/formats/answers.md`).
pub fn refusal_text(alloc: Global, refusal: &Refusal) -> Result<Octets, NoMemory>
    ensures { IfOk result (λ octets. octets ≡ refusal_text refusal.now) }
{
    let mut text = Vec::new(alloc);
    text.extend_from_slice(b"{")?;
    push_fields(alloc, &mut text, refusal)?;
    text.extend_from_slice(b"}")?;
    Ok(Octets::from_vec(text))
}

// Writes the fields of a refusal.
pub(crate) fn push_fields(
    alloc: Global,
    text: &mut Vec<u8>,
    refusal: &Refusal,
) -> Result<(), NoMemory>
    ensures { OnOk result (text.new.items ≡ text.old.items ++ fields_of refusal.now) }
{
    text.extend_from_slice(b"\"error\":\"")?;
    text.extend_from_slice(refusal.name())?;
    text.extend_from_slice(b"\"")?;
    push_detail(alloc, text, refusal)
}

// Writes what a refusal says beside its name.
fn push_detail(alloc: Global, text: &mut Vec<u8>, refusal: &Refusal) -> Result<(), NoMemory>
    ensures { OnOk result (text.new.items ≡ text.old.items ++ detail_of refusal.now) }
{
    match refusal {
        Refusal::BadMultipart { at } => push_number(text, b"at", *at),
        Refusal::BadDigest { said, is } => {
            push_ref(text, b"said", said)?;
            push_ref(text, b"is", is)
        }
        Refusal::BadQuery { kind, at } => push_query(alloc, text, *kind, at.as_str()),
        Refusal::Absent { r } => push_ref(text, b"blobRef", r),
        Refusal::TooLong { limit } => push_number(text, b"limit", *limit),
        Refusal::Damaged { want, is } => {
            push_ref(text, b"want", want)?;
            push_ref(text, b"is", is)
        }
        Refusal::Full { blobs, pack } => {
            push_number(text, b"blobs", *blobs)?;
            push_number(text, b"pack", u64::from(*pack))
        }
        _ => Ok(()),
    }
}

// Writes which rule a query breaks, and where.
fn push_query(alloc: Global, text: &mut Vec<u8>, kind: BadKind, at: &str) -> Result<(), NoMemory>
    ensures { OnOk result (text.new.items ≡ text.old.items ++ query_detail kind at.now) }
{
    let place = Value::try_from_str(alloc, at)?;
    text.extend_from_slice(b",\"kind\":\"")?;
    text.extend_from_slice(kind.name())?;
    text.extend_from_slice(b"\",\"at\":")?;
    text.extend_from_slice(&place.to_vec(alloc)?)?;
    Ok(())
}
