//! Drafts of blobs: their faults, and what is written into all of them.
ghost use Rattle.std.specs.Prelude.{◌≡◌, true, ◌≤◌, ◌+◌, length, map, MatchResult, OnOk};
ghost use Rattle.std.specs.Str.{IsUtf8};
ghost use Rattle.blobref.specs.Blobref.{is_blobref};
ghost use Rattle.json_laws.specs.Payload.{pair_of};
ghost use Rattle.schema_write.specs.Laws.{longest_schema};
ghost use Rattle.schema_write.specs.Drafts.{IsFault, with_pairs};

use blobref::{NoMemory, Octets, RefText};
use json_laws::{Leaf, write_payload};
use std::alloc::Global;
use thiserror::Error;

const MAX_SCHEMA: u64 = 1_048_576;

/// Why a schema blob wasn't written (`docs/formats/schema.md`).
#[derive(Clone, Copy, Debug, PartialEq, Eq, Error)]
pub enum DraftFault {
    /// The finished blob would have this many bytes, more than a schema blob may have.
    #[error("the schema blob would be longer than 1,048,576 bytes")]
    TooLong { len: u64 },
    /// No memory was left.
    #[error("no memory was left for the schema blob")]
    NoMemory,
}

impl From<NoMemory> for DraftFault {
    ghost use Rattle.schema_write.specs.declared.draft.DraftFault.TheVariants.{NoMemory as OutOfMemory};

    ghost from_gives = { λ _ fault. fault ≡ OutOfMemory };

    fn from(_error: NoMemory) -> DraftFault {
        DraftFault::NoMemory
    }
}

// The bytes, where a schema blob may have them and so many more.
pub(crate) fn fitting(bytes: Vec<u8>, more: u64) -> Result<Octets, DraftFault>
    requires { more ≤ 80 }
    ensures { MatchResult result (λ octets. (octets ≡ bytes.items) × (length bytes.items + more ≤ longest_schema))
        (IsFault (length bytes.items + more)) }
{
    let len = bytes.len() as u64 + more;
    if len > MAX_SCHEMA {
        return Err(DraftFault::TooLong { len });
    }
    Ok(Octets::from_vec(bytes))
}

// The bytes as a text.
pub(crate) fn as_text(bytes: &[u8]) -> &str
    requires { IsUtf8 bytes.now }
    ensures { result.now ≡ bytes.now }
{
    match str::from_utf8(bytes) {
        Ok(text) => text,
        Err(_) => unreachable!(),
    }
}

// The text of a ref.
pub(crate) fn ref_text(r: &RefText) -> &str
    requires { is_blobref r.now ≡ true }
    ensures { result.now ≡ r.now }
{
    as_text(r.as_slice())
}

// Writes pairs behind those of a payload.
pub(crate) fn push_pairs(
    alloc: Global,
    payload: &mut Vec<u8>,
    pairs: &[(&str, Leaf<'_>)],
) -> Result<(), NoMemory>
    ensures { OnOk result (payload.new.items ≡ with_pairs payload.old.items (map pair_of pairs.now)) }
{
    let text = write_payload(alloc, pairs)?;
    payload.push(b',')?;
    payload.extend_from_slice(&text[1..])?;
    Ok(())
}
