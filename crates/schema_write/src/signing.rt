//! Keys, and what they sign: permanodes and claims.
ghost use Rattle.std.specs.Prelude.{◌≡◌, ◌≤◌, ◌<◌, ◌+◌, ◌∷◌, [], codes, length, IfOk, IfErr, OnOk};
ghost use Rattle.schema_fact.specs.declared.kinds.Kind.TheVariants.{Key, Permanode, Claim};
ghost use Rattle.schema_json.specs.Facts.{key_blob};
ghost use Rattle.json_laws.specs.Written.{payload_text};
ghost use Rattle.schema_write.specs.Blobs.{permanode_payload, claim_payload, signed, start_pairs, change_pairs};
ghost use Rattle.schema_write.specs.Blobs.{value_pairs, text_pair};
ghost use Rattle.schema_write.specs.Drafts.{IsClaimFault, with_pairs};
ghost use Rattle.schema_write.specs.Laws.{Says, SaysSigned, HasAttribute, IsChange, MayBeSaid, IsClaimPayload, longest_schema};
ghost use Rattle.schema_write.specs.Laws.{signature_length};

use crate::changes::several;
use crate::draft::{DraftFault, as_text, fitting, push_pairs, ref_text};
use blobref::{NoMemory, Octets, Ref, Text};
use claim_verify::KeyName;
use json_laws::{Leaf, write_payload};
use schema_date::Date;
use schema_fact::What;
use std::alloc::Global;

// How many bytes a signature adds to a payload.
const SIGNATURE: u64 = 80;

/// The blob of the key of this name (`docs/formats/schema.md`).
pub fn key_blob(alloc: Global, name: &KeyName) -> Result<Octets, NoMemory>
    ensures exact { IfOk result (λ blob. blob ≡ key_blob name.now) }
    ensures says { IfOk result (λ blob. Says blob (Key name.now)) }
{
    let mut blob = Vec::from_slice(alloc, b"perkeep-hmac-sha256 ")?;
    blob.extend_from_slice(name.bytes())?;
    blob.push(b'\n')?;
    Ok(Octets::from_vec(blob))
}

/// The payload of a permanode of this signer, the blob of a key, and these random bytes (`docs/formats/schema.md`).
/// `signed` finishes it, and then the blob says so.
#[tactic(auto, unfolding(crate::specs::Blobs::permanode_payload))]
pub fn permanode_payload(alloc: Global, signer: &Ref, random: &[u8; 16]) -> Result<Octets, NoMemory>
    ensures exact { IfOk result (λ payload. payload ≡ permanode_payload signer.now random.now) }
    ensures says { IfOk result (λ payload. SaysSigned signer.now payload Permanode) }
{
    let signer = signer.spell();
    let random = hex::encode(alloc, *random)?;
    let payload = write_payload(
        alloc,
        &[
            ("camliVersion", Leaf::Number(1)),
            ("camliType", Leaf::Text("permanode")),
            ("camliSigner", Leaf::Text(ref_text(&signer))),
            ("random", Leaf::Text(random.as_str())),
        ],
    )?;
    Ok(Octets::from_vec(payload))
}

/// The payload of a claim of this signer, the blob of a key, and this date (`docs/formats/schema.md`). `signed`
/// finishes it, and then the blob says so, if a change has an attribute that isn't empty. `TooLong` comes exactly
/// where the finished blob would have more than 1,048,576 bytes: the signature adds 80.
pub fn claim_payload(
    alloc: Global,
    signer: &Ref,
    date: &Date,
    what: &What,
) -> Result<Octets, DraftFault>
    ensures exact { IfOk result (IsClaimPayload signer.now date.now what.now) }
    ensures fits { IfOk result (λ payload. length payload + signature_length ≤ longest_schema) }
    ensures fault { IfErr result (IsClaimFault signer.now date.now what.now) }
    ensures says { IfOk result (λ payload. HasAttribute what.now
        → SaysSigned signer.now payload (λ signed. Claim signed date.now what.now)) }
{
    let signer = signer.spell();
    let date = date.text();
    let payload = what_payload(alloc, ref_text(&signer), as_text(date.as_slice()), what)?;
    fitting(payload, SIGNATURE)
}

/// The payload, finished by its signature (`docs/formats/schema.md`).
#[tactic(auto, unfolding(crate::specs::Blobs::signed))]
pub fn signed(alloc: Global, payload: &[u8], sig: &[u8; 32]) -> Result<Octets, NoMemory>
    ensures exact { IfOk result (λ blob. blob ≡ signed payload.now sig.now) }
    ensures length { IfOk result (λ blob. length blob ≡ length payload.now + signature_length) }
{
    let digits = hex::encode(alloc, *sig)?;
    let mut blob = Vec::from_slice(alloc, payload)?;
    blob.extend_from_slice(b",\"camliSig\":\"")?;
    blob.extend_from_slice(digits.as_bytes())?;
    blob.extend_from_slice(b"\"}\n")?;
    Ok(Octets::from_vec(blob))
}

/// The payload of a claim with the text of its date.
#[tactic(auto, unfolding(crate::specs::Blobs::claim_payload))]
pub(crate) fn what_payload(
    alloc: Global,
    signer: &str,
    date: &str,
    what: &What,
) -> Result<Vec<u8>, NoMemory>
    ensures text { IfOk result (λ payload. payload.items ≡ claim_payload signer.now date.now what.now) }
    ensures form { OnOk result (HasAttribute what.now → MayBeSaid what.now) }
{
    match what {
        What::Set { on, attr, value } => {
            with_value(alloc, signer, date, "set-attribute", on, attr, value)
        }
        What::Add { on, attr, value } => {
            with_value(alloc, signer, date, "add-attribute", on, attr, value)
        }
        What::Del { on, attr, value } => {
            let payload = claim_start(alloc, signer, date, "del-attribute")?;
            removal(
                alloc,
                payload,
                ref_text(&on.spell()),
                attr.as_str(),
                value.as_str(),
            )
        }
        What::Delete { target } => {
            let payload = claim_start(alloc, signer, date, "delete")?;
            deletion(alloc, payload, ref_text(&target.spell()))
        }
        What::Multi(changes) => {
            let payload = claim_start(alloc, signer, date, "multi")?;
            several(alloc, payload, changes.as_slice())
        }
    }
}

// The payload of a claim of one change with a value.
fn with_value(
    alloc: Global,
    signer: &str,
    date: &str,
    claim_type: &str,
    on: &Ref,
    attr: &Text,
    value: &Text,
) -> Result<Vec<u8>, NoMemory>
    ensures text { IfOk result (λ all. all.items
        ≡ with_pairs (payload_text (start_pairs signer.now date.now claim_type.now))
        (change_pairs on.now attr.now (text_pair (codes "value") value.now ∷ []))) }
    ensures form { OnOk result (0 < length attr.now → IsChange on.now attr.now value.now) }
{
    let payload = claim_start(alloc, signer, date, claim_type)?;
    valued(
        alloc,
        payload,
        ref_text(&on.spell()),
        attr.as_str(),
        value.as_str(),
    )
}

// The pairs that each claim begins with.
fn claim_start<'x>(
    alloc: Global,
    signer: &'x str,
    date: &'x str,
    claim_type: &'x str,
) -> Result<Vec<u8>, NoMemory>
    ensures { IfOk result (λ payload. payload.items ≡ payload_text (start_pairs signer.now date.now claim_type.now)) }
{
    write_payload(
        alloc,
        &[
            ("camliVersion", Leaf::Number(1)),
            ("camliType", Leaf::Text("claim")),
            ("camliSigner", Leaf::Text(signer)),
            ("claimDate", Leaf::Text(date)),
            ("claimType", Leaf::Text(claim_type)),
        ],
    )
}

// The pairs of a change with a value, behind those of a payload.
fn valued<'x>(
    alloc: Global,
    payload: Vec<u8>,
    on: &'x str,
    attr: &'x str,
    value: &'x str,
) -> Result<Vec<u8>, NoMemory>
    ensures { IfOk result (λ all. all.items
        ≡ with_pairs payload.items (change_pairs on.now attr.now (text_pair (codes "value") value.now ∷ []))) }
{
    let mut payload = payload;
    push_pairs(
        alloc,
        &mut payload,
        &[
            ("permaNode", Leaf::Text(on)),
            ("attribute", Leaf::Text(attr)),
            ("value", Leaf::Text(value)),
        ],
    )?;
    Ok(payload)
}

// The pairs of a change that takes a value away: an empty one stands for all, and is left out.
fn removal<'x>(
    alloc: Global,
    payload: Vec<u8>,
    on: &'x str,
    attr: &'x str,
    value: &'x str,
) -> Result<Vec<u8>, NoMemory>
    ensures { IfOk result (λ all. all.items ≡ with_pairs payload.items
        (change_pairs on.now attr.now (value_pairs value.now))) }
{
    if !value.is_empty() {
        return valued(alloc, payload, on, attr, value);
    }
    let mut payload = payload;
    push_pairs(
        alloc,
        &mut payload,
        &[
            ("permaNode", Leaf::Text(on)),
            ("attribute", Leaf::Text(attr)),
        ],
    )?;
    Ok(payload)
}

// The pair of a deletion, behind those of a payload.
fn deletion(alloc: Global, payload: Vec<u8>, target: &str) -> Result<Vec<u8>, NoMemory>
    ensures { IfOk result (λ all. all.items ≡ with_pairs payload.items (text_pair (codes "target") target.now ∷ [])) }
{
    let mut payload = payload;
    push_pairs(alloc, &mut payload, &[("target", Leaf::Text(target))])?;
    Ok(payload)
}
