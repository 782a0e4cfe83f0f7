//! Notes: what a key signs, and what is put of it.
ghost use Rattle.std.specs.Prelude.{◌≡◌, ◌+◌, ◌≤◌, true, length, IfOk, IfErr, Some};
ghost use Rattle.std.specs.Option.{ForSome};
ghost use Rattle.edge_base.specs.Edge.{HasCause};
ghost use Rattle.schema_date.specs.Dates.{IsInRange};
ghost use Rattle.schema_write.specs.Laws.{AreBytes, longest_schema, signature_length};
ghost use Rattle.schema_write.specs.Blobs.{permanode_payload};
ghost use Rattle.schema_json.specs.Facts.{key_blob};
ghost use Rattle.blobref.specs.Blobref.{ref_of};
ghost use Rattle.top_notes.specs.Notes.{IsNote, IsClaimNote, RefusesClaim, HasText};

use blobref::{NoMemory, Octets, Ref};
use claim_verify::{KeyName, Signer};
use edge_base::{Clock, Dice, Failed};
use perkeep_lines::ref_line;
use schema_date::Date;
use schema_fact::What;
use schema_write::{DraftFault, claim_payload, key_blob, permanode_payload, signed};
use std::alloc::Global;

/// The blob of a key and a blob that it signed, each with its ref, and the line of the latter's ref.
#[derive(Drop)]
pub(crate) struct Note {
    pub key: Octets,
    pub signer: Ref,
    pub blob: Octets,
    pub r: Ref,
    pub line: Octets,
}

/// Whether the keys hold a name: an empty payload is sealed under it to tell.
pub(crate) fn is_held<V: Signer>(keys: &V, name: &KeyName) -> bool
    ensures { result ≡ V.holds keys.now name.now }
{
    keys.seal(name, &[]).is_some()
}

/// The note of a permanode of these random bytes, under a name that is held. `NoMemory` comes only where no memory is
/// left.
pub(crate) fn permanode_note<V: Signer>(
    alloc: Global,
    keys: &V,
    name: &KeyName,
    random: &[u8; 16],
) -> Result<Note, NoMemory>
    requires held { V.holds keys.now name.now ≡ true }
    requires random { AreBytes 16 random.now }
    ensures { IfOk result (IsNote (V.seals keys.now) name.now
        (permanode_payload (ref_of (key_blob name.now)) random.now)) }
{
    let key = key_blob(alloc, name)?;
    let signer = Ref::of(key.as_slice());
    let payload = permanode_payload(alloc, &signer, random)?;
    signed_note(alloc, keys, name, key, signer, payload.as_slice())
}

/// The note of a claim of this date, which says this, under a name that is held. `TooLong` comes exactly where the
/// signed blob would have more than 1,048,576 bytes.
pub(crate) fn claim_note<V: Signer>(
    alloc: Global,
    keys: &V,
    name: &KeyName,
    date: &Date,
    what: &What,
) -> Result<Note, DraftFault>
    requires { V.holds keys.now name.now ≡ true }
    ensures note { IfOk result (IsClaimNote (V.seals keys.now) name.now date.now what.now) }
    ensures refused { IfErr result (RefusesClaim name.now date.now what.now) }
{
    let key = key_blob(alloc, name)?;
    let signer = Ref::of(key.as_slice());
    let payload = claim_payload(alloc, &signer, date, what)?;
    let note = signed_note(alloc, keys, name, key, signer, payload.as_slice())?;
    Ok(note)
}

// The note of a payload that the key signs, given the key's blob and its ref. The name is held, and the payload is
// short enough for a signed blob.
fn signed_note<V: Signer>(
    alloc: Global,
    keys: &V,
    name: &KeyName,
    key: Octets,
    signer: Ref,
    payload: &[u8],
) -> Result<Note, NoMemory>
    requires held { V.holds keys.now name.now ≡ true }
    requires key { key ≡ key_blob name.now }
    requires signer { signer ≡ ref_of (key_blob name.now) }
    requires short { length payload.now + signature_length ≤ longest_schema }
    ensures { IfOk result (IsNote (V.seals keys.now) name.now payload.now) }
{
    // The contract needs the form of a name, which the contract of `bytes` says.
    let _name = name.bytes();
    let sig = sealed_by(keys, name, payload);
    let blob = signed(alloc, payload, &sig)?;
    let r = Ref::of(blob.as_slice());
    let line = ref_line(alloc, &r)?;
    Ok(Note {
        key,
        signer,
        blob,
        r,
        line,
    })
}

// The signature of a payload under a name that is held.
fn sealed_by<V: Signer>(keys: &V, name: &KeyName, payload: &[u8]) -> [u8; 32]
    requires { V.holds keys.now name.now ≡ true }
    ensures sig { V.seals keys.now name.now payload.now ≡ Some result }
    ensures bytes { AreBytes 32 result }
{
    match keys.seal(name, payload) {
        Some(sig) => sig,
        None => unreachable!(),
    }
}

/// Sixteen random bytes of the dice. `Failed` comes only where their count of faults rose.
pub(crate) fn random_of<R: Dice>(dice: &mut R) -> Result<[u8; 16], Failed>
    ensures bytes { IfOk result (AreBytes 16) }
    ensures told { IfOk result (λ bytes. ForSome (R.random dice.old) (λ random. bytes ≡ random)) }
    ensures cause { HasCause (R.faults dice.old) (R.faults dice.new) result }
{
    dice.sixteen()
}

/// The time of a clock, as a date, which has a written text. `Failed` comes only where the clock's count of faults
/// rose.
pub(crate) fn date_of<C: Clock>(clock: &mut C) -> Result<Date, Failed>
    ensures range { IfOk result IsInRange }
    ensures text { IfOk result HasText }
    ensures told { IfOk result (λ date. ForSome (C.time clock.old) (λ time. date ≡ time)) }
    ensures cause { HasCause (C.faults clock.old) (C.faults clock.new) result }
{
    let Some(date) = Date::of(clock.now()?) else {
        unreachable!()
    };
    // The contract of `text` says that the date has a written text.
    let _text = date.text();
    Ok(date)
}
