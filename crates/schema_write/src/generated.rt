//! The blobs of a generated store (`docs/formats/generated.md`).
ghost use Rattle.std.specs.Prelude.{◌≡◌, ◌≤◌, ◌<◌, ◌+◌, ◌*◌, ◌%◌, ◌++◌, codes, decimal, length, IfOk};
ghost use Rattle.std.specs.Int.{w64, to_be_bytes};
ghost use Rattle.blobref.specs.Blobref.{ref_of};
ghost use Rattle.schema_write.specs.Generated.{word, folded, date_at, sealed, key, permanode, claim, deleted_by, ref_at, set_tag, add_title, delete, blob_by, load_blobs};

use crate::draft::{as_text, ref_text};
use crate::signing::{key_blob, permanode_payload, signed, what_payload};
use blobref::{ListOf, NoMemory, Octets, Ref, Text};
use claim_verify::{KeyName, hmac_sha256};
use schema_date::Date;
use schema_fact::What;
use std::alloc::Global;

/// The bytes of several blobs.
pub type OctetsList = ListOf<Octets>;

// The name of the key, and its secret.
const KEY: &[u8] = b"load";

// The date 2020-01-01T00:00:00Z, in seconds.
const FIRST_DATE: u64 = 1_577_836_800;

/// So many blobs of the generated store of a start (`docs/formats/generated.md`), in the order of their numbers.
/// `NoMemory` comes only where no memory is left. The time is that of the signatures, one for each blob, and of two
/// digests for each.
pub fn load_blobs(alloc: Global, count: u64, start: u64) -> Result<OctetsList, NoMemory>
    requires { count ≤ 100000 }
    ensures { IfOk result (λ blobs. blobs ≡ load_blobs count start) }
{
    let signer = signer(alloc)?;
    let mut blobs = OctetsList::empty(alloc);
    for i in 0..count {
        let blob = next_blob(alloc, &signer, start, i, &blobs)?;
        blobs.push(blob)?;
    }
    Ok(blobs)
}

// Blob i, behind those before it.
fn next_blob(
    alloc: Global,
    signer: &Ref,
    start: u64,
    i: u64,
    before: &OctetsList,
) -> Result<Octets, NoMemory>
    requires signer { signer.now ≡ ref_of key }
    requires few { i < 100000 }
    requires before { length before.now ≡ i }
    ensures { IfOk result (λ blob. blob ≡ blob_by start i before.now) }
{
    if i == 0 {
        return key_blob(alloc, &key_name());
    }
    match i % 4 {
        1 => permanode(alloc, signer, start, i),
        2 => set_tag(alloc, signer, start, i, before),
        3 => add_title(alloc, signer, i, before),
        _ => delete(alloc, signer, start, i, before),
    }
}

fn key_name() -> KeyName
    ensures { result ≡ codes "load" }
{
    match KeyName::read(KEY) {
        Some(name) => name,
        None => unreachable!(),
    }
}

// The ref of the key's blob.
fn signer(alloc: Global) -> Result<Ref, NoMemory>
    ensures { IfOk result (λ r. r ≡ ref_of key) }
{
    let key = key_blob(alloc, &key_name())?;
    Ok(Ref::of(key.as_slice()))
}

// A payload that the key signed.
fn sealed(alloc: Global, payload: &[u8]) -> Result<Octets, NoMemory>
    ensures { IfOk result (λ blob. blob ≡ sealed payload.now) }
{
    signed(alloc, payload, &hmac_sha256(KEY, payload))
}

// The permanode i.
fn permanode(alloc: Global, signer: &Ref, start: u64, i: u64) -> Result<Octets, NoMemory>
    requires signer { signer.now ≡ ref_of key }
    requires few { i < 100000 }
    ensures { IfOk result (λ blob. blob ≡ permanode start i) }
{
    let payload = permanode_payload(alloc, signer, &random(start, i))?;
    sealed(alloc, payload.as_slice())
}

// The sixteen bytes of the permanode i.
fn random(start: u64, i: u64) -> [u8; 16]
    requires { i < 100000 }
    ensures { result ≡ to_be_bytes w64 (word start (2 * i)) ++ to_be_bytes w64 (word start (2 * i + 1)) }
{
    let mut random = [0; 16];
    random[..8].copy_from_slice(&word(start, 2 * i).to_be_bytes());
    random[8..].copy_from_slice(&word(start, 2 * i + 1).to_be_bytes());
    random
}

// The word of a number under a start.
#[tactic(auto, unfolding(crate::specs::Generated::word))]
fn word(start: u64, k: u64) -> u64
    ensures { result ≡ word start k }
{
    let z = start.wrapping_add(k.wrapping_add(1).wrapping_mul(0x9e37_79b9_7f4a_7c15));
    let z = folded(z, 30, 0xbf58_476d_1ce4_e5b9);
    let z = folded(z, 27, 0x94d0_49bb_1331_11eb);
    z ^ (z >> 31)
}

// The number with its high bits folded down by so many places, times m.
fn folded(z: u64, places: u32, m: u64) -> u64
    requires { places < 64 }
    ensures { result ≡ folded z places m }
{
    (z ^ (z >> places)).wrapping_mul(m)
}

// The claim that sets the tag of the permanode before it.
fn set_tag(
    alloc: Global,
    signer: &Ref,
    start: u64,
    i: u64,
    before: &OctetsList,
) -> Result<Octets, NoMemory>
    requires signer { signer.now ≡ ref_of key }
    requires some { 0 < i }
    requires few { i < 100000 }
    requires before { length before.now ≡ i }
    ensures { IfOk result (λ blob. blob ≡ set_tag start i before.now) }
{
    let on = ref_at(before, i - 1);
    let attr = Text::copy(alloc, "tag")?;
    let value = numbered(alloc, "t", word(start, i) % 16)?;
    claim(alloc, signer, i, &What::Set { on, attr, value })
}

// The claim that adds a title to the permanode.
fn add_title(alloc: Global, signer: &Ref, i: u64, before: &OctetsList) -> Result<Octets, NoMemory>
    requires signer { signer.now ≡ ref_of key }
    requires some { 1 < i }
    requires few { i < 100000 }
    requires before { length before.now ≡ i }
    ensures { IfOk result (λ blob. blob ≡ add_title i before.now) }
{
    let on = ref_at(before, i - 2);
    let attr = Text::copy(alloc, "title")?;
    let value = numbered(alloc, "n", i)?;
    claim(alloc, signer, i, &What::Add { on, attr, value })
}

// A letter and the decimal digits of a number.
fn numbered(alloc: Global, letter: &str, number: u64) -> Result<Text, NoMemory>
    ensures { IfOk result (λ text. text ≡ letter.now ++ decimal number) }
{
    let text = format!(in alloc; "{letter}{number}")?;
    Text::copy(alloc, text.as_str())
}

// The claim that deletes the tag, or the delete claim before it.
fn delete(
    alloc: Global,
    signer: &Ref,
    start: u64,
    i: u64,
    before: &OctetsList,
) -> Result<Octets, NoMemory>
    requires signer { signer.now ≡ ref_of key }
    requires some { 3 < i }
    requires few { i < 100000 }
    requires before { length before.now ≡ i }
    ensures { IfOk result (λ blob. blob ≡ delete start i before.now) }
{
    let target = ref_at(before, deleted_by(start, i));
    claim(alloc, signer, i, &What::Delete { target })
}

// The number of the blob that the delete claim i deletes.
fn deleted_by(start: u64, i: u64) -> u64
    requires { 3 < i }
    ensures value { result ≡ deleted_by start i }
    ensures before { result < i }
{
    if word(start, i) % 2 == 0 || i == 4 {
        i - 2
    } else {
        i - 4
    }
}

// The ref of blob i.
fn ref_at(blobs: &OctetsList, i: u64) -> Ref
    requires { i < length blobs.now }
    ensures { result ≡ ref_at blobs.now i }
{
    Ref::of(blobs.at(i as usize).as_slice())
}

// The claim i, which says this.
fn claim(alloc: Global, signer: &Ref, i: u64, what: &What) -> Result<Octets, NoMemory>
    requires signer { signer.now ≡ ref_of key }
    requires few { i < 100000 }
    ensures { IfOk result (λ blob. blob ≡ claim i what.now) }
{
    let signer = signer.spell();
    let date = date_at(i).text();
    let payload = what_payload(alloc, ref_text(&signer), as_text(date.as_slice()), what)?;
    sealed(alloc, &payload)
}

// The date of blob i.
fn date_at(i: u64) -> Date
    requires { i < 100000 }
    ensures { result ≡ date_at i }
{
    match Date::of(i128::from(FIRST_DATE + i) * 1_000_000_000) {
        Some(date) => date,
        None => unreachable!(),
    }
}
