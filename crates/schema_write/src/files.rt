//! Files and the parts of which they are made.
ghost use Rattle.std.specs.Prelude.{◌≡◌, ◌≤◌, ◌++◌, ◌∷◌, true, codes, length, map, IfOk, IfErr, OnOk};
ghost use Rattle.std.specs.List.{join_by};
ghost use Rattle.blobref.specs.Blobref.{is_blobref};
ghost use Rattle.json_laws.specs.Written.{object_text};
ghost use Rattle.schema_fact.specs.Limits.{MeetsLimits};
ghost use Rattle.schema_fact.specs.declared.kinds.Kind.TheVariants.{File, Bytes};
ghost use Rattle.schema_write.specs.Blobs.{part_item, part_pairs, offset_pairs, number_pair, text_pair, file_blob, bytes_blob};
ghost use Rattle.schema_write.specs.declared.draft.DraftFault.TheVariants.{NoMemory as OutOfMemory};
ghost use Rattle.schema_write.specs.Drafts.{IsFault, ended_by_parts};
ghost use Rattle.schema_write.specs.Laws.{HasRef, HaveRefs, Says, longest_schema};

use crate::draft::{DraftFault, fitting, ref_text};
use blobref::{NoMemory, Octets, Ref};
use json_laws::{Leaf, write_object, write_payload};
use schema_fact::{Origin, Part, PartList};
use std::alloc::Global;

/// The blob of the file of this name, which is made of these parts (`docs/formats/schema.md`). It says so. `TooLong`
/// comes exactly where it would have more than 1,048,576 bytes, so never with at most 4,096 parts and 4,096 bytes of
/// name.
#[tactic(auto, unfolding(crate::specs::Blobs::file_blob))]
pub fn file_blob(alloc: Global, name: &str, parts: &PartList) -> Result<Octets, DraftFault>
    requires { MeetsLimits parts.now }
    ensures exact { IfOk result (λ blob. blob ≡ file_blob name.now parts.now) }
    ensures fits { IfOk result (λ blob. length blob ≤ longest_schema) }
    ensures fault { IfErr result (IsFault (length (file_blob name.now parts.now))) }
    ensures few { length name.now ≤ 4096 → length parts.now ≤ 4096 → IfErr result (λ fault. fault ≡ OutOfMemory) }
    ensures says { IfOk result (λ blob. Says blob (File name.now parts.now)) }
{
    let start = write_payload(
        alloc,
        &[
            ("camliVersion", Leaf::Number(1)),
            ("camliType", Leaf::Text("file")),
            ("fileName", Leaf::Text(name)),
        ],
    )?;
    let text = ended_by_parts(alloc, start, parts.as_slice())?;
    fitting(text, 0)
}

/// The blob that is made of these parts (`docs/formats/schema.md`). It says so. `TooLong` comes exactly where it
/// would have more than 1,048,576 bytes, so never with at most 4,096 parts.
#[tactic(auto, unfolding(crate::specs::Blobs::bytes_blob))]
pub fn bytes_blob(alloc: Global, parts: &PartList) -> Result<Octets, DraftFault>
    requires { MeetsLimits parts.now }
    ensures exact { IfOk result (λ blob. blob ≡ bytes_blob parts.now) }
    ensures fits { IfOk result (λ blob. length blob ≤ longest_schema) }
    ensures fault { IfErr result (IsFault (length (bytes_blob parts.now))) }
    ensures few { length parts.now ≤ 4096 → IfErr result (λ fault. fault ≡ OutOfMemory) }
    ensures says { IfOk result (λ blob. Says blob (Bytes parts.now)) }
{
    let start = write_payload(
        alloc,
        &[
            ("camliVersion", Leaf::Number(1)),
            ("camliType", Leaf::Text("bytes")),
        ],
    )?;
    let text = ended_by_parts(alloc, start, parts.as_slice())?;
    fitting(text, 0)
}

// The object that begins by these pairs and ends by the parts.
fn ended_by_parts(alloc: Global, start: Vec<u8>, parts: &[Part]) -> Result<Vec<u8>, NoMemory>
    ensures text { IfOk result (λ text. text.items ≡ ended_by_parts start.items parts.now) }
    ensures refs { OnOk result (HaveRefs parts.now) }
{
    let mut text = start;
    text.extend_from_slice(b",\"parts\":[")?;
    push_parts(alloc, &mut text, parts)?;
    text.extend_from_slice(b"]}\n")?;
    Ok(text)
}

// Writes the parts, with a comma before each but the first.
fn push_parts(alloc: Global, text: &mut Vec<u8>, parts: &[Part]) -> Result<(), NoMemory>
    ensures text { OnOk result (text.new.items
        ≡ text.old.items ++ join_by (λ item. item.text) (codes ",") (map part_item parts.now)) }
    ensures refs { OnOk result (HaveRefs parts.now) }
{
    let Some((first, others)) = parts.split_first() else {
        return Ok(());
    };
    push_part(alloc, text, first)?;
    for part in others {
        text.push(b',')?;
        push_part(alloc, text, part)?;
    }
    Ok(())
}

fn push_part(alloc: Global, text: &mut Vec<u8>, part: &Part) -> Result<(), NoMemory>
    ensures text { OnOk result (text.new.items ≡ text.old.items ++ object_text (part_pairs part.now)) }
    ensures refs { OnOk result (HasRef part.now.origin) }
{
    let written = match part.origin {
        Origin::Zeros => zeros_text(alloc, part.size, part.offset)?,
        Origin::Blob(r) => source_text(alloc, "blobRef", &r, part.size, part.offset)?,
        Origin::Tree(r) => source_text(alloc, "bytesRef", &r, part.size, part.offset)?,
    };
    text.extend_from_slice(&written)?;
    Ok(())
}

// The text of a part that is a run of zeros.
fn zeros_text(alloc: Global, size: u64, offset: u64) -> Result<Vec<u8>, NoMemory>
    ensures { IfOk result (λ text. text.items ≡ object_text (number_pair (codes "size") size ∷ offset_pairs offset)) }
{
    let size = ("size", Leaf::Number(size));
    if offset == 0 {
        return write_object(alloc, &[size]);
    }
    write_object(alloc, &[size, ("offset", Leaf::Number(offset))])
}

// The text of a part with a ref under this key.
fn source_text(
    alloc: Global,
    key: &str,
    r: &Ref,
    size: u64,
    offset: u64,
) -> Result<Vec<u8>, NoMemory>
    ensures text { IfOk result (λ text. text.items
        ≡ object_text (text_pair key.now r.now ∷ number_pair (codes "size") size ∷ offset_pairs offset)) }
    ensures refs { IfOk result (λ text. is_blobref r.now ≡ true) }
{
    let r = r.spell();
    let source = (key, Leaf::Text(ref_text(&r)));
    let size = ("size", Leaf::Number(size));
    if offset == 0 {
        return write_object(alloc, &[source, size]);
    }
    write_object(alloc, &[source, size, ("offset", Leaf::Number(offset))])
}
