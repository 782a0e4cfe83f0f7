//! The changes of a claim of several.
ghost use Rattle.std.specs.Prelude.{◌≡◌, ◌<◌, ◌++◌, ◌∷◌, [], codes, length, map, IfOk, OnOk};
ghost use Rattle.std.specs.List.{join_by};
ghost use Rattle.json_laws.specs.Written.{object_text};
ghost use Rattle.schema_write.specs.Blobs.{change_item, change_object, change_pairs, changes_pair, text_pair, value_pairs};
ghost use Rattle.schema_write.specs.Drafts.{with_pairs};
ghost use Rattle.schema_write.specs.Laws.{IsChange, AreChanges, HaveNames};

use crate::draft::ref_text;
use blobref::NoMemory;
use json_laws::{Leaf, write_object};
use schema_fact::{Act, Change};
use std::alloc::Global;

// The list of changes, behind the pairs of a payload.
pub(crate) fn several(
    alloc: Global,
    payload: Vec<u8>,
    changes: &[Change],
) -> Result<Vec<u8>, NoMemory>
    ensures text { IfOk result (λ all. all.items ≡ with_pairs payload.items (changes_pair changes.now ∷ [])) }
    ensures said { OnOk result (HaveNames changes.now → AreChanges changes.now) }
{
    let mut text = payload;
    text.extend_from_slice(b",\"changes\":[")?;
    push_changes(alloc, &mut text, changes)?;
    text.push(b']')?;
    Ok(text)
}

// Writes the changes, with a comma before each but the first.
fn push_changes(alloc: Global, text: &mut Vec<u8>, changes: &[Change]) -> Result<(), NoMemory>
    ensures text { OnOk result (text.new.items
        ≡ text.old.items ++ join_by (λ item. item.text) (codes ",") (map change_item changes.now)) }
    ensures said { OnOk result (HaveNames changes.now → AreChanges changes.now) }
{
    let Some((first, others)) = changes.split_first() else {
        return Ok(());
    };
    push_change(alloc, text, first)?;
    for change in others {
        text.push(b',')?;
        push_change(alloc, text, change)?;
    }
    Ok(())
}

fn push_change(alloc: Global, text: &mut Vec<u8>, change: &Change) -> Result<(), NoMemory>
    ensures text { OnOk result (text.new.items ≡ text.old.items ++ object_text (change_object change.now)) }
    ensures said { OnOk result (0 < length change.now.attr
        → IsChange change.now.on change.now.attr change.now.value) }
{
    let on = change.on.spell();
    let (on, attr, value) = (ref_text(&on), change.attr.as_str(), change.value.as_str());
    let written = match change.act {
        Act::Set => valued_text(alloc, "set-attribute", on, attr, value)?,
        Act::Add => valued_text(alloc, "add-attribute", on, attr, value)?,
        Act::Del => removal_text(alloc, on, attr, value)?,
    };
    text.extend_from_slice(&written)?;
    Ok(())
}

// The text of a change with a value.
fn valued_text<'a>(
    alloc: Global,
    change_type: &'a str,
    on: &'a str,
    attr: &'a str,
    value: &'a str,
) -> Result<Vec<u8>, NoMemory>
    ensures { IfOk result (λ text. text.items ≡ object_text (text_pair (codes "changeType") change_type.now
        ∷ change_pairs on.now attr.now (text_pair (codes "value") value.now ∷ []))) }
{
    write_object(
        alloc,
        &[
            ("changeType", Leaf::Text(change_type)),
            ("permaNode", Leaf::Text(on)),
            ("attribute", Leaf::Text(attr)),
            ("value", Leaf::Text(value)),
        ],
    )
}

// The text of a removal: an empty value stands for all, and is left out.
fn removal_text<'a>(
    alloc: Global,
    on: &'a str,
    attr: &'a str,
    value: &'a str,
) -> Result<Vec<u8>, NoMemory>
    ensures { IfOk result (λ text. text.items ≡ object_text (text_pair (codes "changeType") (codes "del-attribute")
        ∷ change_pairs on.now attr.now (value_pairs value.now))) }
{
    if !value.is_empty() {
        return valued_text(alloc, "del-attribute", on, attr, value);
    }
    write_object(
        alloc,
        &[
            ("changeType", Leaf::Text("del-attribute")),
            ("permaNode", Leaf::Text(on)),
            ("attribute", Leaf::Text(attr)),
        ],
    )
}
