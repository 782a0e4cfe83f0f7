//! Lists of changes.
ghost use Rattle.std.specs.Prelude.{◌≡◌, IfOk, IfSome, length};
ghost use Rattle.serde_json.specs.View.{view, items_view};
ghost use Rattle.schema_fact.specs.Limits.{is_change_count, IsChangeCount};
ghost use Rattle.schema_json.specs.Facts.{change_in, change_typed, changes_in, change_list_in, change_list_of};

use crate::claims::{add_change, del_change, set_change};
use crate::fields::text_at;
use blobref::NoMemory;
use json_laws::json_in;
use schema_fact::{Change, ChangeList, push_change};
use serde_json::Value;
use std::alloc::Global;

const MAX_CHANGES: usize = 1_000;

/// The changes of which the text is a JSON list (`docs/formats/schema.md`); `None` exactly where it is no list of 1 to
/// 1,000 changes. The only error is want of memory.
pub fn change_list(alloc: Global, text: &[u8]) -> Result<Option<ChangeList>, NoMemory>
    ensures value { IfOk result (λ changes. changes ≡ change_list_in text.now) }
    ensures valid { IfOk result (λ changes. IfSome changes (λ list. IsChangeCount (length list))) }
{
    let Some(value) = json_in(alloc, text)? else {
        return Ok(None);
    };
    match value.as_array() {
        Some(items) => change_list_of(alloc, items),
        None => Ok(None),
    }
}

pub(crate) fn change_list_of(alloc: Global, items: &[Value]) -> Result<Option<ChangeList>, NoMemory>
    ensures { IfOk result (λ changes. changes ≡ change_list_of (items_view items.now)) }
{
    let Some(changes) = changes_in(alloc, items)? else {
        return Ok(None);
    };
    if is_change_count(changes.len()) {
        Ok(Some(changes))
    } else {
        Ok(None)
    }
}

fn is_change_count(n: usize) -> bool
    ensures { result ≡ is_change_count n }
{
    1 <= n && n <= MAX_CHANGES
}

fn changes_in(alloc: Global, items: &[Value]) -> Result<Option<ChangeList>, NoMemory>
    ensures { IfOk result (λ changes. changes ≡ changes_in (items_view items.now)) }
{
    let mut changes = ChangeList::empty(alloc);
    for value in items {
        let Some(change) = change_in(alloc, value)? else {
            return Ok(None);
        };
        push_change(&mut changes, change)?;
    }
    Ok(Some(changes))
}

fn change_in(alloc: Global, value: &Value) -> Result<Option<Change>, NoMemory>
    ensures { IfOk result (λ change. change ≡ change_in (view value.now)) }
{
    match text_at(value, "changeType") {
        Some(type_name) => change_typed(alloc, type_name, value),
        None => Ok(None),
    }
}

// A change of this `changeType`.
fn change_typed(alloc: Global, type_name: &str, value: &Value) -> Result<Option<Change>, NoMemory>
    ensures { IfOk result (λ change. change ≡ change_typed type_name.now (view value.now)) }
{
    match type_name {
        "set-attribute" => set_change(alloc, value),
        "add-attribute" => add_change(alloc, value),
        "del-attribute" => del_change(alloc, value),
        _ => Ok(None),
    }
}
