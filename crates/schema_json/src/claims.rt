//! What claims say.
ghost use Rattle.std.specs.Prelude.{◌≡◌, IfOk, option_copied};
ghost use Rattle.serde_json.specs.View.{view};
ghost use Rattle.schema_json.specs.Facts.{attribute_of, change_by, set_change, add_change, del_change, set_of, add_of, del_of, delete_of, multi_of, what_by, what_of, claim_of, date_of};

use crate::change_items::change_list_of;
use crate::fields::{has_type, ref_at, text_at, text_or_empty};
use blobref::{NoMemory, Text};
use schema_date::Date;
use schema_fact::{Act, Change, Kind, Signed, What};
use serde_json::Value;
use std::alloc::Global;

// A claim: the payload of a signed blob has the type, a date and what it says.
pub(crate) fn claim_of(
    alloc: Global,
    object: &Value,
    signed: Signed,
) -> Result<Option<Kind>, NoMemory>
    ensures { IfOk result (λ kind. kind ≡ claim_of (view object.now) signed) }
{
    if !has_type(object, "claim") {
        return Ok(None);
    }
    let Some(date) = date_of(object) else {
        return Ok(None);
    };
    match what_of(alloc, object)? {
        Some(what) => Ok(Some(Kind::Claim { signed, date, what })),
        None => Ok(None),
    }
}

/// The date of a claim.
pub fn date_of(object: &Value) -> Option<Date>
    ensures { result ≡ date_of (view object.now) }
{
    Date::read(text_at(object, "claimDate")?.as_bytes())
}

fn what_of(alloc: Global, object: &Value) -> Result<Option<What>, NoMemory>
    ensures { IfOk result (λ what. what ≡ what_of (view object.now)) }
{
    match text_at(object, "claimType") {
        Some(type_name) => what_by(alloc, type_name, object),
        None => Ok(None),
    }
}

// What a claim of this `claimType` says.
fn what_by(alloc: Global, type_name: &str, object: &Value) -> Result<Option<What>, NoMemory>
    ensures { IfOk result (λ what. what ≡ what_by type_name.now (view object.now)) }
{
    match type_name {
        "set-attribute" => set_of(alloc, object),
        "add-attribute" => add_of(alloc, object),
        "del-attribute" => del_of(alloc, object),
        "delete" => Ok(delete_of(object)),
        "multi" => multi_of(alloc, object),
        _ => Ok(None),
    }
}

fn set_of(alloc: Global, object: &Value) -> Result<Option<What>, NoMemory>
    ensures { IfOk result (λ what. what ≡ set_of (view object.now)) }
{
    match set_change(alloc, object)? {
        Some(change) => Ok(Some(What::Set {
            on: change.on,
            attr: change.attr,
            value: change.value,
        })),
        None => Ok(None),
    }
}

fn add_of(alloc: Global, object: &Value) -> Result<Option<What>, NoMemory>
    ensures { IfOk result (λ what. what ≡ add_of (view object.now)) }
{
    match add_change(alloc, object)? {
        Some(change) => Ok(Some(What::Add {
            on: change.on,
            attr: change.attr,
            value: change.value,
        })),
        None => Ok(None),
    }
}

fn del_of(alloc: Global, object: &Value) -> Result<Option<What>, NoMemory>
    ensures { IfOk result (λ what. what ≡ del_of (view object.now)) }
{
    match del_change(alloc, object)? {
        Some(change) => Ok(Some(What::Del {
            on: change.on,
            attr: change.attr,
            value: change.value,
        })),
        None => Ok(None),
    }
}

fn delete_of(object: &Value) -> Option<What>
    ensures { result ≡ delete_of (view object.now) }
{
    let target = ref_at(object, "target")?;
    Some(What::Delete { target })
}

// A claim of the changes under `changes`.
fn multi_of(alloc: Global, object: &Value) -> Result<Option<What>, NoMemory>
    ensures { IfOk result (λ what. what ≡ multi_of (view object.now)) }
{
    match object.get("changes").and_then(Value::as_array) {
        Some(items) => Ok(change_list_of(alloc, items)?.map(What::Multi)),
        None => Ok(None),
    }
}

pub(crate) fn set_change(alloc: Global, object: &Value) -> Result<Option<Change>, NoMemory>
    ensures { IfOk result (λ change. change ≡ set_change (view object.now)) }
{
    change_by(alloc, Act::Set, text_at(object, "value"), object)
}

pub(crate) fn add_change(alloc: Global, object: &Value) -> Result<Option<Change>, NoMemory>
    ensures { IfOk result (λ change. change ≡ add_change (view object.now)) }
{
    change_by(alloc, Act::Add, text_at(object, "value"), object)
}

// A missing value is the empty one.
pub(crate) fn del_change(alloc: Global, object: &Value) -> Result<Option<Change>, NoMemory>
    ensures { IfOk result (λ change. change ≡ del_change (view object.now)) }
{
    change_by(alloc, Act::Del, text_or_empty(object, "value"), object)
}

// A change that does this with this value, of the permanode and the attribute that the object names.
fn change_by(
    alloc: Global,
    act: Act,
    value: Option<&str>,
    object: &Value,
) -> Result<Option<Change>, NoMemory>
    ensures { IfOk result (λ change. change ≡ change_by act (option_copied value.entry) (view object.now)) }
{
    let Some(on) = ref_at(object, "permaNode") else {
        return Ok(None);
    };
    let Some(attr) = attribute_of(object) else {
        return Ok(None);
    };
    let Some(value) = value else {
        return Ok(None);
    };
    let attr = Text::copy(alloc, attr)?;
    let value = Text::copy(alloc, value)?;
    Ok(Some(Change {
        on,
        act,
        attr,
        value,
    }))
}

// The attribute, which is not empty.
fn attribute_of(object: &Value) -> Option<&str>
    ensures { option_copied result ≡ attribute_of (view object.now) }
{
    let name = text_at(object, "attribute")?;
    if name.is_empty() {
        return None;
    }
    Some(name)
}
