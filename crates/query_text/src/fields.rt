//! Objects, key by key, and the single values in them.
ghost use Rattle.std.specs.Prelude.{◌≡◌, ◌++◌, IfSome, OnOk, Some, codes, decimal, option_map};
ghost use Rattle.std.specs.Str.{IsUtf8};
ghost use Rattle.json.specs.Print.{quoted};
ghost use Rattle.json_laws.specs.Written.{truth_text};
ghost use Rattle.query_text.specs.Text.{text_item, number_item, truth_item, date_item, SpellsDates, Spelling, op_name, kin_name};
ghost use Rattle.query_text.specs.Laws.{HasText, IsWhole};
ghost use Rattle.query_text.specs.Pairs.{key_text, field_text, opened};

use blobref::{NoMemory, Text};
use schema_date::Date;
use search_query::{Kin, Op};
use serde_json::Value;
use std::alloc::Global;

// Writes the JSON string of a text.
fn push_string(alloc: Global, out: &mut Vec<u8>, text: &str) -> Result<(), NoMemory>
    ensures { OnOk result (out.new.items ≡ out.old.items ++ quoted text.now) }
{
    let string = Value::try_from_str(alloc, text)?;
    out.extend_from_slice(&string.to_vec(alloc)?)?;
    Ok(())
}

// Writes a comma, the key and a colon.
pub(crate) fn push_key(alloc: Global, out: &mut Vec<u8>, key: &str) -> Result<(), NoMemory>
    ensures { OnOk result (out.new.items ≡ out.old.items ++ key_text key.now) }
{
    out.push(b',')?;
    push_string(alloc, out, key)?;
    out.push(b':')?;
    Ok(())
}

// Makes an object of the pairs that were written from a place on.
pub(crate) fn close_object(out: &mut Vec<u8>, start: usize) -> Result<(), NoMemory>
    ensures { OnOk result (out.new.items ≡ opened start out.old.items ++ codes "}") }
{
    if start < out.len() {
        out[start] = b'{';
    } else {
        out.push(b'{')?;
    }
    out.push(b'}')?;
    Ok(())
}

pub(crate) fn text_pair(
    alloc: Global,
    out: &mut Vec<u8>,
    key: &str,
    text: &str,
) -> Result<(), NoMemory>
    ensures { OnOk result (out.new.items ≡ out.old.items ++ field_text key.now (Some (text_item text.now))) }
{
    push_key(alloc, out, key)?;
    push_string(alloc, out, text)
}

pub(crate) fn text_field(
    alloc: Global,
    out: &mut Vec<u8>,
    key: &str,
    text: &Option<Text>,
) -> Result<(), NoMemory>
    ensures written { OnOk result (out.new.items
        ≡ out.old.items ++ field_text key.now (option_map text_item text.now)) }
    ensures holds { OnOk result (IfSome text.now IsUtf8) }
{
    match text {
        None => Ok(()),
        Some(text) => text_pair(alloc, out, key, text.as_str()),
    }
}

pub(crate) fn number_pair(
    alloc: Global,
    out: &mut Vec<u8>,
    key: &str,
    n: u64,
) -> Result<(), NoMemory>
    ensures { OnOk result (out.new.items ≡ out.old.items ++ field_text key.now (Some (number_item n))) }
{
    push_key(alloc, out, key)?;
    out.extend_from_slice(&Value::from(n).to_vec(alloc)?)?;
    Ok(())
}

pub(crate) fn number_field(
    alloc: Global,
    out: &mut Vec<u8>,
    key: &str,
    n: Option<u64>,
) -> Result<(), NoMemory>
    ensures written { OnOk result (out.new.items ≡ out.old.items ++ field_text key.now (option_map number_item n)) }
    ensures holds { OnOk result (IfSome n IsWhole) }
{
    match n {
        None => Ok(()),
        Some(n) => number_pair(alloc, out, key, n),
    }
}

fn truth_text(truth: bool) -> &'static [u8]
    ensures { result.now ≡ truth_text truth }
{
    if truth { b"true" } else { b"false" }
}

pub(crate) fn truth_field(
    alloc: Global,
    out: &mut Vec<u8>,
    key: &str,
    truth: Option<bool>,
) -> Result<(), NoMemory>
    ensures { OnOk result (out.new.items ≡ out.old.items ++ field_text key.now (option_map truth_item truth)) }
{
    let Some(truth) = truth else {
        return Ok(());
    };
    push_key(alloc, out, key)?;
    out.extend_from_slice(truth_text(truth))?;
    Ok(())
}

// The bytes as a text.
fn as_text(bytes: &[u8]) -> &str
    requires { IsUtf8 bytes.now }
    ensures { result.now ≡ bytes.now }
{
    match str::from_utf8(bytes) {
        Ok(text) => text,
        Err(_) => unreachable!(),
    }
}

// Writes a date as its one written text.
pub(crate) fn date_pair(
    alloc: Global,
    out: &mut Vec<u8>,
    key: &str,
    date: &Date,
) -> Result<(), NoMemory>
    ensures written { OnOk result ((spell : Spelling) → SpellsDates spell →
        out.new.items ≡ out.old.items ++ field_text key.now (Some (date_item spell date.now))) }
    ensures holds { OnOk result (HasText date.now) }
{
    let text = date.text();
    text_pair(alloc, out, key, as_text(text.as_slice()))
}

pub(crate) fn date_field(
    alloc: Global,
    out: &mut Vec<u8>,
    key: &str,
    date: &Option<Date>,
) -> Result<(), NoMemory>
    ensures written { OnOk result ((spell : Spelling) → SpellsDates spell →
        out.new.items ≡ out.old.items ++ field_text key.now (option_map (date_item spell) date.now)) }
    ensures holds { OnOk result (IfSome date.now HasText) }
{
    match date {
        None => Ok(()),
        Some(date) => date_pair(alloc, out, key, date),
    }
}

fn op_name(op: Op) -> &'static str
    ensures { result.now ≡ op_name op }
{
    match op {
        Op::And => "and",
        Op::Or => "or",
        Op::Xor => "xor",
        Op::Not => "not",
    }
}

pub(crate) fn op_field(
    alloc: Global,
    out: &mut Vec<u8>,
    key: &str,
    op: Option<Op>,
) -> Result<(), NoMemory>
    ensures { OnOk result (out.new.items ≡ out.old.items
        ++ field_text key.now (option_map (λ o. text_item (op_name o)) op)) }
{
    match op {
        None => Ok(()),
        Some(op) => text_pair(alloc, out, key, op_name(op)),
    }
}

fn kin_name(kin: Kin) -> &'static str
    ensures { result.now ≡ kin_name kin }
{
    match kin {
        Kin::Parent => "parent",
        Kin::Child => "child",
    }
}

pub(crate) fn kin_field(
    alloc: Global,
    out: &mut Vec<u8>,
    key: &str,
    kin: Option<Kin>,
) -> Result<(), NoMemory>
    ensures { OnOk result (out.new.items ≡ out.old.items
        ++ field_text key.now (option_map (λ k. text_item (kin_name k)) kin)) }
{
    match kin {
        None => Ok(()),
        Some(kin) => text_pair(alloc, out, key, kin_name(kin)),
    }
}
