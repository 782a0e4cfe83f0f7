//! Single values under a key: numbers, texts, truth values, dates and words.
ghost use Rattle.std.specs.Prelude.{◌≡◌, ◌≢◌, IfOk, IfErr, Some, None, option_copied};
ghost use Rattle.serde_json.specs.View.{view};
ghost use Rattle.serde_json.specs.Find.{get, as_str, as_bool};
ghost use Rattle.json_laws.specs.Json.{whole_in};
ghost use Rattle.query_read.specs.Faults.{Tells, below};
ghost use Rattle.query_read.specs.Grammar.{leaf, limit_fault};
ghost use Rattle.query_read.specs.Values.{under, true_in, name_in, date_of, op_named, op_in, kin_named, kin_in, sort_named, sort_in, limit_in};

use crate::fault::QueryFault;
use crate::objects::bad_under;
use blobref::Text;
use schema_date::Date;
use search_query::{Kin, Op, Sort};
use serde_json::Value;
use std::alloc::Global;

// A whole number under a key, where the key is present.
pub(crate) fn whole_under(
    alloc: Global,
    value: &Value,
    key: &str,
    path: &str,
) -> Result<Option<u64>, QueryFault>
    ensures ok { IfOk result (λ _. below (leaf whole_in) key.now path.now (view value.now) ≡ None) }
    ensures value { IfOk result (λ found. found ≡ under whole_in key.now (view value.now)) }
    ensures err { IfErr result (Tells (below (leaf whole_in) key.now path.now (view value.now))) }
{
    let Some(below) = value.get(key) else {
        return Ok(None);
    };
    match below.as_u64() {
        Some(found) => Ok(Some(found)),
        None => Err(bad_under(alloc, key, path)),
    }
}

// A text.
pub(crate) fn text_under(
    alloc: Global,
    value: &Value,
    key: &str,
    path: &str,
) -> Result<Option<Text>, QueryFault>
    ensures ok { IfOk result (λ _. below (leaf as_str) key.now path.now (view value.now) ≡ None) }
    ensures value { IfOk result (λ found. found ≡ under as_str key.now (view value.now)) }
    ensures err { IfErr result (Tells (below (leaf as_str) key.now path.now (view value.now))) }
{
    let Some(below) = value.get(key) else {
        return Ok(None);
    };
    match below.as_str() {
        Some(found) => Ok(Some(Text::copy(alloc, found)?)),
        None => Err(bad_under(alloc, key, path)),
    }
}

fn name_in(value: &Value) -> Option<&str>
    ensures { option_copied result ≡ name_in (view value.now) }
{
    let name = value.as_str()?;
    if name.is_empty() { None } else { Some(name) }
}

// A text that isn't empty.
pub(crate) fn name_under(
    alloc: Global,
    value: &Value,
    key: &str,
    path: &str,
) -> Result<Option<Text>, QueryFault>
    ensures ok { IfOk result (λ _. below (leaf name_in) key.now path.now (view value.now) ≡ None) }
    ensures value { IfOk result (λ found. found ≡ under name_in key.now (view value.now)) }
    ensures err { IfErr result (Tells (below (leaf name_in) key.now path.now (view value.now))) }
{
    let Some(below) = value.get(key) else {
        return Ok(None);
    };
    match name_in(below) {
        Some(found) => Ok(Some(Text::copy(alloc, found)?)),
        None => Err(bad_under(alloc, key, path)),
    }
}

// A truth value.
pub(crate) fn truth_under(
    alloc: Global,
    value: &Value,
    key: &str,
    path: &str,
) -> Result<Option<bool>, QueryFault>
    ensures ok { IfOk result (λ _. below (leaf as_bool) key.now path.now (view value.now) ≡ None) }
    ensures value { IfOk result (λ found. found ≡ under as_bool key.now (view value.now)) }
    ensures err { IfErr result (Tells (below (leaf as_bool) key.now path.now (view value.now))) }
{
    let Some(below) = value.get(key) else {
        return Ok(None);
    };
    match below.as_bool() {
        Some(found) => Ok(Some(found)),
        None => Err(bad_under(alloc, key, path)),
    }
}

fn true_in(value: &Value) -> Option<bool>
    ensures { result ≡ true_in (view value.now) }
{
    if value.as_bool()? { Some(true) } else { None }
}

// The value true.
pub(crate) fn true_under(
    alloc: Global,
    value: &Value,
    key: &str,
    path: &str,
) -> Result<Option<bool>, QueryFault>
    ensures ok { IfOk result (λ _. below (leaf true_in) key.now path.now (view value.now) ≡ None) }
    ensures value { IfOk result (λ found. found ≡ under true_in key.now (view value.now)) }
    ensures err { IfErr result (Tells (below (leaf true_in) key.now path.now (view value.now))) }
{
    let Some(below) = value.get(key) else {
        return Ok(None);
    };
    match true_in(below) {
        Some(found) => Ok(Some(found)),
        None => Err(bad_under(alloc, key, path)),
    }
}

fn date_in(value: &Value) -> Option<Date>
    ensures { result ≡ date_of (view value.now) }
{
    Date::read(value.as_str()?.as_bytes())
}

// A date.
pub(crate) fn date_under(
    alloc: Global,
    value: &Value,
    key: &str,
    path: &str,
) -> Result<Option<Date>, QueryFault>
    ensures ok { IfOk result (λ _. below (leaf date_of) key.now path.now (view value.now) ≡ None) }
    ensures value { IfOk result (λ found. found ≡ under date_of key.now (view value.now)) }
    ensures err { IfErr result (Tells (below (leaf date_of) key.now path.now (view value.now))) }
{
    let Some(below) = value.get(key) else {
        return Ok(None);
    };
    match date_in(below) {
        Some(found) => Ok(Some(found)),
        None => Err(bad_under(alloc, key, path)),
    }
}

fn op_named(text: &str) -> Option<Op>
    ensures { result ≡ op_named text.now }
{
    if text == "and" {
        Some(Op::And)
    } else if text == "or" {
        Some(Op::Or)
    } else if text == "xor" {
        Some(Op::Xor)
    } else if text == "not" {
        Some(Op::Not)
    } else {
        None
    }
}

pub(crate) fn op_in(value: &Value) -> Option<Op>
    ensures { result ≡ op_in (view value.now) }
{
    op_named(value.as_str()?)
}

// How two constraints are joined.
pub(crate) fn op_under(
    alloc: Global,
    value: &Value,
    key: &str,
    path: &str,
) -> Result<Option<Op>, QueryFault>
    ensures ok { IfOk result (λ _. below (leaf op_in) key.now path.now (view value.now) ≡ None) }
    ensures value { IfOk result (λ found. found ≡ under op_in key.now (view value.now)) }
    ensures err { IfErr result (Tells (below (leaf op_in) key.now path.now (view value.now))) }
{
    let Some(below) = value.get(key) else {
        return Ok(None);
    };
    match op_in(below) {
        Some(found) => Ok(Some(found)),
        None => Err(bad_under(alloc, key, path)),
    }
}

fn kin_named(text: &str) -> Option<Kin>
    ensures { result ≡ kin_named text.now }
{
    if text == "parent" {
        Some(Kin::Parent)
    } else if text == "child" {
        Some(Kin::Child)
    } else {
        None
    }
}

fn kin_in(value: &Value) -> Option<Kin>
    ensures { result ≡ kin_in (view value.now) }
{
    kin_named(value.as_str()?)
}

// Which permanodes a relation is about.
pub(crate) fn kin_under(
    alloc: Global,
    value: &Value,
    key: &str,
    path: &str,
) -> Result<Option<Kin>, QueryFault>
    ensures ok { IfOk result (λ _. below (leaf kin_in) key.now path.now (view value.now) ≡ None) }
    ensures value { IfOk result (λ found. found ≡ under kin_in key.now (view value.now)) }
    ensures err { IfErr result (Tells (below (leaf kin_in) key.now path.now (view value.now))) }
{
    let Some(below) = value.get(key) else {
        return Ok(None);
    };
    match kin_in(below) {
        Some(found) => Ok(Some(found)),
        None => Err(bad_under(alloc, key, path)),
    }
}

fn sort_named(text: &str) -> Option<Sort>
    ensures { result ≡ sort_named text.now }
{
    if text == "blobref" {
        Some(Sort::Ref)
    } else if text == "mod" {
        Some(Sort::Mod)
    } else if text == "-mod" {
        Some(Sort::ModDown)
    } else {
        None
    }
}

fn sort_in(value: &Value) -> Option<Sort>
    ensures { result ≡ sort_in (view value.now) }
{
    sort_named(value.as_str()?)
}

// An order.
pub(crate) fn sort_under(
    alloc: Global,
    value: &Value,
    key: &str,
    path: &str,
) -> Result<Option<Sort>, QueryFault>
    ensures ok { IfOk result (λ _. below (leaf sort_in) key.now path.now (view value.now) ≡ None) }
    ensures value { IfOk result (λ found. found ≡ under sort_in key.now (view value.now)) }
    ensures err { IfErr result (Tells (below (leaf sort_in) key.now path.now (view value.now))) }
{
    let Some(below) = value.get(key) else {
        return Ok(None);
    };
    match sort_in(below) {
        Some(found) => Ok(Some(found)),
        None => Err(bad_under(alloc, key, path)),
    }
}

fn limit_in(value: &Value) -> Option<u32>
    ensures { result ≡ limit_in (view value.now) }
{
    let n = value.as_u64()?;
    if 1 <= n && n <= 1_000_000 {
        Some(n as u32)
    } else {
        None
    }
}

// A limit of 1 to 1,000,000.
#[tactic(auto, unfolding(crate::specs::Grammar::limit_fault))]
pub(crate) fn limit_under(
    alloc: Global,
    value: &Value,
    key: &str,
    path: &str,
) -> Result<Option<u32>, QueryFault>
    ensures ok { IfOk result (λ _. below limit_fault key.now path.now (view value.now) ≡ None) }
    ensures value { IfOk result (λ found. found ≡ under limit_in key.now (view value.now)) }
    ensures err { IfErr result (Tells (below limit_fault key.now path.now (view value.now))) }
{
    let Some(below) = value.get(key) else {
        return Ok(None);
    };
    match limit_in(below) {
        Some(found) => Ok(Some(found)),
        None => Err(bad_under(alloc, key, path)),
    }
}
