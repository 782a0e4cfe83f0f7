//! What every object of the grammar has in common.
ghost use Rattle.std.specs.Prelude.{◌≡◌, ◌≢◌, IfOk, IfErr, OnOk, Some, None, is_some, option_copied};
ghost use Rattle.std.specs.List.{list_any};
ghost use Rattle.std.specs.Str.{bytes_eq};
ghost use Rattle.serde_json.specs.View.{view, members_view};
ghost use Rattle.serde_json.specs.Find.{get};
ghost use Rattle.query_read.specs.Faults.{Tells, names, join, bad_key, bad_value, shape_fault, unknown, has_any};

use crate::fault::QueryFault;
use blobref::{NoMemory, Text};
use serde_json::{Map, Value};
use std::alloc::Global;

// The path of a key below a path.
pub(crate) fn join(alloc: Global, path: &str, key: &str) -> Result<Text, NoMemory>
    ensures { IfOk result (λ text. text ≡ join path.now key.now) }
{
    if path.is_empty() {
        return Text::copy(alloc, key);
    }
    let mut text = String::from_str(alloc, path)?;
    text.push_str("/")?;
    text.push_str(key)?;
    Text::copy(alloc, text.as_str())
}

// The fault of a value that may not stand there.
pub(crate) fn bad_value(alloc: Global, path: &str) -> QueryFault
    ensures { Tells (bad_value path.now) result }
{
    match Text::copy(alloc, path) {
        Ok(at) => QueryFault::BadValue { at },
        Err(_) => QueryFault::NoMemory,
    }
}

// The same fault under a key.
pub(crate) fn bad_under(alloc: Global, key: &str, path: &str) -> QueryFault
    ensures { Tells (bad_value (join path.now key.now)) result }
{
    match join(alloc, path, key) {
        Ok(at) => QueryFault::BadValue { at },
        Err(_) => QueryFault::NoMemory,
    }
}

// The fault of a key that isn't known.
fn bad_key(alloc: Global, path: &str, key: &str) -> QueryFault
    ensures { Tells (bad_key path.now key.now) result }
{
    match join(alloc, path, key) {
        Ok(at) => QueryFault::BadKey { at },
        Err(_) => QueryFault::NoMemory,
    }
}

// Whether a key is one of these.
fn is_key(keys: &[&str], key: &str) -> bool
    ensures { result ≡ list_any (bytes_eq key.now) (names keys.now) }
{
    among(keys, key)
}

fn among(keys: &[&str], key: &str) -> bool
    ensures { result ≡ list_any (λ k. bytes_eq key.now k.now) keys.now }
{
    keys.iter().any(|k| key == *k)
}

// The least key that isn't known.
fn unknown<'m>(keys: &[&str], members: &'m Map<String, Value>) -> Option<&'m str>
    ensures { option_copied result ≡ unknown (names keys.now) (members_view members.now.entries) }
{
    for (key, _) in members.iter() {
        if !is_key(keys, key.as_str()) {
            return Some(key.as_str());
        }
    }
    None
}

// Whether it is an object without unknown keys.
pub(crate) fn shape(
    alloc: Global,
    value: &Value,
    keys: &[&str],
    path: &str,
) -> Result<(), QueryFault>
    ensures ok { OnOk result (shape_fault (names keys.now) path.now (view value.now) ≡ None) }
    ensures err { IfErr result (Tells (shape_fault (names keys.now) path.now (view value.now))) }
{
    match value.as_object() {
        None => Err(bad_value(alloc, path)),
        Some(members) => match unknown(keys, members) {
            None => Ok(()),
            Some(key) => Err(bad_key(alloc, path, key)),
        },
    }
}

// Whether one of these keys is present.
pub(crate) fn has_any(value: &Value, keys: &[&str]) -> bool
    ensures { result ≡ has_any (names keys.now) (view value.now) }
{
    for key in keys {
        if value.get(*key).is_some() {
            return true;
        }
    }
    false
}
