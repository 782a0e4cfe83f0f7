//! Constraints, down to so many levels.
ghost use Rattle.std.specs.Prelude.{◌≡◌, ◌≢◌, IfOk, IfErr, Some, None, is_some};
ghost use Rattle.serde_json.specs.View.{view};
ghost use Rattle.serde_json.specs.Find.{get};
ghost use Rattle.search_query.specs.View.{view as asks, logical_view, logical_seen, permanode_view, permanode_seen, relation_view, relation_seen, asked_view};
ghost use Rattle.query_read.specs.Faults.{Tells, below};
ghost use Rattle.query_read.specs.Grammar.{is_not, logical_whole, logical_fault, relation_whole, relation_fault, permanode_whole, permanode_fault, parts_fault, constraint_fault, too_deep};
ghost use Rattle.query_read.specs.Values.{asked_in, joined_of, joined_in, related_of, related_in, tested_of, tested_in, parts_of, constraint_of};

use crate::fault::QueryFault;
use crate::leaves::{date_under, kin_under, name_under, op_in, op_under, text_under, true_under};
use crate::objects::{bad_value, has_any, join, shape};
use crate::value_tests::{file_test_under, int_test_under, text_test_under};
use blobref::{NoMemory, Text};
use search_query::{Constraint, Logical, Op, PermanodeTest, Relation};
use serde_json::Value;
use std::alloc::Global;

fn is_not(value: &Value) -> bool
    ensures { result ≡ is_not (view value.now) }
{
    match value.get("op") {
        None => false,
        Some(found) => match op_in(found) {
            Some(Op::Not) => true,
            _ => false,
        },
    }
}

fn logical_whole(value: &Value) -> bool
    ensures { result ≡ logical_whole (view value.now) }
{
    let b = value.get("b");
    value.get("op").is_some()
        && value.get("a").is_some()
        && (if is_not(value) {
            b.is_none()
        } else {
            b.is_some()
        })
}

fn relation_whole(value: &Value) -> bool
    ensures { result ≡ relation_whole (view value.now) }
{
    value.get("relation").is_some() && value.get("any").is_some() != value.get("all").is_some()
}

fn permanode_whole(value: &Value) -> bool
    ensures { result ≡ permanode_whole (view value.now) }
{
    value.get("attr").is_some()
        || !has_any(value, &["value", "valueMatches", "valueInSet", "numValue"])
}

fn boxed(alloc: Global, constraint: Constraint) -> Result<Box<Constraint>, NoMemory>
    ensures { IfOk result (λ b. b.value ≡ constraint) }
{
    Ok(Box::new(alloc, constraint)?)
}

fn too_deep(alloc: Global, path: &str) -> QueryFault
    ensures { Tells (too_deep path.now) result }
{
    match Text::copy(alloc, path) {
        Ok(at) => QueryFault::TooDeep { at },
        Err(_) => QueryFault::NoMemory,
    }
}

// A constraint that may nest so many deep.
#[cycle(read)]
fn constraint(alloc: Global, value: &Value, path: &str, left: u32) -> Result<Constraint, QueryFault>
    ensures ok { IfOk result (λ _. constraint_fault left path.now (view value.now) ≡ None) }
    ensures value { IfOk result (λ c. asks c ≡ constraint_of left (view value.now)) }
    ensures err { IfErr result (Tells (constraint_fault left path.now (view value.now))) }
{
    if left == 0 {
        return Err(too_deep(alloc, path));
    }
    parts(alloc, value, path, left - 1)
}

#[cycle(read)]
fn parts(alloc: Global, value: &Value, path: &str, left: u32) -> Result<Constraint, QueryFault>
    ensures ok { IfOk result (λ _. parts_fault (constraint_fault left) path.now (view value.now) ≡ None) }
    ensures value { IfOk result (λ c. asks c ≡ parts_of (constraint_of left) (view value.now)) }
    ensures err { IfErr result (Tells (parts_fault (constraint_fault left) path.now (view value.now))) }
{
    let keys = [
        "anything",
        "blobRefPrefix",
        "blobSize",
        "camliType",
        "file",
        "logical",
        "permanode",
    ];
    shape(alloc, value, &keys, path)?;
    let anything = true_under(alloc, value, "anything", path)?;
    let blob_ref_prefix = text_under(alloc, value, "blobRefPrefix", path)?;
    let blob_size = int_test_under(alloc, value, "blobSize", path)?;
    let camli_type = text_under(alloc, value, "camliType", path)?;
    let file = file_test_under(alloc, value, "file", path)?;
    let logical = logical_under(alloc, value, "logical", path, left)?;
    let permanode = permanode_under(alloc, value, "permanode", path, left)?;
    if !has_any(value, &keys) {
        return Err(bad_value(alloc, path));
    }
    Ok(Constraint {
        logical,
        anything,
        camli_type,
        blob_ref_prefix,
        blob_size,
        file,
        permanode,
    })
}

#[cycle(read)]
fn logical_under(
    alloc: Global,
    value: &Value,
    key: &str,
    path: &str,
    left: u32,
) -> Result<Option<Logical>, QueryFault>
    ensures ok { IfOk result (λ _.
        below (logical_fault (constraint_fault left)) key.now path.now (view value.now) ≡ None) }
    ensures value { IfOk result (λ o. logical_seen o ≡ joined_in (constraint_of left) (get key.now (view value.now))) }
    ensures err { IfErr result (Tells
        (below (logical_fault (constraint_fault left)) key.now path.now (view value.now))) }
{
    let Some(below) = value.get(key) else {
        return Ok(None);
    };
    let at = join(alloc, path, key)?;
    Ok(Some(logical(alloc, below, at.as_str(), left)?))
}

#[cycle(read)]
fn logical(alloc: Global, value: &Value, path: &str, left: u32) -> Result<Logical, QueryFault>
    ensures ok { IfOk result (λ _. logical_fault (constraint_fault left) path.now (view value.now) ≡ None) }
    ensures value { IfOk result (λ o. logical_view o ≡ joined_of (constraint_of left) (view value.now)) }
    ensures err { IfErr result (Tells (logical_fault (constraint_fault left) path.now (view value.now))) }
{
    shape(alloc, value, &["a", "b", "op"], path)?;
    let a = constraint_under(alloc, value, "a", path, left)?;
    let b = constraint_under(alloc, value, "b", path, left)?;
    let op = op_under(alloc, value, "op", path)?;
    if !logical_whole(value) {
        return Err(bad_value(alloc, path));
    }
    Ok(Logical { op, a, b })
}

#[cycle(read)]
fn permanode_under(
    alloc: Global,
    value: &Value,
    key: &str,
    path: &str,
    left: u32,
) -> Result<Option<PermanodeTest>, QueryFault>
    ensures ok { IfOk result (λ _.
        below (permanode_fault (constraint_fault left)) key.now path.now (view value.now) ≡ None) }
    ensures value { IfOk result (λ o.
        permanode_seen o ≡ tested_in (constraint_of left) (get key.now (view value.now))) }
    ensures err { IfErr result (Tells
        (below (permanode_fault (constraint_fault left)) key.now path.now (view value.now))) }
{
    let Some(below) = value.get(key) else {
        return Ok(None);
    };
    let at = join(alloc, path, key)?;
    Ok(Some(permanode(alloc, below, at.as_str(), left)?))
}

#[cycle(read)]
fn permanode(
    alloc: Global,
    value: &Value,
    path: &str,
    left: u32,
) -> Result<PermanodeTest, QueryFault>
    ensures ok { IfOk result (λ _. permanode_fault (constraint_fault left) path.now (view value.now) ≡ None) }
    ensures value { IfOk result (λ o. permanode_view o ≡ tested_of (constraint_of left) (view value.now)) }
    ensures err { IfErr result (Tells (permanode_fault (constraint_fault left) path.now (view value.now))) }
{
    let keys = [
        "at",
        "attr",
        "numValue",
        "relation",
        "value",
        "valueInSet",
        "valueMatches",
    ];
    shape(alloc, value, &keys, path)?;
    let at = date_under(alloc, value, "at", path)?;
    let attr = name_under(alloc, value, "attr", path)?;
    let num_value = int_test_under(alloc, value, "numValue", path)?;
    let relation = relation_under(alloc, value, "relation", path, left)?;
    let wanted = text_under(alloc, value, "value", path)?;
    let value_in_set = constraint_under(alloc, value, "valueInSet", path, left)?;
    let value_matches = text_test_under(alloc, value, "valueMatches", path)?;
    if !permanode_whole(value) {
        return Err(bad_value(alloc, path));
    }
    Ok(PermanodeTest {
        at,
        attr,
        value: wanted,
        value_matches,
        value_in_set,
        num_value,
        relation,
    })
}

#[cycle(read)]
fn relation_under(
    alloc: Global,
    value: &Value,
    key: &str,
    path: &str,
    left: u32,
) -> Result<Option<Relation>, QueryFault>
    ensures ok { IfOk result (λ _.
        below (relation_fault (constraint_fault left)) key.now path.now (view value.now) ≡ None) }
    ensures value { IfOk result (λ o.
        relation_seen o ≡ related_in (constraint_of left) (get key.now (view value.now))) }
    ensures err { IfErr result (Tells
        (below (relation_fault (constraint_fault left)) key.now path.now (view value.now))) }
{
    let Some(below) = value.get(key) else {
        return Ok(None);
    };
    let at = join(alloc, path, key)?;
    Ok(Some(relation(alloc, below, at.as_str(), left)?))
}

#[cycle(read)]
fn relation(alloc: Global, value: &Value, path: &str, left: u32) -> Result<Relation, QueryFault>
    ensures ok { IfOk result (λ _. relation_fault (constraint_fault left) path.now (view value.now) ≡ None) }
    ensures value { IfOk result (λ o. relation_view o ≡ related_of (constraint_of left) (view value.now)) }
    ensures err { IfErr result (Tells (relation_fault (constraint_fault left) path.now (view value.now))) }
{
    shape(alloc, value, &["all", "any", "relation"], path)?;
    let all = constraint_under(alloc, value, "all", path, left)?;
    let any = constraint_under(alloc, value, "any", path, left)?;
    let relation = kin_under(alloc, value, "relation", path)?;
    if !relation_whole(value) {
        return Err(bad_value(alloc, path));
    }
    Ok(Relation { relation, any, all })
}

// A constraint under a key, where the key is present.
#[cycle(read)]
pub(crate) fn constraint_under(
    alloc: Global,
    value: &Value,
    key: &str,
    path: &str,
    left: u32,
) -> Result<Option<Box<Constraint>>, QueryFault>
    ensures present { IfOk result (λ c. is_some c ≡ is_some (get key.now (view value.now))) }
    ensures ok { IfOk result (λ _. below (constraint_fault left) key.now path.now (view value.now) ≡ None) }
    ensures value { IfOk result (λ c. asked_view c ≡ asked_in (constraint_of left) (get key.now (view value.now))) }
    ensures err { IfErr result (Tells (below (constraint_fault left) key.now path.now (view value.now))) }
{
    let Some(below) = value.get(key) else {
        return Ok(None);
    };
    let at = join(alloc, path, key)?;
    let inner = constraint(alloc, below, at.as_str(), left)?;
    Ok(Some(boxed(alloc, inner)?))
}
