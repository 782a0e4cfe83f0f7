//! Reading a query.
ghost use Rattle.std.specs.Prelude.{◌≡◌, ◌≢◌, IfOk, IfErr, Some, None, codes, is_some, true, unwrap_or, []};
ghost use Rattle.serde_json.specs.View.{view};
ghost use Rattle.serde_json.specs.Find.{get};
ghost use Rattle.search_query.specs.View.{view as asks, asked_view, question};
ghost use Rattle.search_query.specs.Valid.{IsValid};
ghost use Rattle.query_read.specs.Faults.{Tells};
ghost use Rattle.query_read.specs.Grammar.{query_fault};
ghost use Rattle.query_read.specs.Values.{when_of, question_of};
ghost use Rattle.query_read.specs.Reading.{deepest, first_fault, asks_for};

use crate::constraints::constraint_under;
use crate::fault::QueryFault;
use crate::leaves::{date_under, limit_under, sort_under};
use crate::objects::{bad_value, shape};
use json_laws::json_in;
use schema_date::{Date, When};
use search_query::{Constraint, Query, Sort};
use serde_json::Value;
use std::alloc::Global;

const MAX_DEPTH: u32 = 32;

// The query whose constraint is there.
fn query_of(
    constraint: Option<Box<Constraint>>,
    limit: Option<u32>,
    sort: Option<Sort>,
    at: Option<Date>,
) -> Query
    requires { is_some constraint ≡ true }
    ensures constraint { asks result.constraint ≡ asked_view constraint }
    ensures limit { result.limit ≡ unwrap_or limit 200 }
    ensures sort { result.sort ≡ unwrap_or sort Sort.Ref }
    ensures at { result.at ≡ when_of at }
{
    let at = match at {
        None => When::Always,
        Some(date) => When::At(date),
    };
    match constraint {
        None => unreachable!(),
        Some(constraint) => Query {
            constraint: Box::into_inner(constraint),
            limit: limit.unwrap_or(200),
            sort: sort.unwrap_or(Sort::Ref),
            at,
        },
    }
}

fn within(alloc: Global, value: &Value, path: &str, left: u32) -> Result<Query, QueryFault>
    ensures ok { IfOk result (λ _. query_fault left path.now (view value.now) ≡ None) }
    ensures value { IfOk result (λ q. question q ≡ question_of left (view value.now)) }
    ensures err { IfErr result (Tells (query_fault left path.now (view value.now))) }
{
    shape(alloc, value, &["at", "constraint", "limit", "sort"], path)?;
    let at = date_under(alloc, value, "at", path)?;
    let constraint = constraint_under(alloc, value, "constraint", path, left)?;
    let limit = limit_under(alloc, value, "limit", path)?;
    let sort = sort_under(alloc, value, "sort", path)?;
    if value.get("constraint").is_none() {
        return Err(bad_value(alloc, path));
    }
    Ok(query_of(constraint, limit, sort, at))
}

/// The query that a text is (`docs/formats/queries.md`), which is valid. An error other than `NoMemory` is the text's
/// first fault.
pub fn read(alloc: Global, text: &[u8]) -> Result<Query, QueryFault>
    ensures ok { IfOk result (λ _. first_fault text.now ≡ None) }
    ensures value { IfOk result (λ query. asks_for text.now ≡ Some (question query)) }
    ensures valid { IfOk result IsValid }
    ensures err { IfErr result (Tells (first_fault text.now)) }
{
    match json_in(alloc, text)? {
        None => Err(QueryFault::NotJson),
        Some(value) => within(alloc, &value, "", MAX_DEPTH),
    }
}
