//! Which query is asked.
ghost use Rattle.std.specs.Prelude.{◌≡◌, IfOk, IfErr, Ok};
ghost use Rattle.search_query.specs.View.{question};
ghost use Rattle.search_query.specs.Valid.{IsValid};
ghost use Rattle.blob_routes.specs.Faults.{Refuses};
ghost use Rattle.blob_routes.specs.Queries.{Means, question_of};

use crate::faults::AskFault;
use answer_text::{BadKind, Refusal};
use blobref::Text;
use query_read::{QueryFault, read};
use search_query::Query;
use std::alloc::Global;

// A refusal without a place.
fn not_json(alloc: Global) -> AskFault
    ensures { Means QueryFault.NotJson result }
{
    let kind = BadKind::NotJson;
    match Text::copy(alloc, "") {
        Ok(at) => AskFault::Refused(Refusal::BadQuery { kind, at }),
        Err(_) => AskFault::NoMemory,
    }
}

fn bad_query(kind: BadKind, at: Text) -> AskFault
    ensures { result ≡ AskFault.Refused (Refusal.BadQuery kind at) }
{
    AskFault::Refused(Refusal::BadQuery { kind, at })
}

// The refusal that a fault is.
fn ask_fault(alloc: Global, fault: QueryFault) -> AskFault
    ensures { Means fault result }
{
    match fault {
        QueryFault::NotJson => not_json(alloc),
        QueryFault::BadKey { at } => bad_query(BadKind::BadKey, at),
        QueryFault::BadValue { at } => bad_query(BadKind::BadValue, at),
        QueryFault::TooDeep { at } => bad_query(BadKind::TooDeep, at),
        QueryFault::NoMemory => AskFault::NoMemory,
    }
}

/// The query that a body asks (`docs/formats/queries.md`), which is valid. The error is `NoMemory`, or the refusal
/// that its first fault is.
#[tactic(auto, unfolding(crate::specs::Queries::question_of))]
pub fn query_asked(alloc: Global, body: &[u8]) -> Result<Query, AskFault>
    ensures ok { IfOk result (λ query. question_of body.now ≡ Ok (question query)) }
    ensures valid { IfOk result IsValid }
    ensures err { IfErr result (Refuses (question_of body.now)) }
{
    match read(alloc, body) {
        Ok(query) => Ok(query),
        Err(fault) => Err(ask_fault(alloc, fault)),
    }
}
