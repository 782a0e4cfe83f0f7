//! What a request asks, by its head and its body.
ghost use Rattle.std.specs.Prelude.{◌≡◌, false, IfOk, IfErr};
ghost use Rattle.blob_routes.specs.Stats.{refs_of};
ghost use Rattle.blob_routes.specs.Pages.{page_of};
ghost use Rattle.http_exchange.specs.HeadPlaces.{HasPieces};
ghost use Rattle.blob_http.specs.Operations.{IsFew, routed_of, refused_by, refused, stat_of, refs_asked};
ghost use Rattle.blob_http.specs.Operations.{IsSearch, IsAskedAt, is_upload};

use answer_text::Refusal;
use blob_routes::{
    Allowed, AskFault, Page, Route, RouteFault, page_asked, query_asked, refs_asked,
};
use blobref::{NoMemory, Ref, RefList};
use http_wire::{Head, Wire};
use search_query::Query;
use std::alloc::Global;

/// What is asked, or how it is refused.
#[derive(Drop)]
pub enum Operation {
    /// Nothing that can be answered, with the methods to tell.
    Refused {
        refusal: Refusal,
        allow: Option<Allowed>,
    },
    /// The bytes of a blob.
    Blob {
        r: Ref,
    },
    /// Which of these refs stand.
    Stat {
        refs: RefList,
    },
    /// A page of the refs.
    Refs {
        page: Page,
    },
    /// The answer to a query.
    Search {
        query: Query,
    },
}

/// The route of a request by its method and its path, or how it is refused by these.
pub(crate) fn route_of_head(wire: &Wire, head: &Head) -> Result<Route, Operation>
    requires { HasPieces wire.now.head head.now }
    ensures routed { result ≡ routed_of wire.now.head head.now }
    ensures few { IfErr result IsFew }
{
    match Route::of(wire.piece(&head.method), wire.piece(&head.path)) {
        Ok(found) => Ok(found),
        Err(fault) => Err(refused_by(fault)),
    }
}

fn refused_by(fault: RouteFault) -> Operation
    ensures { result ≡ refused_by fault }
{
    match fault {
        RouteFault::NoRoute => Operation::Refused {
            refusal: Refusal::NoRoute,
            allow: None,
        },
        RouteFault::Method { allow } => Operation::Refused {
            refusal: Refusal::Method,
            allow: Some(allow),
        },
    }
}

/// Whether the route is an upload's.
pub(crate) fn is_upload(found: &Route) -> bool
    ensures { result ≡ is_upload found.now }
{
    matches!(found, Route::Upload)
}

/// What is asked along a route that isn't an upload's, by the query and the body.
pub(crate) fn operation_of(
    alloc: Global,
    found: &Route,
    query: &[u8],
    body: &[u8],
) -> Result<Operation, NoMemory>
    requires { is_upload found.now ≡ false }
    ensures asked { IfOk result (IsAskedAt found.now query.now body.now) }
    ensures few { IfOk result IsFew }
{
    match found {
        Route::Blob { r } => Ok(Operation::Blob { r: *r }),
        Route::Stat { posted } => stat(alloc, *posted, query, body),
        Route::Page => refs(alloc, query),
        Route::Search => search(alloc, body),
        Route::Upload => unreachable!(),
    }
}

/// The operation that is refused so, without methods to tell.
pub(crate) fn refused(refusal: Refusal) -> Operation
    ensures { result ≡ refused refusal }
{
    Operation::Refused {
        refusal,
        allow: None,
    }
}

fn stat(alloc: Global, posted: bool, query: &[u8], body: &[u8]) -> Result<Operation, NoMemory>
    ensures asked { IfOk result (λ q. q ≡ stat_of (refs_of posted query.now body.now)) }
    ensures few { IfOk result IsFew }
{
    match refs_asked(alloc, posted, query, body) {
        Ok(refs) => Ok(Operation::Stat { refs }),
        Err(AskFault::Refused(refusal)) => Ok(refused(refusal)),
        Err(AskFault::NoMemory) => Err(NoMemory),
    }
}

fn refs(alloc: Global, query: &[u8]) -> Result<Operation, NoMemory>
    ensures asked { IfOk result (λ q. q ≡ refs_asked (page_of query.now)) }
    ensures few { IfOk result IsFew }
{
    match page_asked(alloc, query) {
        Ok(page) => Ok(Operation::Refs { page }),
        Err(AskFault::Refused(refusal)) => Ok(refused(refusal)),
        Err(AskFault::NoMemory) => Err(NoMemory),
    }
}

fn search(alloc: Global, body: &[u8]) -> Result<Operation, NoMemory>
    ensures asked { IfOk result (IsSearch body.now) }
    ensures few { IfOk result IsFew }
{
    match query_asked(alloc, body) {
        Ok(query) => Ok(Operation::Search { query }),
        Err(AskFault::Refused(refusal)) => Ok(refused(refusal)),
        Err(AskFault::NoMemory) => Err(NoMemory),
    }
}
