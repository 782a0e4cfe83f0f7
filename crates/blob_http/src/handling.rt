//! Operations over any home.
ghost use Rattle.std.specs.Prelude.{◌≡◌, ◌≤◌, IsErr, None};
ghost use Rattle.blob_routes.specs.Pages.{most_page};
ghost use Rattle.blob_http.specs.Operations.{IsFew};
ghost use Rattle.blob_http.specs.declared.operations.Operation.{Operation};
ghost use Rattle.blob_http.specs.Answers.{outcome_of};
ghost use Rattle.blob_http.specs.Handling.{Answers, Looks, entry_of};
ghost use Rattle.home_places.specs.Passes.{Sight, StoreCall};

use crate::entries::{Answered, Outcome};
use crate::operations::Operation;
use crate::replies::{
    ReplyText, blob_reply, fault_reply, page_reply, refused, search_reply, stat_reply,
};
use answer_text::Refusal;
use blob_routes::{Allowed, Page};
use blob_upload::Service;
use blobref::{NoMemory, Ref, RefList};
use home_places::Home;
use search_query::Query;
use std::sync::Wait;

/// The reply to an operation, with its entry.
pub(crate) fn answer<H: Home, R: Wait>(
    service: &Service<H, R>,
    pass: &mut H::Pass,
    operation: &Operation,
    closes: bool,
) -> (Answered, ReplyText)
    requires belongs { H.belongs service.now.home.now pass.old }
    requires few { IsFew operation.now }
    ensures own { H.belongs service.now.home.now pass.new }
    ensures answers { Answers (H.tells service.now.home.now) closes operation.now
        (H.sight pass.old) (H.sight pass.new) result.0 result.1 }
{
    match operation {
        Operation::Refused { refusal, allow } => {
            answer_refused(service, pass, refusal, *allow, closes)
        }
        Operation::Blob { r } => answer_blob(service, pass, r, closes),
        Operation::Stat { refs } => answer_stat(service, pass, refs, closes),
        Operation::Refs { page } => answer_page(service, pass, page, closes),
        Operation::Search { query } => answer_search(service, pass, query, closes),
    }
}

fn answer_refused<H: Home, R: Wait>(
    service: &Service<H, R>,
    pass: &H::Pass,
    refusal: &Refusal,
    allow: Option<Allowed>,
    closes: bool,
) -> (Answered, ReplyText)
    ensures { Answers (H.tells service.now.home.now) closes (Operation.Refused refusal.now allow)
        (H.sight pass.now) (H.sight pass.now) result.0 result.1 }
{
    let reply = refused(service.alloc, Outcome::Defined, closes, allow, refusal);
    let counts = service.home.seen(pass);
    (entry(counts.0, counts.1, 0, &reply), reply)
}

fn answer_blob<H: Home, R: Wait>(
    service: &Service<H, R>,
    pass: &mut H::Pass,
    r: &Ref,
    closes: bool,
) -> (Answered, ReplyText)
    requires { H.belongs service.now.home.now pass.old }
    ensures own { H.belongs service.now.home.now pass.new }
    ensures answers { Answers (H.tells service.now.home.now) closes (Operation.Blob r.now)
        (H.sight pass.old) (H.sight pass.new) result.0 result.1 }
{
    let fetched = service.home.fetch(service.rt, pass, r);
    let counts = service.home.seen(pass);
    let reply = blob_reply(service.alloc, closes, r, fetched);
    (entry(counts.0, counts.1, 0, &reply), reply)
}

fn answer_stat<H: Home, R: Wait>(
    service: &Service<H, R>,
    pass: &mut H::Pass,
    refs: &RefList,
    closes: bool,
) -> (Answered, ReplyText)
    requires { H.belongs service.now.home.now pass.old }
    ensures own { H.belongs service.now.home.now pass.new }
    ensures answers { Answers (H.tells service.now.home.now) closes (Operation.Stat refs.now)
        (H.sight pass.old) (H.sight pass.new) result.0 result.1 }
{
    let found = service.home.stat(service.rt, pass, refs);
    let counts = service.home.seen(pass);
    let reply = stat_reply(service.alloc, closes, found);
    (entry(counts.0, counts.1, 0, &reply), reply)
}

fn answer_page<H: Home, R: Wait>(
    service: &Service<H, R>,
    pass: &mut H::Pass,
    page: &Page,
    closes: bool,
) -> (Answered, ReplyText)
    requires belongs { H.belongs service.now.home.now pass.old }
    requires few { page.now.limit ≤ most_page }
    ensures own { H.belongs service.now.home.now pass.new }
    ensures answers { Answers (H.tells service.now.home.now) closes (Operation.Refs page.now)
        (H.sight pass.old) (H.sight pass.new) result.0 result.1 }
{
    let found = service
        .home
        .list(service.rt, pass, page.after.as_ref(), page.limit + 1);
    let counts = service.home.seen(pass);
    let reply = page_reply(service.alloc, closes, page.limit, found);
    (entry(counts.0, counts.1, 0, &reply), reply)
}

// The store is looked at first: so a search finds what had arrived before it was asked, whoever put it.
fn answer_search<H: Home, R: Wait>(
    service: &Service<H, R>,
    pass: &mut H::Pass,
    query: &Query,
    closes: bool,
) -> (Answered, ReplyText)
    requires { H.belongs service.now.home.now pass.old }
    ensures own { H.belongs service.now.home.now pass.new }
    ensures answers { Answers (H.tells service.now.home.now) closes (Operation.Search query.now)
        (H.sight pass.old) (H.sight pass.new) result.0 result.1 }
{
    let Ok(()) = look(service, pass) else {
        let counts = service.home.seen(pass);
        return (
            entry(counts.0, counts.1, 0, &ReplyText::Memory),
            ReplyText::Memory,
        );
    };
    answer_settled(service, pass, query, closes)
}

// A look at the store, in one turn of it: what had arrived by then is seen from now on, whoever put it. Nothing is
// added.
fn look<H: Home, R: Wait>(service: &Service<H, R>, pass: &mut H::Pass) -> Result<(), NoMemory>
    requires { H.belongs service.now.home.now pass.old }
    ensures own { H.belongs service.now.home.now pass.new }
    ensures turn { StoreCall (IsErr result) (λ before entry. entry ≡ None) (H.sight pass.old) (H.sight pass.new) }
{
    // A stat of no refs is the call of a home that asks the least.
    match service
        .home
        .stat(service.rt, pass, &RefList::empty(service.alloc))
    {
        Ok(_) => Ok(()),
        Err(error) => Err(error),
    }
}

// The answer to a search behind a look at the store.
fn answer_settled<H: Home, R: Wait>(
    service: &Service<H, R>,
    pass: &mut H::Pass,
    query: &Query,
    closes: bool,
) -> (Answered, ReplyText)
    requires { H.belongs service.now.home.now pass.old }
    ensures own { H.belongs service.now.home.now pass.new }
    ensures answers { (v : Sight) → Looks v (H.sight pass.old)
        → Answers (H.tells service.now.home.now) closes (Operation.Search query.now) v (H.sight pass.new)
        result.0 result.1 }
{
    let before = service.home.seen(pass);
    match service.home.settle(service.rt, pass) {
        Err(fault) => {
            let after = service.home.seen(pass);
            let reply = fault_reply(service.alloc, closes, fault);
            (entry(before.0, after.1, 0, &reply), reply)
        }
        Ok(()) => {
            let found = service.home.search(pass, query);
            let after = service.home.seen(pass);
            let reply = search_reply(service.alloc, closes, found);
            (entry(before.0, after.1, 0, &reply), reply)
        }
    }
}

/// The entry of a request with this reply.
pub(crate) fn entry(store_count: u64, index_count: u64, kept: u64, reply: &ReplyText) -> Answered
    ensures { result ≡ entry_of store_count index_count kept reply.now }
{
    let outcome = match reply {
        ReplyText::Told { outcome, .. } => *outcome,
        ReplyText::Memory => Outcome::Memory,
    };
    Answered {
        store_count,
        index_count,
        kept,
        outcome,
    }
}
