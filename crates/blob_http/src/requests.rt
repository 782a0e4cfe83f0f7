//! One request, from its head to its reply.
ghost use Rattle.std.specs.Prelude.{◌≡◌, ◌≤◌, ◌||◌, ℕ, List, Option, Bool, true, false, Ok, Err, IfOk, IfErr};
ghost use Rattle.std.specs.Prelude.{IsErrOf};
ghost use Rattle.edge_base.specs.Edge.{FaultsRose};
ghost use Rattle.http_wire.specs.Heads.{HeadSpec};
ghost use Rattle.http_wire.specs.Stream.{Flow};
ghost use Rattle.http_wire.specs.Wires.{WireView, body_of};
ghost use Rattle.http_wire.specs.declared.body.Body.{Body};
ghost use Rattle.http_exchange.specs.HeadPlaces.{ReadsHead};
ghost use Rattle.http_exchange.specs.Hearing.{StopEnds};
ghost use Rattle.blob_http.specs.declared.operations.Operation.{Operation};
ghost use Rattle.blob_http.specs.Operations.{IsFew, first_of, routed_of, is_upload};
ghost use Rattle.blob_http.specs.Handling.{Answers, Replies, ComesTo, ComesOf, AlongSpec, StopReplies, is_memory};

use crate::entries::{Answered, Outcome};
use crate::handling::answer;
use crate::operations::{Operation, is_upload, operation_of, refused, route_of_head};
use crate::replies::ReplyText;
use crate::uploads::reply_to_upload;
use answer_text::Refusal;
use blob_routes::Route;
use blob_upload::Service;
use blobref::NoMemory;
use edge_base::Source;
use home_places::Home;
use http_exchange::{BodyFault, Ended, MAX_BODY, check_length, closes_early, gather, head_says};
use http_wire::{Head, Wire};
use std::sync::Wait;

/// What a request comes to: its entry, its reply, and whether the connection closes behind that.
#[derive(Drop)]
pub(crate) struct Response {
    pub(crate) entry: Answered,
    pub(crate) reply: ReplyText,
    pub(crate) closes: bool,
}

/// Takes the next request and answers it, or says why there is none.
pub(crate) fn reply_next<H: Home, S: Source, R: Wait>(
    service: &Service<H, R>,
    pass: &mut H::Pass,
    wire: &mut Wire,
    source: &mut S,
) -> Result<Response, Ended>
    requires belongs { H.belongs service.now.home.now pass.old }
    requires ready { wire.old.body ≡ Body.Done }
    ensures own { H.belongs service.now.home.now pass.new }
    ensures comes { ComesTo (S.left source.old) (S.left source.new) wire.old.flow wire.new
        (H.tells service.now.home.now) (H.sight pass.old) (H.sight pass.new) result }
    ensures fault { IsErrOf result Ended.ReadFault → FaultsRose (S.faults source.old) (S.faults source.new) }
    ensures later { S.faults source.old ≤ S.faults source.new }
{
    let end = match wire.next_head(source) {
        Ok(head) => return reply_to(service, pass, wire, source, &head),
        Err(end) => end,
    };
    match head_says(end) {
        Ok(refusal) => Ok(reply_along(service, pass, Ok(refused(refusal)), true)),
        Err(ended) => Err(ended),
    }
}

// The reply to a request whose head was read.
fn reply_to<H: Home, S: Source, R: Wait>(
    service: &Service<H, R>,
    pass: &mut H::Pass,
    wire: &mut Wire,
    source: &mut S,
    head: &Head,
) -> Result<Response, Ended>
    requires belongs { H.belongs service.now.home.now pass.old }
    requires read { HeadSpec wire.old.head (Ok head.now) }
    requires ready { wire.old.body ≡ body_of head.now.framing }
    ensures own { H.belongs service.now.home.now pass.new }
    ensures comes { ComesOf (S.left source.old) (S.left source.new) wire.old wire.new head.now
        (H.tells service.now.home.now) (H.sight pass.old) (H.sight pass.new) result }
    ensures fault { IsErrOf result Ended.ReadFault → FaultsRose (S.faults source.old) (S.faults source.new) }
    ensures later { S.faults source.old ≤ S.faults source.new }
{
    let found = match route_of_head(wire, head) {
        Ok(found) => found,
        Err(operation) => return Ok(reply_early(service, pass, head, operation)),
    };
    if is_upload(&found) {
        return reply_to_upload(service, pass, wire, source, head);
    }
    reply_to_operation(service, pass, wire, source, head, &found)
}

// The reply to a request along a route that isn't an upload's, whose body is read as a whole.
fn reply_to_operation<H: Home, S: Source, R: Wait>(
    service: &Service<H, R>,
    pass: &mut H::Pass,
    wire: &mut Wire,
    source: &mut S,
    head: &Head,
    found: &Route,
) -> Result<Response, Ended>
    requires belongs { H.belongs service.now.home.now pass.old }
    requires read { HeadSpec wire.old.head (Ok head.now) }
    requires ready { wire.old.body ≡ body_of head.now.framing }
    requires routed { routed_of wire.old.head head.now ≡ Ok found.now }
    requires other { is_upload found.now ≡ false }
    ensures own { H.belongs service.now.home.now pass.new }
    ensures comes { ComesOf (S.left source.old) (S.left source.new) wire.old wire.new head.now
        (H.tells service.now.home.now) (H.sight pass.old) (H.sight pass.new) result }
    ensures fault { IsErrOf result Ended.ReadFault → FaultsRose (S.faults source.old) (S.faults source.new) }
    ensures later { S.faults source.old ≤ S.faults source.new }
{
    match check_length(MAX_BODY, &head.framing) {
        Ok(()) => {}
        Err(refusal) => {
            return Ok(reply_early(service, pass, head, refused(refusal)));
        }
    }
    let body = match gather(service.alloc, wire, source, head.framing) {
        Ok(body) => body,
        Err(fault) => return reply_to_stop(service, pass, fault),
    };
    let asked = operation_of(
        service.alloc,
        found,
        wire.piece(&head.query),
        body.as_slice(),
    );
    Ok(reply_along(service, pass, asked, head.closes))
}

/// The reply to a request that is refused before its body is read.
pub(crate) fn reply_early<H: Home, R: Wait>(
    service: &Service<H, R>,
    pass: &mut H::Pass,
    head: &Head,
    operation: Operation,
) -> Response
    requires belongs { H.belongs service.now.home.now pass.old }
    requires few { IsFew operation }
    ensures own { H.belongs service.now.home.now pass.new }
    ensures replies { (x0 left : Option (List ℕ)) (flow : Flow) (wire : WireView)
        → ReadsHead x0 left flow wire head.now → first_of wire.head head.now ≡ Err operation
        → Replies x0 left flow wire (H.tells service.now.home.now) (H.sight pass.old) (H.sight pass.new)
        result.entry result.reply result.closes }
{
    reply_along(service, pass, Ok(operation), closes_early(head))
}

// The reply where a body isn't read to its end.
fn reply_to_stop<H: Home, R: Wait>(
    service: &Service<H, R>,
    pass: &mut H::Pass,
    fault: BodyFault,
) -> Result<Response, Ended>
    requires { H.belongs service.now.home.now pass.old }
    ensures own { H.belongs service.now.home.now pass.new }
    ensures replies { IfOk result (λ response. StopReplies (H.tells service.now.home.now) fault
        (H.sight pass.old) (H.sight pass.new) response.entry response.reply × (response.closes ≡ true)) }
    ensures same { IfErr result (λ ended. H.sight pass.new ≡ H.sight pass.old) }
    ensures ends { IfErr result (StopEnds fault) }
{
    let refusal = match fault {
        BodyFault::Cut { at } => return Err(Ended::Cut { at }),
        BodyFault::ReadFault => return Err(Ended::ReadFault),
        BodyFault::Memory => return Ok(out_of_memory(service.home, pass)),
        BodyFault::Long => Refusal::TooLong { limit: MAX_BODY },
        BodyFault::Broken => Refusal::BadLength,
    };
    Ok(reply_along(service, pass, Ok(refused(refusal)), true))
}

// The reply to what is asked, where there was memory to find that out.
fn reply_along<H: Home, R: Wait>(
    service: &Service<H, R>,
    pass: &mut H::Pass,
    asked: Result<Operation, NoMemory>,
    closes: bool,
) -> Response
    requires belongs { H.belongs service.now.home.now pass.old }
    requires few { IfOk asked IsFew }
    ensures own { H.belongs service.now.home.now pass.new }
    ensures answers { AlongSpec (H.tells service.now.home.now) closes asked (H.sight pass.old) (H.sight pass.new)
        result.entry result.reply }
    ensures closes { result.closes ≡ (closes || is_memory result.reply) }
{
    match asked {
        Ok(operation) => reply(service, pass, &operation, closes),
        Err(_) => out_of_memory(service.home, pass),
    }
}

// The reply to an operation. For want of memory the connection closes behind it.
fn reply<H: Home, R: Wait>(
    service: &Service<H, R>,
    pass: &mut H::Pass,
    operation: &Operation,
    closes: bool,
) -> Response
    requires belongs { H.belongs service.now.home.now pass.old }
    requires few { IsFew operation.now }
    ensures own { H.belongs service.now.home.now pass.new }
    ensures answers { Answers (H.tells service.now.home.now) closes operation.now
        (H.sight pass.old) (H.sight pass.new) result.entry result.reply }
    ensures closes { result.closes ≡ (closes || is_memory result.reply) }
{
    let (entry, reply) = answer(service, pass, operation, closes);
    let closes = closes || is_memory(&reply);
    Response {
        entry,
        reply,
        closes,
    }
}

/// Whether there was no memory for the reply.
pub(crate) fn is_memory(reply: &ReplyText) -> bool
    ensures { result ≡ is_memory reply.now }
{
    matches!(reply, ReplyText::Memory)
}

/// The reply where there is no memory to find out what is asked.
pub(crate) fn out_of_memory<H: Home>(home: &H, pass: &H::Pass) -> Response
    ensures answers { (tells closes : Bool) (q : Operation) → Answers tells closes q (H.sight pass.now)
        (H.sight pass.now) result.entry result.reply }
    ensures reply { result.reply ≡ ReplyText.Memory }
    ensures closes { result.closes ≡ true }
{
    let counts = home.seen(pass);
    Response {
        entry: Answered {
            store_count: counts.0,
            index_count: counts.1,
            kept: 0,
            outcome: Outcome::Memory,
        },
        reply: ReplyText::Memory,
        closes: true,
    }
}
