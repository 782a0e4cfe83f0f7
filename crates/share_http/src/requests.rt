//! One request, from its head to its reply.
ghost use Rattle.std.specs.Prelude.{◌≡◌, ◌≤◌, ◌||◌, ℕ, List, Option, true, Ok, IfOk, IfErr, IsErrOf};
ghost use Rattle.edge_base.specs.Edge.{FaultsRose};
ghost use Rattle.http_wire.specs.Heads.{HeadSpec};
ghost use Rattle.http_wire.specs.Stream.{Flow};
ghost use Rattle.http_wire.specs.Wires.{WireView, body_of};
ghost use Rattle.http_wire.specs.declared.body.Body.{Body};
ghost use Rattle.http_exchange.specs.Hearing.{StopEnds};
ghost use Rattle.share_gate.specs.Building.{IsOnlyRead};
ghost use Rattle.share_gate.specs.Gates.{gate_verdict};
ghost use Rattle.share_http.specs.Answers.{IsTold, share_refusal};
ghost use Rattle.share_http.specs.Asking.{first_of};
ghost use Rattle.share_http.specs.Handling.{AlongSpec, Answers, ComesOf, ComesTo, StopReplies, is_memory};

use crate::asking::{Question, question_of, ref_of_head};
use crate::entries::ShareTold;
use crate::replies::{ReplyText, absent, denied, fetched_reply, refused};
use answer_text::Refusal;
use blobref::{NoMemory, Ref, RefList};
use edge_base::{Shelf, Source};
use http_exchange::{BodyFault, Ended, MAX_BODY, check_length, closes_early, gather, head_says};
use http_wire::{Head, Wire};
use share_gate::{ShareGate, Verdict};
use std::alloc::Global;

/// The outcome of a request: its reply, and whether the connection closes after it.
#[derive(Drop)]
pub(crate) struct Response {
    pub(crate) made: ReplyText,
    pub(crate) closes: bool,
}

/// Reads the next request and answers it, or returns why there is none.
pub(crate) fn reply_next<B: Shelf, S: Source>(
    alloc: Global,
    gate: &ShareGate,
    shelf: &mut B,
    wire: &mut Wire,
    source: &mut S,
) -> Result<Response, Ended>
    requires ready { wire.old.body ≡ Body.Done }
    ensures comes { ComesTo B.Shelf (S.left source.old) (S.left source.new) wire.old.flow wire.new
        (gate_verdict gate.now) shelf.old shelf.new result }
    ensures read { IsOnlyRead B.Shelf shelf.old shelf.new }
    ensures fault { IsErrOf result Ended.ReadFault → FaultsRose (S.faults source.old) (S.faults source.new) }
    ensures later { S.faults source.old ≤ S.faults source.new }
{
    let end = match wire.next_head(source) {
        Ok(head) => return reply_to(alloc, gate, shelf, wire, source, &head),
        Err(end) => end,
    };
    match head_says(end) {
        Ok(refusal) => Ok(refuse(alloc, &refusal, true)),
        Err(ended) => Err(ended),
    }
}

// The reply to a request whose head was read.
fn reply_to<B: Shelf, S: Source>(
    alloc: Global,
    gate: &ShareGate,
    shelf: &mut B,
    wire: &mut Wire,
    source: &mut S,
    head: &Head,
) -> Result<Response, Ended>
    requires read { HeadSpec wire.old.head (Ok head.now) }
    requires ready { wire.old.body ≡ body_of head.now.framing }
    ensures comes { ComesOf B.Shelf (S.left source.old) (S.left source.new) wire.old wire.new head.now
        (gate_verdict gate.now) shelf.old shelf.new result }
    ensures read { IsOnlyRead B.Shelf shelf.old shelf.new }
    ensures fault { IsErrOf result Ended.ReadFault → FaultsRose (S.faults source.old) (S.faults source.new) }
    ensures later { S.faults source.old ≤ S.faults source.new }
{
    let r = match first_of(wire, head) {
        Ok(r) => r,
        Err(refusal) => return Ok(refuse(alloc, &refusal, closes_early(head))),
    };
    let body = match gather(alloc, wire, source, head.framing) {
        Ok(body) => body,
        Err(fault) => return reply_to_stop(alloc, fault),
    };
    drop(body);
    let asked = question_of(alloc, &r, wire.piece(&head.query));
    Ok(reply_along(alloc, gate, shelf, asked, head.closes))
}

// The ref that a request asks for, or why it is refused before its body is read.
fn first_of(wire: &Wire, head: &Head) -> Result<Ref, Refusal>
    requires { HeadSpec wire.now.head (Ok head.now) }
    ensures { result ≡ first_of wire.now.head head.now }
{
    let r = ref_of_head(wire, head)?;
    check_length(MAX_BODY, &head.framing)?;
    Ok(r)
}

// The reply if a body isn't read to its end.
fn reply_to_stop(alloc: Global, fault: BodyFault) -> Result<Response, Ended>
    ensures replies { IfOk result (λ response. StopReplies fault response.made × (response.closes ≡ true)) }
    ensures ends { IfErr result (StopEnds fault) }
{
    let refusal = match fault {
        BodyFault::Cut { at } => return Err(Ended::Cut { at }),
        BodyFault::ReadFault => return Err(Ended::ReadFault),
        BodyFault::Memory => return Ok(respond(ReplyText::Memory, true)),
        BodyFault::Long => Refusal::TooLong { limit: MAX_BODY },
        BodyFault::Broken => Refusal::BadLength,
    };
    Ok(refuse(alloc, &refusal, true))
}

// The reply to a request that is refused. If there is no memory for it, the connection closes after it.
fn refuse(alloc: Global, refusal: &Refusal, closes: bool) -> Response
    ensures made { IsTold ShareTold.Defined (share_refusal closes refusal.now) result.made }
    ensures closes { result.closes ≡ (closes || is_memory result.made) }
{
    respond(refused(alloc, ShareTold::Defined, closes, refusal), closes)
}

fn respond(made: ReplyText, closes: bool) -> Response
    ensures made { result.made ≡ made }
    ensures closes { result.closes ≡ (closes || is_memory made) }
{
    let closes = closes || is_memory(&made);
    Response { made, closes }
}

// Whether there was no memory for the reply.
fn is_memory(made: &ReplyText) -> bool
    ensures { result ≡ is_memory made.now }
{
    matches!(made, ReplyText::Memory)
}

// The reply to the question of a request, if there was memory to read the question.
fn reply_along<B: Shelf>(
    alloc: Global,
    gate: &ShareGate,
    shelf: &mut B,
    asked: Result<Question, NoMemory>,
    closes: bool,
) -> Response
    ensures answers { AlongSpec B.Shelf (gate_verdict gate.now) shelf.old shelf.new closes asked result.made }
    ensures read { IsOnlyRead B.Shelf shelf.old shelf.new }
    ensures closes { result.closes ≡ (closes || is_memory result.made) }
{
    match asked {
        Ok(question) => respond(answer(alloc, gate, shelf, &question, closes), closes),
        Err(_) => respond(ReplyText::Memory, closes),
    }
}

// The reply to a question.
#[tactic(auto, using(crate::proofs::Requesting::refusal_answers))]
fn answer<B: Shelf>(
    alloc: Global,
    gate: &ShareGate,
    shelf: &mut B,
    question: &Question,
    closes: bool,
) -> ReplyText
    ensures answers { Answers B.Shelf (gate_verdict gate.now) shelf.old shelf.new closes question.now result }
    ensures read { IsOnlyRead B.Shelf shelf.old shelf.new }
{
    match question {
        Question::Refused { refusal } => refused(alloc, ShareTold::Defined, closes, refusal),
        Question::Path { r, via } => answer_path(alloc, gate, shelf, r, via, closes),
    }
}

// The reply to a path. Only a blob that is served is fetched from the shelf.
fn answer_path<B: Shelf>(
    alloc: Global,
    gate: &ShareGate,
    shelf: &mut B,
    r: &Ref,
    via: &RefList,
    closes: bool,
) -> ReplyText
    ensures answers { Answers B.Shelf (gate_verdict gate.now) shelf.old shelf.new closes
        (Question.Path r.now via.now) result }
    ensures read { IsOnlyRead B.Shelf shelf.old shelf.new }
{
    match gate.verdict(r, via) {
        Verdict::Served => fetched_reply(alloc, closes, r, shelf.fetch(r)),
        Verdict::Absent => absent(alloc, closes, r),
        Verdict::Denied(rule) => denied(alloc, closes, &rule),
    }
}
