//! Serves shares on a connection.
ghost use Rattle.std.specs.Prelude.{◌≡◌, ◌≤◌, ℕ, List, Option, None};
ghost use Rattle.std.specs.Option.{ForSome};
ghost use Rattle.edge_base.specs.Edge.{SinkTook};
ghost use Rattle.claim_verify.specs.Verifier.{Accepts};
ghost use Rattle.http_wire.specs.declared.body.Body.{Body};
ghost use Rattle.http_exchange.specs.Hearing.{Open, fresh_flow, Wrote, EndCause, WroteBy, StepCause};
ghost use Rattle.http_exchange.specs.Notes.{Notes};
ghost use Rattle.share_model.specs.Verdicts.{verdict};
ghost use Rattle.share_gate.specs.Building.{IsOnlyRead};
ghost use Rattle.share_gate.specs.Gates.{IsGateOf, gate_verdict};
ghost use Rattle.share_http.specs.Serving.{SharesServed, Heard, HeardBy};

use crate::entries::ShareTold;
use crate::replies::{entry_of, write_made};
use crate::requests::reply_next;
use edge_base::{Shelf, Sink, Source};
use http_exchange::{AnswerLog, Ended};
use http_wire::Wire;
use share_gate::ShareGate;
use std::alloc::Global;
use std::sync::Wait;

/// Serves the requests of a connection until there are no more (`docs/shares.md`, "Over HTTP"). The bytes written are
/// the replies to the requests, in their order, each by the verdict of the gate. If the gate is that of the blobs that
/// the shelf tells, it is the verdict over these. The log takes the entry before the reply is written. Blobs that are
/// served are fetched from the shelf, and nothing else is done with it: a request that is denied can't touch it.
///
/// At `Closed`, `Cut` and `ReadFault` each whole reply was written. At `WriteFault` a prefix of the replies was
/// written; the last entries may lack their replies. `Cut` and `ReadFault` come only if the bytes received called for
/// no refusal. At `Closed` after a reply, at `WriteFault` and at `NoMemory` no more than 32,768 bytes were read beyond
/// the answered requests. At `NoMemory` no byte of a further request was used.
///
/// It takes memory for its buffers at once (about 219 KiB), and then for a body of at most 1 MiB, for the refs of a
/// path, for a blob, and for the log. Between two requests it holds only its buffers.
pub fn share_session<B: Shelf, S: Source, K: Sink, L: AnswerLog<ShareTold>, R: Wait>(
    rt: &R,
    alloc: Global,
    gate: &ShareGate,
    shelf: &mut B,
    source: &mut S,
    sink: &mut K,
    log: &mut L,
) -> Ended
    ensures serves { SharesServed B.Shelf (gate_verdict gate.now) shelf.old shelf.new (Notes L.tells log.old log.new)
        (Heard (S.left source.old) (S.left source.new) result)
        (Wrote (K.written sink.old) (K.written sink.new) result) }
    ensures store { ForSome (B.content shelf.old) (λ held. (accepts : Accepts) → IsGateOf gate.now held accepts
        → SharesServed B.Shelf (verdict held accepts) shelf.old shelf.new (Notes L.tells log.old log.new)
        (Heard (S.left source.old) (S.left source.new) result)
        (Wrote (K.written sink.old) (K.written sink.new) result)) }
    ensures read { IsOnlyRead B.Shelf shelf.old shelf.new }
    ensures cause { EndCause (S.faults source.old) (S.faults source.new) (K.faults sink.old) (K.faults sink.new)
        result }
{
    serve_requests(rt, alloc, gate, shelf, source, sink, log)
}

// The same, with the contract by the verdicts of the gate alone.
fn serve_requests<B: Shelf, S: Source, K: Sink, L: AnswerLog<ShareTold>, R: Wait>(
    rt: &R,
    alloc: Global,
    gate: &ShareGate,
    shelf: &mut B,
    source: &mut S,
    sink: &mut K,
    log: &mut L,
) -> Ended
    ensures serves { SharesServed B.Shelf (gate_verdict gate.now) shelf.old shelf.new (Notes L.tells log.old log.new)
        (Heard (S.left source.old) (S.left source.new) result)
        (Wrote (K.written sink.old) (K.written sink.new) result) }
    ensures read { IsOnlyRead B.Shelf shelf.old shelf.new }
    ensures cause { EndCause (S.faults source.old) (S.faults source.new) (K.faults sink.old) (K.faults sink.new)
        result }
{
    let Ok(mut wire) = Wire::make(alloc) else {
        return Ended::NoMemory;
    };
    'requests: for _ in rt.forever() {
        if let Some(ended) = serve_one(alloc, gate, shelf, &mut wire, source, sink, log) {
            return ended;
        }
    }
    unreachable!()
}

// Serves one request, or returns why there is none. It continues after any requests that were served before.
fn serve_one<B: Shelf, S: Source, K: Sink, L: AnswerLog<ShareTold>>(
    alloc: Global,
    gate: &ShareGate,
    shelf: &mut B,
    wire: &mut Wire,
    source: &mut S,
    sink: &mut K,
    log: &mut L,
) -> Option<Ended>
    requires ready { wire.old.body ≡ Body.Done }
    ensures ready { result ≡ None → wire.new.body ≡ Body.Done }
    ensures serves { (start : B) (log0 : L) (x0 w0 : Option (List ℕ)) → IsOnlyRead B.Shelf start shelf.old
        → SharesServed B.Shelf (gate_verdict gate.now) start shelf.old (Notes L.tells log0 log.old)
        (Open x0 (S.left source.old) fresh_flow wire.old.flow) (SinkTook w0 (K.written sink.old))
        → SharesServed B.Shelf (gate_verdict gate.now) start shelf.new (Notes L.tells log0 log.new)
        (HeardBy x0 (S.left source.new) fresh_flow wire.new.flow result) (WroteBy w0 (K.written sink.new) result) }
    ensures read { IsOnlyRead B.Shelf shelf.old shelf.new }
    ensures heard { S.faults source.old ≤ S.faults source.new }
    ensures wrote { K.faults sink.old ≤ K.faults sink.new }
    ensures cause { StepCause (S.faults source.old) (S.faults source.new) (K.faults sink.old) (K.faults sink.new)
        result }
{
    wire.few_ahead();
    let Ok(()) = log.make_room() else {
        return Some(Ended::NoMemory);
    };
    let response = match reply_next(alloc, gate, shelf, wire, source) {
        Ok(response) => response,
        Err(ended) => return Some(ended),
    };
    wire.few_ahead();
    log.note(entry_of(&response.made));
    let Ok(()) = write_made(alloc, sink, &response.made) else {
        return Some(Ended::WriteFault);
    };
    if response.closes {
        return Some(Ended::Closed);
    }
    None
}
