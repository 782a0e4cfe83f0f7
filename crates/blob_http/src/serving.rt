//! A connection, over any home.
ghost use Rattle.std.specs.Prelude.{◌≡◌, ◌≤◌, ℕ, List, Option, Some, None};
ghost use Rattle.edge_base.specs.Edge.{SinkTook};
ghost use Rattle.home_places.specs.Passes.{Sight};
ghost use Rattle.http_wire.specs.declared.body.Body.{Body};
ghost use Rattle.blob_http.specs.Serving.{Serves, Heard, HeardBy};
ghost use Rattle.http_exchange.specs.Notes.{Notes};
ghost use Rattle.http_exchange.specs.Hearing.{Open, fresh_flow, Wrote, EndCause, WroteBy, StepCause};
ghost use Rattle.blob_http.specs.Serving.{IsRest, HasNone, RestBy};

use crate::entries::Answered;
use crate::replies::write_reply_text;
use crate::requests::reply_next;
use blob_upload::Service;
use edge_base::{Sink, Source};
use home_places::Home;
use http_exchange::{AnswerLog, Ended};
use http_wire::Wire;
use std::alloc::Global;
use std::sync::Wait;

/// Serves the requests of a connection until there are no more (`docs/http.md`). The bytes written are the replies to
/// the requests, in their order, each over the first blobs and the first inserts, as many as its entry says, of the
/// histories that the pass has seen at the end. The log takes the entry before the reply is written.
///
/// At `Closed`, `Cut` and `ReadFault` each whole reply was written; at `WriteFault` a front of them, where the last
/// entries may lack their replies. `Cut` and `ReadFault` come only where no refusal was due by what had come. At
/// `Closed` behind a reply, at `WriteFault` and at `NoMemory` no more than 32,768 bytes were read behind what was
/// answered; `NoMemory` comes before anything of a request is taken.
///
/// It takes memory for its buffers at once (some 219 KiB), and then for a body of at most 1 MiB, for the text of a
/// reply, and for what the calls of the home and of the log take. Between two requests it holds its buffers alone.
pub fn serve_connection<H: Home, S: Source, K: Sink, L: AnswerLog<Answered>, R: Wait>(
    rt: &R,
    alloc: Global,
    home: &H,
    pass: &mut H::Pass,
    source: &mut S,
    sink: &mut K,
    log: &mut L,
) -> Ended
    requires { H.belongs home.now pass.old }
    ensures own { H.belongs home.now pass.new }
    ensures serves { Serves (H.tells home.now) (H.sight pass.old) (H.sight pass.new) (Notes L.tells log.old log.new)
        (Heard (S.left source.old) (S.left source.new) result)
        (Wrote (K.written sink.old) (K.written sink.new) result) (IsRest (S.left source.old) 0 result) }
    ensures cause { EndCause (S.faults source.old) (S.faults source.new) (K.faults sink.old) (K.faults sink.new)
        result }
{
    let Ok(mut wire) = Wire::make(alloc) else {
        return Ended::NoMemory;
    };
    let service = Service { rt, alloc, home };
    'requests: for _ in rt.forever() {
        if let Some(ended) = serve_one(&service, pass, &mut wire, source, sink, log) {
            return ended;
        }
    }
    unreachable!()
}

// Serves one request, or says why there is none. Whatever was served before, it goes on from there.
fn serve_one<H: Home, S: Source, K: Sink, L: AnswerLog<Answered>, R: Wait>(
    service: &Service<H, R>,
    pass: &mut H::Pass,
    wire: &mut Wire,
    source: &mut S,
    sink: &mut K,
    log: &mut L,
) -> Option<Ended>
    requires belongs { H.belongs service.now.home.now pass.old }
    requires ready { wire.old.body ≡ Body.Done }
    ensures own { H.belongs service.now.home.now pass.new }
    ensures ready { result ≡ None → wire.new.body ≡ Body.Done }
    ensures serves { (v : Sight) (log0 : L) (x0 w0 : Option (List ℕ))
        → Serves (H.tells service.now.home.now) v (H.sight pass.old) (Notes L.tells log0 log.old)
        (Open x0 (S.left source.old) fresh_flow wire.old.flow) (SinkTook w0 (K.written sink.old)) HasNone
        → Serves (H.tells service.now.home.now) v (H.sight pass.new) (Notes L.tells log0 log.new)
        (HeardBy x0 (S.left source.new) fresh_flow wire.new.flow result) (WroteBy w0 (K.written sink.new) result)
        (RestBy x0 result) }
    ensures read { S.faults source.old ≤ S.faults source.new }
    ensures wrote { K.faults sink.old ≤ K.faults sink.new }
    ensures cause { StepCause (S.faults source.old) (S.faults source.new) (K.faults sink.old) (K.faults sink.new)
        result }
{
    wire.few_ahead();
    let Ok(()) = log.make_room() else {
        return Some(Ended::NoMemory);
    };
    let response = match reply_next(service, pass, wire, source) {
        Ok(response) => response,
        Err(ended) => return Some(ended),
    };
    wire.few_ahead();
    log.note(response.entry);
    let Ok(()) = write_reply_text(service.alloc, sink, &response.reply) else {
        return Some(Ended::WriteFault);
    };
    if response.closes {
        return Some(Ended::Closed);
    }
    None
}
