//! Taking the head of a message.
ghost use Rattle.std.specs.Prelude.{◌≡◌, ◌<◌, ◌≤◌, ℕ, List, Option, [], length, take, IfOk, IfErr, IfSome, OnErr};
ghost use Rattle.std.specs.Prelude.{IsErrOf};
ghost use Rattle.std.specs.Prelude.{Ok};
ghost use Rattle.edge_base.specs.Edge.{FaultsRose};
ghost use Rattle.http_wire.specs.Lines.{Lacks};
ghost use Rattle.http_wire.specs.Stream.{Passed, AtEnd, stream};
ghost use Rattle.http_wire.specs.Heads.{IsHeadText, HeadSpec};
ghost use Rattle.http_wire.specs.ReplyHeads.{ReplySpec};
ghost use Rattle.http_wire.specs.Wires.{Message, MessageEnds, Refuses, HeadEnds, ReplyEnds, HasHead, LacksHead};

use crate::ahead::ReadAhead;
use crate::ends::WireEnd;
use crate::filling::{FillFault, fill};
use crate::head::{Head, HeadFault, ReplyHead};
use crate::heads::read_head;
use crate::kept::Kept;
use crate::line_state::LineState;
use crate::reply_heads::read_reply;
use edge_base::Source;
use httparse::spans::HeaderSpan;

/// Takes the next head of a request, and keeps its text. An error takes nothing.
pub fn take_head<S: Source>(
    ahead: &mut ReadAhead,
    source: &mut S,
    kept: &mut Kept,
    headers: &mut [HeaderSpan],
) -> Result<Head, WireEnd>
    requires { length headers.old ≡ 5462 }
    ensures ok { IfOk result (λ head. Passed (S.left source.old) (S.left source.new) ahead.old ahead.new kept.new
        × IsHeadText kept.new × HeadSpec kept.new (Ok head)) }
    ensures ready { HasHead ahead.old.bytes → source.new ≡ source.old }
    ensures same { OnErr result (Passed (S.left source.old) (S.left source.new) ahead.old ahead.new []) }
    ensures err { IfErr result (λ end. HeadEnds (stream ahead.new.bytes (S.left source.new)) ahead.old.taken end) }
    ensures short { IsErrOf result WireEnd.ReadFault → LacksHead ahead.new.bytes }
    ensures fault { IsErrOf result WireEnd.ReadFault → FaultsRose (S.faults source.old) (S.faults source.new) }
    ensures later { S.faults source.old ≤ S.faults source.new }
{
    let place = ahead.taken();
    let n = lines_end(ahead, source)?;
    let text = &ahead.as_slice()[..n];
    match read_head(text, headers) {
        Ok(head) => {
            kept.keep(text);
            ahead.pass(n);
            Ok(head)
        }
        Err(fault) => Err(end_of_fault(fault, place)),
    }
}

/// Takes the next head of a reply, and keeps its text. An error takes nothing.
pub fn take_reply<S: Source>(
    ahead: &mut ReadAhead,
    source: &mut S,
    kept: &mut Kept,
    headers: &mut [HeaderSpan],
) -> Result<ReplyHead, WireEnd>
    requires { length headers.old ≡ 5462 }
    ensures ok { IfOk result (λ head. Passed (S.left source.old) (S.left source.new) ahead.old ahead.new kept.new
        × IsHeadText kept.new × ReplySpec kept.new (Ok head)) }
    ensures ready { HasHead ahead.old.bytes → source.new ≡ source.old }
    ensures same { OnErr result (Passed (S.left source.old) (S.left source.new) ahead.old ahead.new []) }
    ensures err { IfErr result (λ end. ReplyEnds (stream ahead.new.bytes (S.left source.new)) ahead.old.taken end) }
    ensures short { IsErrOf result WireEnd.ReadFault → LacksHead ahead.new.bytes }
    ensures fault { IsErrOf result WireEnd.ReadFault → FaultsRose (S.faults source.old) (S.faults source.new) }
    ensures later { S.faults source.old ≤ S.faults source.new }
{
    let place = ahead.taken();
    let n = lines_end(ahead, source)?;
    let text = &ahead.as_slice()[..n];
    match read_reply(text, headers) {
        Ok(head) => {
            kept.keep(text);
            ahead.pass(n);
            Ok(head)
        }
        Err(fault) => Err(end_of_fault(fault, place)),
    }
}

// Behind how many bytes the lines of a head end, or why they don't.
fn lines_end<S: Source>(ahead: &mut ReadAhead, source: &mut S) -> Result<usize, WireEnd>
    ensures same { Passed (S.left source.old) (S.left source.new) ahead.old ahead.new [] }
    ensures ready { HasHead ahead.old.bytes → source.new ≡ source.old }
    ensures within { IfOk result (λ n. n ≤ length ahead.new.bytes) }
    ensures found { IfOk result (λ n. IsHeadText (take n ahead.new.bytes)) }
    ensures request { IfErr result
        (λ end. HeadEnds (stream ahead.new.bytes (S.left source.new)) ahead.old.taken end) }
    ensures reply { IfErr result
        (λ end. ReplyEnds (stream ahead.new.bytes (S.left source.new)) ahead.old.taken end) }
    ensures short { IsErrOf result WireEnd.ReadFault → LacksHead ahead.new.bytes }
    ensures fault { IsErrOf result WireEnd.ReadFault → FaultsRose (S.faults source.old) (S.faults source.new) }
    ensures later { S.faults source.old ≤ S.faults source.new }
{
    let place = ahead.taken();
    match fill(ahead, source, LineState::Start, 16_384) {
        Ok(n) => Ok(n),
        Err(FillFault::Long) => Err(WireEnd::TooLong { limit: 16_384 }),
        Err(FillFault::Ended) => Err(end_of_stream(ahead.len(), place)),
        Err(FillFault::Failed) => Err(WireEnd::ReadFault),
    }
}

// The end that the stream's end is, where so many bytes are left.
fn end_of_stream(len: usize, place: u64) -> WireEnd
    ensures says { (message : Message) (bytes : List ℕ) (left : Option (List ℕ)) → length bytes ≡ len → AtEnd left
        → IfSome (stream bytes left) (λ x. (length x < 16384) × Lacks LineState.Start 16384 x)
        → MessageEnds message (stream bytes left) place result }
    ensures fault { result ≡ WireEnd.ReadFault → ⊥ }
{
    if len == 0 {
        WireEnd::Closed
    } else {
        WireEnd::Cut { at: place }
    }
}

// The end that a refused head is.
fn end_of_fault(fault: HeadFault, place: u64) -> WireEnd
    ensures says { (message : Message) (n : ℕ) (bytes : List ℕ) (left : Option (List ℕ))
        → Refuses message fault (take n bytes) → MessageEnds message (stream bytes left) place result }
    ensures fault { result ≡ WireEnd.ReadFault → ⊥ }
{
    match fault {
        HeadFault::BadHead => WireEnd::BadHead { at: place },
        HeadFault::BadLength => WireEnd::BadLength { at: place },
        HeadFault::TooMany => WireEnd::TooLong { limit: 64 },
    }
}
