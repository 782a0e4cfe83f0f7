//! The reader of a connection.
ghost use Rattle.std.specs.Prelude.{◌≡◌, ◌<◌, ◌≤◌, ◌⊎◌, [], length, IfOk, IfErr, IfSome, OnOk, OnErr, IsErrOf};
ghost use Rattle.std.specs.Prelude.{slice_range, Ok};
ghost use Rattle.edge_base.specs.Edge.{FaultsRose};
ghost use Rattle.http_wire.specs.Stream.{Passed};
ghost use Rattle.http_wire.specs.Heads.{IsHeadText, HeadSpec, IsPlaceIn};
ghost use Rattle.http_wire.specs.ReplyHeads.{ReplySpec};
ghost use Rattle.http_wire.specs.Bodies.{Moves, EndsEarly, given_by};
ghost use Rattle.http_wire.specs.Wires.{to_come, body_of, HeadEnds, ReplyEnds, BodyEnds, HasHead, LacksHead};

use crate::ahead::ReadAhead;
use crate::body::Body;
use crate::ends::{WireEnd, end_of_body};
use crate::head::{Framing, Head, Piece, ReplyHead};
use crate::kept::Kept;
use crate::reading::read_body;
use crate::taking::{take_head, take_reply};
use blobref::NoMemory;
use edge_base::Source;
use httparse::spans::{EMPTY_HEADER_SPAN, HeaderSpan};
use std::alloc::{AllocError, Global};
use std::marker::Model;

/// The reader of one connection: it takes heads and bodies from a source, however the bytes come. docs/http.md has the
/// rules. It holds all buffers of the connection, some 219 KiB, and takes no memory after it is made.
#[derive(Drop)]
pub struct Wire {
    ahead: ReadAhead,
    head: Kept,
    headers: Vec<HeaderSpan>,
    begun: u64,
    body: Body,
}

impl Model for Wire {
    ghost use Rattle.std.specs.Prelude.{◌≡◌, length};
    ghost use Rattle.http_wire.specs.Wires.{WireView};

    ghost Value = { WireView };

    ghost view = { λ w. record { flow = w.ahead; head = w.head; begun = w.begun; body = w.body } };

    ghost invariant = { λ w. length w.headers.items ≡ 5462 };
}

impl Wire {
    /// A reader that has taken nothing, with no body to read.
    pub fn make(alloc: Global) -> Result<Wire, NoMemory>
        ensures { IfOk result (λ wire.
            wire ≡ record { flow = record { bytes = []; taken = 0 }; head = []; begun = 0; body = Body.Done }) }
    {
        let ahead = ReadAhead::make(alloc)?;
        let head = Kept::make(alloc)?;
        let headers = header_room(alloc)?;
        Ok(Wire {
            ahead,
            head,
            headers,
            begun: 0,
            body: Body::Done,
        })
    }

    /// The bytes of a place in the present head, which is the one that `next_head` read last.
    pub fn piece(&self, p: &Piece) -> &[u8]
        requires { IsPlaceIn self.now.head p.now }
        ensures { result.now ≡ slice_range self.now.head p.now.start p.now.end }
    {
        &self.head.as_slice()[p.start..p.end]
    }

    /// At most 32,768 bytes are read ahead.
    pub fn few_ahead(&self)
        ensures { length self.now.flow.bytes ≤ 32768 }
    {
        self.ahead.few();
    }

    /// What is still to come of the present body.
    pub fn rest(&self) -> Body
        ensures { result ≡ self.now.body }
    {
        self.body
    }

    /// Takes the next bytes of the present body into the front of the buffer, and says how many: none for a buffer that
    /// isn't empty is the body's end, as it is for a request without a body. Chunk lines and trailers are dropped.
    ///
    /// It ends with `Cut` where the source ends inside the body, with `BadLength` where what comes is no body, both
    /// with the number of bytes before the message, and with `ReadFault` where a read failed and what was read before
    /// ends inside the body. After each the bytes given so far are those of the body, and what it tells is what the
    /// stream then has. A body that goes to the source's end ends there, and with nothing but `ReadFault` before. Where
    /// all bytes of a body of a given length were given nothing more is read.
    pub fn body<S: Source>(&mut self, source: &mut S, buf: &mut [u8]) -> Result<usize, WireEnd>
        ensures moved { Moves (S.left source.old) (S.left source.new) self.old.flow self.new.flow
            self.old.body self.new.body (given_by result buf.new) }
        ensures kept { (self.new.head ≡ self.old.head) × (self.new.begun ≡ self.old.begun) }
        ensures bound { IfOk result (λ n. n ≤ length buf.old) }
        ensures end { IfOk result (λ n. n ≡ 0 → 0 < length buf.old → self.new.body ≡ Body.Done) }
        ensures whole { self.old.body ≡ Body.Exactly 0 → (self.new.flow ≡ self.old.flow) × (source.new ≡ source.old) }
        ensures done { self.old.body ≡ Body.Done → (self.new.flow ≡ self.old.flow) × (source.new ≡ source.old) }
        ensures err { IfErr result
            (λ end. BodyEnds (to_come self.new (S.left source.new)) self.new.body self.old.begun end) }
        ensures to_end { self.old.body ≡ Body.ToEnd → OnErr result (IsErrOf result WireEnd.ReadFault) }
        ensures stays { self.old.body ≡ Body.ToEnd → (self.new.body ≡ Body.ToEnd) ⊎ (self.new.body ≡ Body.Done) }
        ensures ended { self.old.body ≡ Body.ToEnd → self.new.body ≡ Body.Done
            → IfSome (to_come self.new (S.left source.new)) (λ left. left ≡ []) }
        ensures short { IsErrOf result WireEnd.ReadFault → EndsEarly self.new.body self.new.flow.bytes }
        ensures fault { IsErrOf result WireEnd.ReadFault → FaultsRose (S.faults source.old) (S.faults source.new) }
        ensures later { S.faults source.old ≤ S.faults source.new }
    {
        let begun = self.begun;
        match read_body(&mut self.ahead, source, &mut self.body, buf) {
            Ok(n) => return Ok(n),
            Err(stop) => return Err(end_of_body(stop, begun)),
        }
    }

    /// Takes the next head, under the condition that the body before was read to its end.
    ///
    /// It ends with `Closed` where the source ends before the first byte, with `Cut` where it ends inside the head, and
    /// with `BadHead`, `TooLong` and `BadLength` where the head is refused, in this order. `at` is the number of bytes
    /// before the request. With `ReadFault` a read failed, and what was read before ends inside the head. An error
    /// takes nothing from the stream. Where its lines were read ahead nothing is read.
    pub fn next_head<S: Source>(&mut self, source: &mut S) -> Result<Head, WireEnd>
        requires { self.old.body ≡ Body.Done }
        ensures ok { IfOk result
            (λ head. Passed (S.left source.old) (S.left source.new) self.old.flow self.new.flow self.new.head
            × IsHeadText self.new.head × HeadSpec self.new.head (Ok head) × (self.new.body ≡ body_of head.framing)) }
        ensures ready { HasHead self.old.flow.bytes → source.new ≡ source.old }
        ensures begun { self.new.begun ≡ self.old.flow.taken }
        ensures same { OnErr result (Passed (S.left source.old) (S.left source.new) self.old.flow self.new.flow []
            × (self.new.body ≡ Body.Done)) }
        ensures err { IfErr result (λ end. HeadEnds (to_come self.new (S.left source.new)) self.old.flow.taken end) }
        ensures short { IsErrOf result WireEnd.ReadFault → LacksHead self.new.flow.bytes }
        ensures fault { IsErrOf result WireEnd.ReadFault → FaultsRose (S.faults source.old) (S.faults source.new) }
        ensures later { S.faults source.old ≤ S.faults source.new }
    {
        self.begun = self.ahead.taken();
        let head = take_head(&mut self.ahead, source, &mut self.head, &mut self.headers)?;
        self.body = body_at(head.framing);
        Ok(head)
    }

    /// Takes the next head of a reply, from the first byte that no call has taken, whatever was to come of a body.
    ///
    /// It ends as `next_head` does; `at` is the number of bytes before the reply. An error takes nothing from the
    /// stream, and leaves the present body as it was.
    pub fn next_reply<S: Source>(&mut self, source: &mut S) -> Result<ReplyHead, WireEnd>
        ensures ok { IfOk result
            (λ head. Passed (S.left source.old) (S.left source.new) self.old.flow self.new.flow self.new.head
            × IsHeadText self.new.head × ReplySpec self.new.head (Ok head) × (self.new.body ≡ body_of head.framing)) }
        ensures ready { HasHead self.old.flow.bytes → source.new ≡ source.old }
        ensures begun { self.new.begun ≡ self.old.flow.taken }
        ensures same { OnErr result (Passed (S.left source.old) (S.left source.new) self.old.flow self.new.flow []
            × (self.new.body ≡ self.old.body)) }
        ensures err { IfErr result (λ end. ReplyEnds (to_come self.new (S.left source.new)) self.old.flow.taken end) }
        ensures short { IsErrOf result WireEnd.ReadFault → LacksHead self.new.flow.bytes }
        ensures fault { IsErrOf result WireEnd.ReadFault → FaultsRose (S.faults source.old) (S.faults source.new) }
        ensures later { S.faults source.old ≤ S.faults source.new }
    {
        self.begun = self.ahead.taken();
        let head = take_reply(&mut self.ahead, source, &mut self.head, &mut self.headers)?;
        self.body = body_at(head.framing);
        Ok(head)
    }
}

// What is to come of a body of this framing.
fn body_at(framing: Framing) -> Body
    ensures { result ≡ body_of framing }
{
    match framing {
        Framing::Empty => Body::Done,
        Framing::Length(n) => { if n == 0 { Body::Done } else { Body::Exactly(n) } }
        Framing::Chunked => Body::ChunkLine,
        Framing::ToEnd => Body::ToEnd,
    }
}

// Room for the headers of a head of 16,384 bytes.
fn header_room(alloc: Global) -> Result<Vec<HeaderSpan>, AllocError>
    ensures { IfOk result (λ room. length room.items ≡ 5462) }
{
    Vec::from_elem(alloc, EMPTY_HEADER_SPAN, 5_462)
}
