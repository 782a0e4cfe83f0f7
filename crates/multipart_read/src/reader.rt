//! The reader of parts.
ghost use Rattle.std.specs.Prelude.{◌≡◌, ◌≢◌, ◌+◌, ◌<◌, ◌^◌, ◌++◌, ◌↔◌, ◌⊎◌, [], length, false, true, slice_index};
ghost use Rattle.std.specs.Prelude.{IfOk, IfErr, OnOk, Err, codes};
ghost use Rattle.multipart_read.specs.Parameters.{is_boundary};
ghost use Rattle.multipart_read.specs.Tokens.{tokens_of};
ghost use Rattle.multipart_read.specs.Body.{Led, Passable, Waits};
ghost use Rattle.multipart_read.specs.Reader.{fresh, Gives, Reads, AreLast, IsOutcome};
ghost use Rattle.multipart_read.specs.declared.events.PartFault.{PartFault};

use crate::events::{PartEvents, PartFault};
use crate::parameters::is_boundary;
use crate::steps::{Stage, run};
use blobref::NoMemory;
use std::alloc::Global;
use std::marker::Model;

/// A reader of the parts of a multipart body, which is fed the body in pieces (`docs/formats/multipart.md`). What it
/// tells doesn't depend on how the body is cut. It holds back at most 4,095 bytes of the body, beside its boundary.
#[derive(Drop)]
pub struct Parts {
    alloc: Global,
    start: Vec<u8>,
    fed: u64,
    stage: Stage,
    held: Vec<u8>,
}

impl Model for Parts {
    ghost use Rattle.multipart_read.specs.Reader.{Reader, IsReader};

    ghost Value = { Reader };

    ghost view = { λ p. record { start = p.start.items; fed = p.fed; stage = p.stage; held = p.held.items } };

    ghost invariant = { λ p. IsReader p.start.items p.fed p.stage p.held.items };
}

/// Takes the piece behind the bytes that are held, as far as they go, and holds what is left of them.
#[tactic(auto, using(crate::proofs::Feeding::left_are_last, crate::proofs::Feeding::piece_last))]
fn advance(
    alloc: Global,
    start: &[u8],
    total: u64,
    stage: Stage,
    held: &mut Vec<u8>,
    piece: &[u8],
    events: &mut PartEvents,
) -> Result<Stage, NoMemory>
    requires starts { slice_index start.now 0 ≡ 13 }
    requires some { 0 < length start.now }
    requires passable { Passable stage }
    ensures passable { IfOk result (λ after. Passable after) }
    ensures waits { IfOk result (λ after. Waits start.now after held.new.items) }
    ensures last { IfOk result (λ after. AreLast (held.old.items ++ piece.now) held.new.items) }
    ensures leads { IfOk result (λ after. Led start.now total stage (held.old.items ++ piece.now)
        (tokens_of events.old) (tokens_of events.new) after held.new.items) }
{
    if held.is_empty() {
        let done = run(alloc, start, total, stage, piece, events)?;
        held.extend_from_slice(&piece[done.used..])?;
        return Ok(done.stage);
    }
    held.extend_from_slice(piece)?;
    let done = run(alloc, start, total, stage, held.as_slice(), events)?;
    let rest = Vec::from_slice(alloc, &held[done.used..])?;
    *held = rest;
    Ok(done.stage)
}

/// What a call answers: its events, or the fault where there are none.
fn outcome(stage: Stage, events: PartEvents) -> Result<PartEvents, PartFault>
    ensures { IsOutcome stage events result }
{
    if events.len() > 0 {
        return Ok(events);
    }
    match stage {
        Stage::Refused(fault) => Err(fault),
        Stage::Preamble { .. } => Ok(events),
        Stage::Head { .. } => Ok(events),
        Stage::Content { .. } => Ok(events),
        Stage::Closed => Ok(events),
    }
}

/// CR LF, `--` and the boundary.
fn start_of(alloc: Global, boundary: &[u8]) -> Result<Vec<u8>, NoMemory>
    ensures { IfOk result (λ start. start.items ≡ codes "\r\n--" ++ boundary.now) }
{
    let mut start = Vec::from_slice(alloc, b"\r\n--")?;
    start.extend_from_slice(boundary)?;
    Ok(start)
}

/// The CR LF that is thought before a body, so that a mark at its very start is one like any other.
fn first_held(alloc: Global) -> Result<Vec<u8>, NoMemory>
    ensures { IfOk result (λ held. held.items ≡ codes "\r\n") }
{
    let held = Vec::from_slice(alloc, b"\r\n")?;
    Ok(held)
}

impl Parts {
    /// A reader of a body with this boundary, before its first byte. `BadBoundary` comes exactly where the text isn't a
    /// boundary; the only other error is `NoMemory`.
    pub fn make(alloc: Global, boundary: &[u8]) -> Result<Parts, PartFault>
        ensures made { IfOk result (λ parts. parts ≡ fresh boundary.now) }
        ensures bad { (result ≡ Err PartFault.BadBoundary) ↔ (is_boundary boundary.now ≡ false) }
        ensures others { IfErr result (λ fault. (fault ≡ PartFault.BadBoundary) ⊎ (fault ≡ PartFault.NoMemory)) }
    {
        if !is_boundary(boundary) {
            return Err(PartFault::BadBoundary);
        }
        match Parts::with_boundary(alloc, boundary) {
            Ok(parts) => Ok(parts),
            Err(NoMemory) => Err(PartFault::NoMemory),
        }
    }

    /// The same for a text that is a boundary, as `boundary_of` gives it.
    pub fn with_boundary(alloc: Global, boundary: &[u8]) -> Result<Parts, NoMemory>
        requires { is_boundary boundary.now ≡ true }
        ensures { IfOk result (λ parts. parts ≡ fresh boundary.now) }
    {
        let start = start_of(alloc, boundary)?;
        let held = first_held(alloc)?;
        Ok(Parts {
            alloc,
            start,
            fed: 0,
            stage: Stage::Preamble { passed: 0 },
            held,
        })
    }

    /// Takes the next piece of the body, and answers what it tells. Where it holds events and then a fault, the events
    /// are answered, and the next call answers the fault, also one with an empty piece. Once a fault is answered every
    /// call answers it. After the close all is passed over. The pieces must have fewer than 2^64 bytes in all.
    ///
    /// The bytes that are held back are the last that came, and are looked at anew in each call: at most 91 in a
    /// preamble or a content, and up to 4,095 in a head, so pieces of single bytes are slow there. Every other byte is
    /// looked at once. Contents are copied once.
    pub fn feed(&mut self, piece: &[u8]) -> Result<PartEvents, PartFault>
        requires { self.old.fed + length piece.now < 2 ^ 64 }
        ensures reads { Reads self.old piece.now result self.new }
        ensures refused { IfErr result (λ fault. self.new.stage ≡ Stage.Refused fault) }
        ensures again { (fault : PartFault) → self.old.stage ≡ Stage.Refused fault → result ≡ Err fault }
        ensures events_first { IfOk result
            (λ events. (fault : PartFault) → self.new.stage ≡ Stage.Refused fault → 0 < length events) }
        ensures fed { self.new.fed ≡ self.old.fed + length piece.now }
        ensures start { self.new.start ≡ self.old.start }
        ensures waits { Waits self.new.start self.new.stage self.new.held }
        ensures passable { Passable self.new.stage }
        ensures last { OnOk result (AreLast (self.old.held ++ piece.now) self.new.held) }
    {
        let total = self.fed + piece.len() as u64;
        self.fed = total;
        if let Stage::Refused(fault) = self.stage {
            return Err(fault);
        }
        let mut events = PartEvents::empty(self.alloc);
        let stage = match advance(
            self.alloc,
            &self.start,
            total,
            self.stage,
            &mut self.held,
            piece,
            &mut events,
        ) {
            Ok(stage) => stage,
            Err(NoMemory) => {
                self.stage = Stage::Refused(PartFault::NoMemory);
                self.held.clear();
                return Err(PartFault::NoMemory);
            }
        };
        self.stage = stage;
        outcome(stage, events)
    }

    /// The end of the body: `Ok` where its close has come, else its fault. `NoMemory` comes only where a `feed` has
    /// answered it.
    pub fn end(self) -> Result<(), PartFault>
        ensures ended { result ≢ Err PartFault.NoMemory → Gives self [] [] result }
        ensures memory { result ≡ Err PartFault.NoMemory → self.stage ≡ Stage.Refused PartFault.NoMemory }
        ensures again { (fault : PartFault) → self.stage ≡ Stage.Refused fault → result ≡ Err fault }
    {
        match self.stage {
            Stage::Preamble { .. } => Err(PartFault::Bad { at: 0 }),
            Stage::Head { .. } => Err(PartFault::Bad {
                at: self.fed.saturating_sub(self.held.len() as u64),
            }),
            Stage::Content { at, .. } => Err(PartFault::Bad { at }),
            Stage::Closed => Ok(()),
            Stage::Refused(fault) => Err(fault),
        }
    }
}
