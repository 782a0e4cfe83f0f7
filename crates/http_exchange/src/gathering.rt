//! Small bodies, read as a whole.
ghost use Rattle.std.specs.Prelude.{◌≡◌, ◌≤◌, ℕ, Option, List, [], length, IfOk, IsErrOf};
ghost use Rattle.edge_base.specs.Edge.{FaultsRose};
ghost use Rattle.http_wire.specs.Bodies.{EndsEarly};
ghost use Rattle.http_wire.specs.Wires.{body_of, BodyEnds};
ghost use Rattle.http_wire.specs.declared.body.Body.{Body};
ghost use Rattle.http_exchange.specs.Gathering.{Gathers, CanStop, StopSpec};

use crate::before_body::MAX_BODY;
use blobref::Octets;
use edge_base::Source;
use http_wire::{Framing, Wire, WireEnd};
use std::alloc::{AllocError, Global};

/// The most bytes that are read at a time.
const PIECE: usize = 16_384;

/// Why a body wasn't read to its end.
#[derive(Clone, Copy, PartialEq, Eq)]
pub enum BodyFault {
    /// It has more than 1,048,576 bytes.
    Long,
    /// Its chunks are broken.
    Broken,
    /// No memory was left.
    Memory,
    /// The source ended inside it. So many bytes stand before the request.
    Cut { at: u64 },
    /// A read failed.
    ReadFault,
}

/// The bytes of the body of this framing, which is the present one. No more of it is read as soon as it has more than
/// 1,048,576 bytes. Memory is taken only where the framing isn't `Empty`, and grows with the bytes that come.
pub fn gather<S: Source>(
    alloc: Global,
    wire: &mut Wire,
    source: &mut S,
    framing: Framing,
) -> Result<Octets, BodyFault>
    requires { wire.old.body ≡ body_of framing }
    ensures gathers { Gathers (S.left source.old) (S.left source.new) wire.old wire.new result }
    ensures fault { IsErrOf result BodyFault.ReadFault → FaultsRose (S.faults source.old) (S.faults source.new) }
    ensures later { S.faults source.old ≤ S.faults source.new }
{
    match framing {
        Framing::Empty => Ok(Octets::from_vec(Vec::new(alloc))),
        Framing::Length(_) | Framing::Chunked | Framing::ToEnd => { gather_on(alloc, wire, source) }
    }
}

// The same of any framing.
fn gather_on<S: Source>(alloc: Global, wire: &mut Wire, source: &mut S) -> Result<Octets, BodyFault>
    ensures gathers { Gathers (S.left source.old) (S.left source.new) wire.old wire.new result }
    ensures fault { IsErrOf result BodyFault.ReadFault → FaultsRose (S.faults source.old) (S.faults source.new) }
    ensures later { S.faults source.old ≤ S.faults source.new }
{
    let Ok(mut space) = zeros(alloc) else {
        return Err(BodyFault::Memory);
    };
    let buf = space.as_mut_slice();
    let mut bytes = Vec::new(alloc);
    'reads: loop {
        let n = match wire.body(source, buf) {
            Ok(n) => n,
            Err(end) => return Err(fault_of(end)),
        };
        if n == 0 {
            return Ok(Octets::from_vec(bytes));
        }
        if n > MAX_BODY as usize - bytes.len() {
            return Err(BodyFault::Long);
        }
        let Ok(()) = bytes.extend_from_slice(&buf[..n]) else {
            return Err(BodyFault::Memory);
        };
    }
}

// Room for one piece.
fn zeros(alloc: Global) -> Result<Vec<u8>, AllocError>
    ensures { IfOk result (λ bytes. length bytes.items ≡ 16384) }
{
    vec![in alloc; 0; PIECE]
}

// Why no more of a body was given.
fn fault_of(end: WireEnd) -> BodyFault
    requires { CanStop end }
    ensures says { (x : Option (List ℕ)) (ahead : List ℕ) (at : Body) (place : ℕ) → BodyEnds x at place end
        → (end ≡ WireEnd.ReadFault → EndsEarly at ahead) → StopSpec x ahead at place result }
    ensures fault { result ≡ BodyFault.ReadFault → end ≡ WireEnd.ReadFault }
{
    match end {
        WireEnd::Cut { at } => BodyFault::Cut { at },
        WireEnd::BadLength { .. } => BodyFault::Broken,
        WireEnd::ReadFault => BodyFault::ReadFault,
        _ => unreachable!(),
    }
}
