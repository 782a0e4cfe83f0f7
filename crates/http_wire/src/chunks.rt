//! The lines of a chunked body.
ghost use Rattle.std.specs.Prelude.{◌≡◌, ◌<◌, ◌≤◌, List, ℕ, length, [], IfOk, IsErrOf, IfSome, IfNone, OnErr};
ghost use Rattle.edge_base.specs.Edge.{FaultsRose};
ghost use Rattle.http_wire.specs.Stream.{stream, Passed, AtEnd};
ghost use Rattle.httparse.specs.Grammar.{ChunkLine, ReadsChunkLine, chunk_size};
ghost use Rattle.http_wire.specs.Bodies.{IsLine, EndsEarly, IsMalformed};
ghost use Rattle.http_wire.specs.declared.body.Body.TheVariants as body;

use crate::ahead::ReadAhead;
use crate::filling::fill;
use crate::line_state::LineState;
use crate::stop::{Stop, stop_of};
use edge_base::Source;
use httparse::{Status, parse_chunk_size};

/// Takes a chunk line, and says how large the chunk is.
pub fn take_line<S: Source>(ahead: &mut ReadAhead, source: &mut S) -> Result<u64, Stop>
    ensures ok { IfOk result (λ size. (text : List ℕ)
        × Passed (S.left source.old) (S.left source.new) ahead.old ahead.new text × IsLine text size) }
    ensures err { OnErr result (Passed (S.left source.old) (S.left source.new) ahead.old ahead.new []) }
    ensures cut { IsErrOf result Stop.Cut → IfSome (stream ahead.new.bytes (S.left source.new)) (EndsEarly body.ChunkLine) }
    ensures broken { IsErrOf result Stop.Broken
        → IfSome (stream ahead.new.bytes (S.left source.new)) (IsMalformed body.ChunkLine) }
    ensures short { IsErrOf result Stop.Failed → EndsEarly body.ChunkLine ahead.new.bytes }
    ensures fault { IsErrOf result Stop.Failed → FaultsRose (S.faults source.old) (S.faults source.new) }
    ensures later { S.faults source.old ≤ S.faults source.new }
{
    let n = match fill(ahead, source, LineState::Last, 4_096) {
        Ok(n) => n,
        Err(missed) => return Err(stop_of(missed)),
    };
    let Some(size) = size_of_line(&ahead.as_slice()[..n]) else {
        return Err(Stop::Broken);
    };
    ahead.pass(n);
    Ok(size)
}

// The size that a chunk line says, or None where the text is no chunk line.
fn size_of_line(text: &[u8]) -> Option<u64>
    ensures some { IfSome result (λ size. (l : ChunkLine) × ReadsChunkLine text.now l [] × (chunk_size l ≡ size)) }
    ensures none { IfNone result ((l : ChunkLine) → ReadsChunkLine text.now l [] → ⊥) }
{
    match parse_chunk_size(text) {
        Ok(Status::Complete((len, size))) => { if len == text.len() { Some(size) } else { None } }
        _ => None,
    }
}
