//! The trailers of a chunked body.
ghost use Rattle.std.specs.Prelude.{◌≡◌, ◌<◌, ◌≤◌, ℕ, [], List, length, IfSome, IsTrue, IsFalse, OnOk, OnErr, IsErrOf};
ghost use Rattle.edge_base.specs.Edge.{FaultsRose};
ghost use Rattle.httparse.specs.Grammar.{Field, LineEnd, ReadsSection};
ghost use Rattle.http_wire.specs.Stream.{stream, Passed};
ghost use Rattle.http_wire.specs.Bodies.{IsTrailers, EndsEarly, IsMalformed};
ghost use Rattle.http_wire.specs.declared.body.Body.TheVariants as body;

use crate::ahead::ReadAhead;
use crate::filling::fill;
use crate::line_state::LineState;
use crate::stop::{Stop, stop_of};
use edge_base::Source;
use httparse::Status;
use httparse::spans::{EMPTY_HEADER_SPAN, parse_headers};

/// Takes the trailers, which are dropped.
pub fn take_trailers<S: Source>(ahead: &mut ReadAhead, source: &mut S) -> Result<(), Stop>
    ensures ok { OnOk result ((text : List ℕ)
        × Passed (S.left source.old) (S.left source.new) ahead.old ahead.new text × IsTrailers text) }
    ensures err { OnErr result (Passed (S.left source.old) (S.left source.new) ahead.old ahead.new []) }
    ensures cut { IsErrOf result Stop.Cut → IfSome (stream ahead.new.bytes (S.left source.new)) (EndsEarly body.Trailers) }
    ensures broken { IsErrOf result Stop.Broken
        → IfSome (stream ahead.new.bytes (S.left source.new)) (IsMalformed body.Trailers) }
    ensures short { IsErrOf result Stop.Failed → EndsEarly body.Trailers ahead.new.bytes }
    ensures fault { IsErrOf result Stop.Failed → FaultsRose (S.faults source.old) (S.faults source.new) }
    ensures later { S.faults source.old ≤ S.faults source.new }
{
    let n = match fill(ahead, source, LineState::Next, 16_384) {
        Ok(n) => n,
        Err(missed) => return Err(stop_of(missed)),
    };
    if !is_section(&ahead.as_slice()[..n]) {
        return Err(Stop::Broken);
    }
    ahead.pass(n);
    Ok(())
}

// Whether the text is some header lines, at most 64, and their empty line.
fn is_section(text: &[u8]) -> bool
    ensures yes { IsTrue result → (fields : List Field) × (last : LineEnd) × ReadsSection text.now fields last []
        × (length fields ≤ 64) }
    ensures no { IsFalse result → (fields : List Field) (last : LineEnd) → ReadsSection text.now fields last []
        → 64 < length fields }
{
    let mut headers = [EMPTY_HEADER_SPAN; 64];
    match parse_headers(text, &mut headers) {
        Ok(Status::Complete((len, _count))) => len == text.len(),
        _ => false,
    }
}
