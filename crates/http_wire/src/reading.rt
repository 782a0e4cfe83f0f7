//! Reading a body from any place in it.
ghost use Rattle.std.specs.Prelude.{◌≡◌, ◌<◌, ◌≤◌, ◌⊎◌, [], length, take, Ok, IfOk, IfErr, IfSome, OnOk, OnErr};
ghost use Rattle.std.specs.Prelude.{IsErrOf};
ghost use Rattle.edge_base.specs.Edge.{FaultsRose};
ghost use Rattle.http_wire.specs.Stream.{stream, Passed};
ghost use Rattle.http_wire.specs.Bodies.{Moves, BodyRun, EndsEarly, StopSpec, IsPastEnd, IsPastLine, IsReady, given_by};

use crate::ahead::ReadAhead;
use crate::body::Body;
use crate::chunk_end::take_end;
use crate::chunks::take_line;
use crate::content::{take_content, take_rest};
use crate::stop::Stop;
use crate::trailers::take_trailers;
use edge_base::Source;

/// The next bytes of a body, into the front of the buffer, and how many: none for a buffer that isn't empty is its end.
pub fn read_body<S: Source>(
    ahead: &mut ReadAhead,
    source: &mut S,
    body: &mut Body,
    buf: &mut [u8],
) -> Result<usize, Stop>
    ensures moved { Moves
        (S.left source.old) (S.left source.new) ahead.old ahead.new body.old body.new (given_by result buf.new) }
    ensures bound { IfOk result (λ n. n ≤ length buf.old) }
    ensures end { IfOk result (λ n. n ≡ 0 → 0 < length buf.old → body.new ≡ Body.Done) }
    ensures whole { body.old ≡ Body.Exactly 0 → (ahead.new ≡ ahead.old) × (source.new ≡ source.old) }
    ensures done { body.old ≡ Body.Done → (ahead.new ≡ ahead.old) × (source.new ≡ source.old) }
    ensures err { IfErr result (λ stop. StopSpec (stream ahead.new.bytes (S.left source.new)) body.new stop) }
    ensures to_end { body.old ≡ Body.ToEnd → OnErr result (IsErrOf result Stop.Failed) }
    ensures stays { body.old ≡ Body.ToEnd → (body.new ≡ Body.ToEnd) ⊎ (body.new ≡ Body.Done) }
    ensures ended { body.old ≡ Body.ToEnd → body.new ≡ Body.Done
        → IfSome (stream ahead.new.bytes (S.left source.new)) (λ x. x ≡ []) }
    ensures short { IsErrOf result Stop.Failed → EndsEarly body.new ahead.new.bytes }
    ensures fault { IsErrOf result Stop.Failed → FaultsRose (S.faults source.old) (S.faults source.new) }
    ensures later { S.faults source.old ≤ S.faults source.new }
{
    match get_ready(ahead, source, body) {
        Ok(()) => give(ahead, source, body, buf),
        Err(stop) => Err(stop),
    }
}

// Passes what stands before the next bytes of the body.
fn get_ready<S: Source>(ahead: &mut ReadAhead, source: &mut S, body: &mut Body) -> Result<(), Stop>
    ensures moved { Moves (S.left source.old) (S.left source.new) ahead.old ahead.new body.old body.new [] }
    ensures past { OnOk result (IsReady body.new) }
    ensures stays { body.old ≡ Body.ToEnd → (result ≡ Ok tt) × (body.new ≡ Body.ToEnd) }
    ensures done { body.old ≡ Body.Done → (result ≡ Ok tt) × (body.new ≡ Body.Done)
        × (ahead.new ≡ ahead.old) × (source.new ≡ source.old) }
    ensures whole { body.old ≡ Body.Exactly 0 → (result ≡ Ok tt) × (body.new ≡ Body.Exactly 0)
        × (ahead.new ≡ ahead.old) × (source.new ≡ source.old) }
    ensures err { IfErr result (λ stop. StopSpec (stream ahead.new.bytes (S.left source.new)) body.new stop) }
    ensures short { IsErrOf result Stop.Failed → EndsEarly body.new ahead.new.bytes }
    ensures fault { IsErrOf result Stop.Failed → FaultsRose (S.faults source.old) (S.faults source.new) }
    ensures later { S.faults source.old ≤ S.faults source.new }
{
    pass_end(ahead, source, body)?;
    pass_line(ahead, source, body)?;
    pass_trailers(ahead, source, body)?;
    Ok(())
}

// Passes the end of a chunk, where it stands there.
fn pass_end<S: Source>(ahead: &mut ReadAhead, source: &mut S, body: &mut Body) -> Result<(), Stop>
    ensures moved { Moves (S.left source.old) (S.left source.new) ahead.old ahead.new body.old body.new [] }
    ensures past { OnOk result (IsPastEnd body.new) }
    ensures stays { body.old ≡ Body.ToEnd → (result ≡ Ok tt) × (body.new ≡ Body.ToEnd) }
    ensures done { body.old ≡ Body.Done → (result ≡ Ok tt) × (body.new ≡ Body.Done)
        × (ahead.new ≡ ahead.old) × (source.new ≡ source.old) }
    ensures whole { body.old ≡ Body.Exactly 0 → (result ≡ Ok tt) × (body.new ≡ Body.Exactly 0)
        × (ahead.new ≡ ahead.old) × (source.new ≡ source.old) }
    ensures err { IfErr result (λ stop. StopSpec (stream ahead.new.bytes (S.left source.new)) body.new stop) }
    ensures short { IsErrOf result Stop.Failed → EndsEarly body.new ahead.new.bytes }
    ensures fault { IsErrOf result Stop.Failed → FaultsRose (S.faults source.old) (S.faults source.new) }
    ensures later { S.faults source.old ≤ S.faults source.new }
{
    match *body {
        Body::Chunk(left) => {
            if left != 0 {
                return Ok(());
            }
            take_end(ahead, source)?;
            *body = Body::ChunkLine;
            Ok(())
        }
        _ => Ok(()),
    }
}

// Passes a chunk line, where it stands there.
fn pass_line<S: Source>(ahead: &mut ReadAhead, source: &mut S, body: &mut Body) -> Result<(), Stop>
    requires { IsPastEnd body.old }
    ensures moved { Moves (S.left source.old) (S.left source.new) ahead.old ahead.new body.old body.new [] }
    ensures past { OnOk result (IsPastLine body.new) }
    ensures stays { body.old ≡ Body.ToEnd → (result ≡ Ok tt) × (body.new ≡ Body.ToEnd) }
    ensures done { body.old ≡ Body.Done → (result ≡ Ok tt) × (body.new ≡ Body.Done)
        × (ahead.new ≡ ahead.old) × (source.new ≡ source.old) }
    ensures whole { body.old ≡ Body.Exactly 0 → (result ≡ Ok tt) × (body.new ≡ Body.Exactly 0)
        × (ahead.new ≡ ahead.old) × (source.new ≡ source.old) }
    ensures err { IfErr result (λ stop. StopSpec (stream ahead.new.bytes (S.left source.new)) body.new stop) }
    ensures short { IsErrOf result Stop.Failed → EndsEarly body.new ahead.new.bytes }
    ensures fault { IsErrOf result Stop.Failed → FaultsRose (S.faults source.old) (S.faults source.new) }
    ensures later { S.faults source.old ≤ S.faults source.new }
{
    match *body {
        Body::ChunkLine => {
            let size = take_line(ahead, source)?;
            *body = behind_line(size);
            Ok(())
        }
        _ => Ok(()),
    }
}

// What stands behind a chunk line.
fn behind_line(size: u64) -> Body
    ensures last { size ≡ 0 → result ≡ Body.Trailers }
    ensures more { 0 < size → result ≡ Body.Chunk size }
{
    if size == 0 {
        Body::Trailers
    } else {
        Body::Chunk(size)
    }
}

// Passes the trailers, where they stand there.
fn pass_trailers<S: Source>(
    ahead: &mut ReadAhead,
    source: &mut S,
    body: &mut Body,
) -> Result<(), Stop>
    requires { IsPastLine body.old }
    ensures moved { Moves (S.left source.old) (S.left source.new) ahead.old ahead.new body.old body.new [] }
    ensures past { OnOk result (IsReady body.new) }
    ensures stays { body.old ≡ Body.ToEnd → (result ≡ Ok tt) × (body.new ≡ Body.ToEnd) }
    ensures done { body.old ≡ Body.Done → (result ≡ Ok tt) × (body.new ≡ Body.Done)
        × (ahead.new ≡ ahead.old) × (source.new ≡ source.old) }
    ensures whole { body.old ≡ Body.Exactly 0 → (result ≡ Ok tt) × (body.new ≡ Body.Exactly 0)
        × (ahead.new ≡ ahead.old) × (source.new ≡ source.old) }
    ensures err { IfErr result (λ stop. StopSpec (stream ahead.new.bytes (S.left source.new)) body.new stop) }
    ensures short { IsErrOf result Stop.Failed → EndsEarly body.new ahead.new.bytes }
    ensures fault { IsErrOf result Stop.Failed → FaultsRose (S.faults source.old) (S.faults source.new) }
    ensures later { S.faults source.old ≤ S.faults source.new }
{
    match *body {
        Body::Trailers => {
            take_trailers(ahead, source)?;
            *body = Body::Done;
            Ok(())
        }
        _ => Ok(()),
    }
}

// The next bytes of a body that stand there, or its end.
fn give<S: Source>(
    ahead: &mut ReadAhead,
    source: &mut S,
    body: &mut Body,
    buf: &mut [u8],
) -> Result<usize, Stop>
    requires { IsReady body.old }
    ensures moved { Moves
        (S.left source.old) (S.left source.new) ahead.old ahead.new body.old body.new (given_by result buf.new) }
    ensures bound { IfOk result (λ n. n ≤ length buf.old) }
    ensures end { IfOk result (λ n. n ≡ 0 → 0 < length buf.old → body.new ≡ Body.Done) }
    ensures whole { body.old ≡ Body.Exactly 0 → (ahead.new ≡ ahead.old) × (source.new ≡ source.old) }
    ensures done { body.old ≡ Body.Done → (ahead.new ≡ ahead.old) × (source.new ≡ source.old) }
    ensures err { IfErr result (λ stop. StopSpec (stream ahead.new.bytes (S.left source.new)) body.new stop) }
    ensures to_end { body.old ≡ Body.ToEnd → OnErr result (IsErrOf result Stop.Failed) }
    ensures stays { body.old ≡ Body.ToEnd → (body.new ≡ Body.ToEnd) ⊎ (body.new ≡ Body.Done) }
    ensures ended { body.old ≡ Body.ToEnd → body.new ≡ Body.Done
        → IfSome (stream ahead.new.bytes (S.left source.new)) (λ x. x ≡ []) }
    ensures short { IsErrOf result Stop.Failed → EndsEarly body.new ahead.new.bytes }
    ensures fault { IsErrOf result Stop.Failed → FaultsRose (S.faults source.old) (S.faults source.new) }
    ensures later { S.faults source.old ≤ S.faults source.new }
{
    match *body {
        Body::Done => Ok(0),
        Body::Exactly(left) => {
            if left == 0 {
                *body = Body::Done;
                return Ok(0);
            }
            let n = take_content(ahead, source, buf, left)?;
            *body = Body::Exactly(left - n as u64);
            Ok(n)
        }
        Body::Chunk(left) => {
            let n = take_content(ahead, source, buf, left)?;
            *body = Body::Chunk(left - n as u64);
            Ok(n)
        }
        Body::ToEnd => {
            let n = take_rest(ahead, source, buf)?;
            if n == 0 && !buf.is_empty() {
                *body = Body::Done;
            }
            Ok(n)
        }
        Body::ChunkLine | Body::Trailers => unreachable!(),
    }
}
