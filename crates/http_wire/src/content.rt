//! The bytes of a body.
ghost use Rattle.std.specs.Prelude.{◌≡◌, ◌<◌, ◌≤◌, [], length, min, take, IfOk, IfSome, OnErr, IsErrOf};
ghost use Rattle.edge_base.specs.Edge.{FaultsRose};
ghost use Rattle.http_wire.specs.Stream.{stream, Passed};

use crate::ahead::ReadAhead;
use crate::stop::Stop;
use edge_base::Source;

/// Takes bytes into the front of the buffer, and says how many: at least one where the buffer isn't empty, and at most
/// `most`.
pub fn take_content<S: Source>(
    ahead: &mut ReadAhead,
    source: &mut S,
    buf: &mut [u8],
    most: u64,
) -> Result<usize, Stop>
    requires { 0 < most }
    ensures ok { IfOk result
        (λ n. Passed (S.left source.old) (S.left source.new) ahead.old ahead.new (take n buf.new)) }
    ensures bound { IfOk result (λ n. (n ≤ length buf.old) × (n ≤ most)) }
    ensures some { IfOk result (λ n. 0 < length buf.old → 0 < n) }
    ensures err { OnErr result (Passed (S.left source.old) (S.left source.new) ahead.old ahead.new []) }
    ensures cut { IsErrOf result Stop.Cut → IfSome (stream ahead.new.bytes (S.left source.new)) (λ x. x ≡ []) }
    ensures whole { IsErrOf result Stop.Broken → ⊥ }
    ensures short { IsErrOf result Stop.Failed → ahead.new.bytes ≡ [] }
    ensures fault { IsErrOf result Stop.Failed → FaultsRose (S.faults source.old) (S.faults source.new) }
    ensures later { S.faults source.old ≤ S.faults source.new }
{
    let room = buf.len().min(most as usize);
    take_into(ahead, source, &mut buf[..room])
}

/// Takes bytes of what the source still has into the front of the buffer, and says how many: none for a buffer that
/// isn't empty is the source's end.
pub fn take_rest<S: Source>(
    ahead: &mut ReadAhead,
    source: &mut S,
    buf: &mut [u8],
) -> Result<usize, Stop>
    ensures ok { IfOk result
        (λ n. Passed (S.left source.old) (S.left source.new) ahead.old ahead.new (take n buf.new)) }
    ensures bound { IfOk result (λ n. n ≤ length buf.old) }
    ensures end { IfOk result (λ n. n ≡ 0 → 0 < length buf.old
        → IfSome (stream ahead.new.bytes (S.left source.new)) (λ x. x ≡ [])) }
    ensures err { OnErr result (Passed (S.left source.old) (S.left source.new) ahead.old ahead.new []) }
    ensures failed { OnErr result (IsErrOf result Stop.Failed) }
    ensures short { IsErrOf result Stop.Failed → ahead.new.bytes ≡ [] }
    ensures fault { IsErrOf result Stop.Failed → FaultsRose (S.faults source.old) (S.faults source.new) }
    ensures later { S.faults source.old ≤ S.faults source.new }
{
    match take_into(ahead, source, buf) {
        Ok(n) => Ok(n),
        Err(Stop::Cut) => Ok(0),
        Err(Stop::Broken) => unreachable!(),
        Err(Stop::Failed) => Err(Stop::Failed),
    }
}

// The same, as much as the buffer has room for.
fn take_into<S: Source>(
    ahead: &mut ReadAhead,
    source: &mut S,
    buf: &mut [u8],
) -> Result<usize, Stop>
    ensures ok { IfOk result
        (λ n. Passed (S.left source.old) (S.left source.new) ahead.old ahead.new (take n buf.new)) }
    ensures bound { IfOk result (λ n. n ≤ length buf.old) }
    ensures some { IfOk result (λ n. 0 < length buf.old → 0 < n) }
    ensures err { OnErr result (Passed (S.left source.old) (S.left source.new) ahead.old ahead.new []) }
    ensures cut { IsErrOf result Stop.Cut → IfSome (stream ahead.new.bytes (S.left source.new)) (λ x. x ≡ []) }
    ensures whole { IsErrOf result Stop.Broken → ⊥ }
    ensures short { IsErrOf result Stop.Failed → ahead.new.bytes ≡ [] }
    ensures fault { IsErrOf result Stop.Failed → FaultsRose (S.faults source.old) (S.faults source.new) }
    ensures later { S.faults source.old ≤ S.faults source.new }
{
    if ahead.len() == 0 {
        return read_on(ahead, source, buf);
    }
    let n = copy_front(ahead.as_slice(), buf);
    ahead.pass(n);
    Ok(n)
}

// Copies as much as both have room for, and says how much.
fn copy_front(from: &[u8], to: &mut [u8]) -> usize
    ensures least { result ≡ min (length from.now) (length to.old) }
    ensures front { take result to.new ≡ take result from.now }
{
    let n = from.len().min(to.len());
    to[..n].copy_from_slice(&from[..n]);
    n
}

// The same where nothing was read ahead: the source reads into the buffer itself.
fn read_on<S: Source>(ahead: &mut ReadAhead, source: &mut S, buf: &mut [u8]) -> Result<usize, Stop>
    requires { ahead.old.bytes ≡ [] }
    ensures ok { IfOk result
        (λ n. Passed (S.left source.old) (S.left source.new) ahead.old ahead.new (take n buf.new)) }
    ensures bound { IfOk result (λ n. n ≤ length buf.old) }
    ensures some { IfOk result (λ n. 0 < length buf.old → 0 < n) }
    ensures err { OnErr result (Passed (S.left source.old) (S.left source.new) ahead.old ahead.new []) }
    ensures cut { IsErrOf result Stop.Cut → IfSome (stream ahead.new.bytes (S.left source.new)) (λ x. x ≡ []) }
    ensures whole { IsErrOf result Stop.Broken → ⊥ }
    ensures short { IsErrOf result Stop.Failed → ahead.new.bytes ≡ [] }
    ensures fault { IsErrOf result Stop.Failed → FaultsRose (S.faults source.old) (S.faults source.new) }
    ensures later { S.faults source.old ≤ S.faults source.new }
{
    let Ok(n) = source.read(buf) else {
        return Err(Stop::Failed);
    };
    if n == 0 && !buf.is_empty() {
        return Err(Stop::Cut);
    }
    ahead.count(n);
    Ok(n)
}
