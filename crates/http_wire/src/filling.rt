//! Reading on until some lines end.
ghost use Rattle.std.specs.Prelude.{◌≡◌, ◌<◌, ◌≤◌, ℕ, [], length, take, IfOk, IfSome, IsErrOf};
ghost use Rattle.edge_base.specs.Edge.{FaultsRose};
ghost use Rattle.http_wire.specs.Lines.{Reaches, Lacks};
ghost use Rattle.http_wire.specs.Stream.{stream, Fetched, AtEnd, Passed};

use crate::ahead::ReadAhead;
use crate::line_state::LineState;
use crate::scanning::{Scanned, scan};
use edge_base::Source;

/// Why the end of some lines wasn't reached.
#[derive(Clone, Copy, PartialEq, Eq)]
pub enum FillFault {
    /// It isn't within the limit.
    Long,
    /// The source ended before it.
    Ended,
    /// A read failed, and the end isn't within what was read before.
    Failed,
}

// The body doesn't need `fetched_twice`. With it a body that reads once more is refused for `short` and `ready` alone.
/// Reads on until the lines end, and says behind how many bytes. Nothing is taken from the stream.
#[tactic(auto, using(crate::proofs::Passing::none_passed, crate::proofs::Fetching::fetched_twice))]
pub fn fill<S: Source>(
    ahead: &mut ReadAhead,
    source: &mut S,
    place: LineState,
    limit: usize,
) -> Result<usize, FillFault>
    requires { limit ≤ 16384 }
    ensures same { Passed (S.left source.old) (S.left source.new) ahead.old ahead.new [] }
    ensures ready { (n : ℕ) → Reaches place limit ahead.old.bytes n → source.new ≡ source.old }
    ensures within { IfOk result (λ n. n ≤ length ahead.new.bytes) }
    ensures found { IfOk result (λ n. Reaches place limit (take n ahead.new.bytes) (length (take n ahead.new.bytes))) }
    ensures long { IsErrOf result FillFault.Long
        → IfSome (stream ahead.new.bytes (S.left source.new)) (λ x. (limit ≤ length x) × Lacks place limit x) }
    ensures ended { IsErrOf result FillFault.Ended
        → IfSome (stream ahead.new.bytes (S.left source.new)) (λ x. (length x < limit) × Lacks place limit x) }
    ensures end { IsErrOf result FillFault.Ended → AtEnd (S.left source.new) }
    ensures short { IsErrOf result FillFault.Failed
        → (length ahead.new.bytes < limit) × Lacks place limit ahead.new.bytes }
    ensures fault { IsErrOf result FillFault.Failed → FaultsRose (S.faults source.old) (S.faults source.new) }
    ensures later { S.faults source.old ≤ S.faults source.new }
{
    fill_on(ahead, source, place, limit)
}

// The same. Each byte is looked at once.
fn fill_on<S: Source>(
    ahead: &mut ReadAhead,
    source: &mut S,
    place: LineState,
    limit: usize,
) -> Result<usize, FillFault>
    requires { limit ≤ 16384 }
    ensures fetched { Fetched (S.left source.old) (S.left source.new) ahead.old.bytes ahead.new.bytes }
    ensures ready { (n : ℕ) → Reaches place limit ahead.old.bytes n → source.new ≡ source.old }
    ensures found { IfOk result (λ n. Reaches place limit ahead.new.bytes n) }
    ensures long { IsErrOf result FillFault.Long → Lacks place limit ahead.new.bytes
        × (limit ≤ length ahead.new.bytes) }
    ensures ended { IsErrOf result FillFault.Ended → Lacks place limit ahead.new.bytes
        × (length ahead.new.bytes < limit)
        × AtEnd (S.left source.new) }
    ensures short { IsErrOf result FillFault.Failed
        → (length ahead.new.bytes < limit) × Lacks place limit ahead.new.bytes }
    ensures fault { IsErrOf result FillFault.Failed → FaultsRose (S.faults source.old) (S.faults source.new) }
    ensures taken { ahead.new.taken ≡ ahead.old.taken }
    ensures later { S.faults source.old ≤ S.faults source.new }
{
    let mut at = place;
    let mut seen = 0;
    'reads: loop {
        let bytes = ahead.as_slice();
        let most = limit.min(bytes.len());
        match scan(at, &bytes[seen..most]) {
            Scanned::End(n) => return Ok(seen + n),
            Scanned::Open(next) => at = next,
        }
        seen = most;
        if seen == limit {
            return Err(FillFault::Long);
        }
        let Ok(n) = ahead.fetch(source) else {
            return Err(FillFault::Failed);
        };
        if n == 0 {
            return Err(FillFault::Ended);
        }
    }
}
