//! Runs of zeros.
ghost use Rattle.std.specs.Prelude.{◌≡◌, ◌<◌, ◌≤◌, length, replicate, OnOk, IfOk};
ghost use Rattle.edge_base.specs.Edge.{HasCause, SinkTook, SinkTookFront};
ghost use Rattle.file_tree.specs.Reading.{AreZeros};

use edge_base::{Failed, Sink, write_all};
use std::alloc::{AllocError, Global};

/// The most zeros that one piece has.
const PIECE: u64 = 65_536;

// Zeros, at most as many as one piece has.
pub(crate) fn zeros(alloc: Global, count: u64) -> Result<Vec<u8>, AllocError>
    ensures zeros { IfOk result (λ zeros. AreZeros zeros.items) }
    ensures some { IfOk result (λ zeros. 0 < count → 0 < length zeros.items) }
{
    zeros_of(alloc, count.min(PIECE) as usize)
}

fn zeros_of(alloc: Global, len: usize) -> Result<Vec<u8>, AllocError>
    ensures zeros { IfOk result (λ zeros. AreZeros zeros.items) }
    ensures len { IfOk result (λ zeros. length zeros.items ≡ len) }
{
    vec![in alloc; 0; len]
}

/// Writes so many zeros, in pieces that are fronts of these.
pub(crate) fn write_zeros<K: Sink>(sink: &mut K, zeros: &[u8], count: u64) -> Result<(), Failed>
    requires zeros { AreZeros zeros.now }
    requires some { 0 < count → 0 < length zeros.now }
    ensures whole { OnOk result (SinkTook (K.written sink.old) (K.written sink.new) (replicate count 0)) }
    ensures front { SinkTookFront (K.written sink.old) (K.written sink.new) (replicate count 0) }
    ensures cause { HasCause (K.faults sink.old) (K.faults sink.new) result }
{
    let mut left = count;
    'pieces: while left > 0 {
        let n = left.min(zeros.len() as u64);
        let piece = front_of(zeros, n as usize);
        write_all(sink, piece)?;
        left -= n;
    }
    Ok(())
}

// So many of the zeros.
fn front_of(zeros: &[u8], n: usize) -> &[u8]
    requires zeros { AreZeros zeros.now }
    requires within { n ≤ length zeros.now }
    ensures { result.now ≡ replicate n 0 }
{
    let (front, _) = zeros.split_at(n);
    front
}
