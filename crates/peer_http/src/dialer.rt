//! Where connections to a peer come from.
ghost use Rattle.std.specs.Prelude.{◌≡◌, [], Result, IfOk, IfSome};
ghost use Rattle.blobref.specs.declared.memory.NoMemory.{NoMemory};

use blobref::NoMemory;
use edge_base::{Sink, Source};

/// Gives the ends of connections to one peer: a source of what the peer answers, and a sink of what it is asked. Both
/// may stand for several connections, one after the other; how they are made is the dialer's affair.
pub trait Dialer {
    /// What the peer answers.
    type In: Source + Drop;

    /// What the peer is asked.
    type Out: Sink + Drop;

    /// What a call of `ends` is: the dialer before, what was given, and the dialer after.
    ghost gives: { Self → Result (Self.In × Self.Out) NoMemory → Self → Type 0 };

    /// New ends, over which the peer was asked nothing so far. It fails for want of memory alone.
    fn ends(&mut self) -> Result<(Self::In, Self::Out), NoMemory>
        ensures unasked { IfOk result (λ ends. IfSome (Self.Out.written ends.1) (λ bytes. bytes ≡ [])) }
        ensures is { gives self.old result self.new };
}
