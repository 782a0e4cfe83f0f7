//! What a listener promises: connections and failures are counted.
ghost use Rattle.std.specs.Prelude.{◌≡◌, ℕ};
ghost use Rattle.edge_base.specs.Edge.{HasCause};
ghost use Rattle.edge_listen.specs.Listening.{Accepts};

use edge_base::{Failed, Sink, Source};
use std::sync::Wait;

/// Where connections come from. A connection is a source of what its other end says, and a sink of what it is told.
pub trait Listener {
    /// What the other end says.
    type In: Source + Drop;

    /// What it is told.
    type Out: Sink + Drop;

    /// How many connections it has given.
    ghost accepted: { Self → ℕ };

    /// How often it has failed.
    ghost faults: { Self → ℕ };

    /// The next connection. It may wait for one. After a failure none was given.
    fn accept<R: Wait>(&mut self, rt: &R) -> Result<(Self::In, Self::Out), Failed>
        ensures counted { Accepts (accepted self.old) (accepted self.new) result }
        ensures cause { HasCause (faults self.old) (faults self.new) result };

    /// How many connections it has given. A count at the last value of its type stays there.
    fn accepted(&self) -> u64
        ensures { result ≡ accepted self.now };

    /// How often it has failed. A count at the last value of its type stays there.
    fn faults(&self) -> u64
        ensures { result ≡ faults self.now };
}
