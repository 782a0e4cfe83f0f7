//! A listener in memory, whose calls fail by a list.
ghost use Rattle.std.specs.Prelude.{◌≡◌};
ghost use Rattle.edge_base.specs.Calls.{no_calls};
ghost use Rattle.edge_base.specs.Edge.{HasCause};
ghost use Rattle.edge_listen.specs.Listening.{Accepts, AcceptsNext};

use crate::listener::Listener;
use edge_base::{CallList, Calls, Failed, Sink, Source};
use std::alloc::Global;
use std::collections::VecDeque;
use std::marker::Model;
use std::sync::Wait;

/// Connections that wait in memory. A contract sees those that are still to be given, how many were given, and the
/// calls.
#[derive(Drop)]
pub struct MemListener<S, K> {
    waiting: VecDeque<(S, K)>,
    given: u64,
    calls: Calls,
}

impl<S, K> Model for MemListener<S, K> {
    ghost use Rattle.edge_listen.specs.Listening.{Queue};

    ghost Value = { Queue (S × K) };

    ghost view = { λ l. record { waiting = l.waiting.items; accepted = l.given; calls = l.calls } };
}

impl<S, K> MemListener<S, K> {
    /// A listener that gives these connections, in their order. Its calls whose numbers are in the list fail.
    pub fn of(connections: VecDeque<(S, K)>, fails: CallList) -> MemListener<S, K>
        ensures { result ≡ record { waiting = connections.items; accepted = 0; calls = no_calls fails None } }
    {
        MemListener {
            waiting: connections,
            given: 0,
            calls: Calls::of(fails, None),
        }
    }
}

impl<S: Source + Drop, K: Sink + Drop> Listener for MemListener<S, K> {
    type In = S;

    type Out = K;

    ghost accepted = { λ l. l.accepted };

    ghost faults = { λ l. l.calls.faults };

    /// Gives the first connection that waits, unless none does, or the call is one of those that are to fail. It never
    /// waits.
    fn accept<R: Wait>(&mut self, rt: &R) -> Result<(S, K), Failed>
        ensures counted { Accepts self.old.accepted self.new.accepted result }
        ensures cause { HasCause self.old.calls.faults self.new.calls.faults result }

        ensures next { AcceptsNext self.old self.new result }
    {
        self.calls.begin()?;
        match self.waiting.pop_front() {
            Some(connection) => {
                self.given = self.given.saturating_add(1);
                Ok(connection)
            }
            None => {
                self.calls.fail();
                Err(Failed)
            }
        }
    }

    fn accepted(&self) -> u64 {
        self.given
    }

    fn faults(&self) -> u64 {
        self.calls.faults()
    }
}
