//! The two ends of a connection, in memory, a listener, and a gate. They wait for what another connection was told.
ghost use Rattle.std.specs.Prelude.{◌≡◌, ◌≤◌, length, None, IfOk};

use blobref::Octets;
use edge_base::{CallList, Failed, MemSource, Sink, Source};
use edge_listen::{Listener, MemListener};
use index_worker::{Gate, GatePlace};
use std::alloc::Global;
use std::sync::Wait;
use std::sync::atomic::{AtomicBool, AtomicU64, Ordering};
use std::thread;

/// How often a wait looks before it gives up.
const LOOKS: u64 = 20_000_000;

// Waits until a number is at least so much. It says whether it became that in time.
fn comes(number: &AtomicU64, least: u64) -> bool {
    for _ in 0..LOOKS {
        if least <= number.load(Ordering::SeqCst) {
            return true;
        }
        thread::yield_now();
    }
    false
}

/// What the other end says, in two parts. The second is held until a number is at least so much, and if it doesn't
/// become that in time the read fails.
#[derive(Drop)]
pub(crate) struct HeldSource<'a> {
    first: MemSource,
    held: MemSource,
    until: &'a AtomicU64,
    least: u64,
    faults: u64,
}

impl<'a> HeldSource<'a> {
    pub(crate) fn of(
        alloc: Global,
        first: Octets,
        held: Octets,
        until: &'a AtomicU64,
        least: u64,
    ) -> HeldSource<'a> {
        HeldSource {
            first: MemSource::of(first, CallList::empty(alloc)),
            held: MemSource::of(held, CallList::empty(alloc)),
            until,
            least,
            faults: 0,
        }
    }

    // The next bytes.
    fn next(&mut self, buf: &mut [u8]) -> Result<usize, Failed>
        ensures bound { IfOk result (λ n. n ≤ length buf.old) }
        ensures same { self.new.faults ≡ self.old.faults }
    {
        let n = self.first.read(buf)?;
        if 0 < n {
            return Ok(n);
        }
        if !comes(self.until, self.least) {
            return Err(Failed);
        }
        self.held.read(buf)
    }
}

impl<'a> Source for HeldSource<'a> {
    ghost left = { λ s. None };

    ghost faults = { λ s. s.faults };

    fn read(&mut self, buf: &mut [u8]) -> Result<usize, Failed> {
        let got = self.next(buf);
        if got.is_err() {
            self.faults = self.faults.saturating_add(1);
        }
        got
    }

    fn faults(&self) -> u64 {
        self.faults
    }
}

/// What the other end is told, which is to be just these bytes. It counts those that were told so far; where others
/// are told it counts none any more, and fails.
#[derive(Drop)]
pub(crate) struct ToldSink<'a> {
    wanted: &'a [u8],
    told: &'a AtomicU64,
    faults: u64,
}

impl<'a> ToldSink<'a> {
    pub(crate) fn of(wanted: &'a [u8], told: &'a AtomicU64) -> ToldSink<'a> {
        ToldSink {
            wanted,
            told,
            faults: 0,
        }
    }
}

impl<'a> Sink for ToldSink<'a> {
    ghost written = { λ s. None };

    ghost faults = { λ s. s.faults };

    fn write(&mut self, piece: &[u8]) -> Result<usize, Failed> {
        match self.wanted.strip_prefix(piece) {
            Some(rest) => {
                self.wanted = rest;
                self.told.fetch_add(piece.len() as u64, Ordering::SeqCst);
                Ok(piece.len())
            }
            None => {
                self.wanted = b"";
                self.told.store(0, Ordering::SeqCst);
                self.faults = self.faults.saturating_add(1);
                Err(Failed)
            }
        }
    }

    fn faults(&self) -> u64 {
        self.faults
    }
}

/// A listener in memory that adds its failures to a number.
#[derive(Drop)]
pub(crate) struct NotedListener<'a> {
    pub(crate) listener: MemListener<HeldSource<'a>, ToldSink<'a>>,
    pub(crate) failed: &'a AtomicU64,
}

impl<'a> Listener for NotedListener<'a> {
    type In = HeldSource<'a>;

    type Out = ToldSink<'a>;

    ghost accepted = { λ l. l.listener.accepted };

    ghost faults = { λ l. l.listener.calls.faults };

    fn accept<R: Wait>(&mut self, rt: &R) -> Result<(HeldSource<'a>, ToldSink<'a>), Failed> {
        let connection = self.listener.accept(rt);
        if connection.is_err() {
            self.failed.fetch_add(1, Ordering::SeqCst);
        }
        connection
    }

    fn accepted(&self) -> u64 {
        self.listener.accepted()
    }

    fn faults(&self) -> u64 {
        self.listener.faults()
    }
}

/// A gate that holds each worker ahead of its steps until a number is at least so much, and notes where it doesn't
/// become that in time.
#[derive(Clone, Copy)]
pub(crate) struct HeldGate<'a> {
    pub(crate) until: &'a AtomicU64,
    pub(crate) least: u64,
    pub(crate) late: &'a AtomicBool,
}

impl<'a> Gate for HeldGate<'a> {
    ghost tells = { λ gate asked. Unit {0} };

    fn wait_at<R: Wait>(&mut self, _rt: &R, place: GatePlace) {
        if place == GatePlace::Before && !comes(self.until, self.least) {
            self.late.store(true, Ordering::SeqCst);
        }
    }
}
