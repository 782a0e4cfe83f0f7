//! What a run is handed beside the disk and the peer.

use crate::failing::{Failing, Object};
use blobref::{NoMemory, Octets};
use edge_base::{Clock, Dice, MemClock, MemDice, MemSink, MemSource, Sink, Source};
use std::alloc::Global;

// 2020-01-02T00:00:00Z.
const TIME: i128 = 1_577_923_200_000_000_000;

const RANDOM: [u8; 16] = [
    0x00, 0x11, 0x22, 0x33, 0x44, 0x55, 0x66, 0x77, 0x88, 0x99, 0xaa, 0xbb, 0xcc, 0xdd, 0xee, 0xff,
];

/// What a run reads and writes, the time, and random bytes.
#[derive(Drop)]
pub(crate) struct Hand {
    pub(crate) source: MemSource,
    pub(crate) sink: MemSink,
    pub(crate) clock: MemClock,
    pub(crate) dice: MemDice,
}

impl Hand {
    /// A source of these bytes and an empty sink, which fail so, as do clock and dice.
    pub(crate) fn of(alloc: Global, input: &[u8], failing: Failing) -> Result<Hand, NoMemory> {
        Ok(Hand {
            source: source_of(alloc, input, failing)?,
            sink: sink_of(alloc, failing)?,
            clock: MemClock::of(TIME, failing.calls(alloc, Object::Clock, 0)?),
            dice: MemDice::of(RANDOM, failing.calls(alloc, Object::Dice, 0)?),
        })
    }

    /// Whether a call failed.
    pub(crate) fn has_failed(&self) -> bool {
        self.source.faults() > 0
            || self.sink.faults() > 0
            || self.clock.faults() > 0
            || self.dice.faults() > 0
    }
}

/// A source of these bytes.
pub(crate) fn source_of(
    alloc: Global,
    input: &[u8],
    failing: Failing,
) -> Result<MemSource, NoMemory> {
    let calls = failing.calls(alloc, Object::Source, 0)?;
    Ok(MemSource::of(Octets::copy(alloc, input)?, calls))
}

/// A sink of nothing.
pub(crate) fn sink_of(alloc: Global, failing: Failing) -> Result<MemSink, NoMemory> {
    let calls = failing.calls(alloc, Object::Sink, 0)?;
    Ok(MemSink::empty(alloc, calls))
}
