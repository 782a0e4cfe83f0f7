//! When indexers pause.

use index_worker::{Gate, GatePlace};
use std::sync::Wait;
use std::sync::atomic::{AtomicU64, Ordering};
use std::thread;
use std::time::Duration;

// How many milliseconds an indexer pauses where nothing waits to be indexed, and where its step failed.
const IDLE_PAUSE: u64 = 10;

const FAULT_PAUSE: u64 = 100;

// How many pauses an indexer makes at most while blobs go on to come: a quarter of a second.
const MAX_PAUSES: u32 = 25;

// How many steps an indexer makes before it looks whether blobs come meanwhile, and how many make it give way to
// uploads.
const STEPS: u32 = 64;

const MANY: u64 = 8;

/// The gate of an indexer: it pauses where there is nothing to do, and gives way to uploads.
#[derive(Clone, Copy)]
pub(crate) struct Pauses<'a> {
    rt: &'a HostRuntime,
    // How often something was appended to a pack, and how often it had been at the last look.
    appends: &'a AtomicU64,
    seen: u64,
    // Steps since that look.
    steps: u32,
}

impl<'a> Pauses<'a> {
    /// The gate before the first step, over a count of what was appended to packs.
    pub(crate) fn new(rt: &'a HostRuntime, appends: &'a AtomicU64) -> Pauses<'a> {
        Pauses {
            rt,
            appends,
            seen: 0,
            steps: 0,
        }
    }

    fn pause(&self, milliseconds: u64) {
        thread::sleep(self.rt, Duration::from_millis(milliseconds));
    }

    // How many blobs came since the last look.
    fn look(&mut self) -> u64 {
        let before = self.seen;
        self.seen = self.appends.load(Ordering::Relaxed);
        self.steps = 0;
        self.seen.saturating_sub(before)
    }

    // Pauses once, and then on while blobs come.
    fn give_way(&mut self) {
        self.look();
        'pauses: for _ in 0..MAX_PAUSES {
            self.pause(IDLE_PAUSE);
            if self.look() == 0 {
                return;
            }
        }
    }

    // Counts a step. Behind some of them it gives way, where many blobs came meanwhile.
    fn step(&mut self) {
        self.steps = self.steps.saturating_add(1);
        if self.steps >= STEPS && self.look() >= MANY {
            self.give_way();
        }
    }
}

impl<'a> Gate for Pauses<'a> {
    ghost tells = { λ gate asked. Unit {0} };

    fn wait_at<R: Wait>(&mut self, _rt: &R, place: GatePlace) {
        match place {
            GatePlace::Before => {}
            GatePlace::After => self.step(),
            GatePlace::Idle => self.give_way(),
            GatePlace::Fault => self.pause(FAULT_PAUSE),
        }
    }
}
