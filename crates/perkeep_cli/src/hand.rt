//! The time and the random bytes of the system. Both count their failures, and neither tells what its next call gives.
ghost use Rattle.std.specs.Prelude.{◌≡◌, ◌↔◌, IsSome, IfSome, None, pos};
ghost use Rattle.std.specs.Duration.{as_nanos};
ghost use Rattle.edge_base.specs.Moments.{IsMoment};

use edge_base::{Clock, Dice, Failed};
use edge_os::again::uninterrupted;
use edge_os::counted;
use std::io;
use std::random::RandomSource;
use std::time::{Duration, SystemTime, UNIX_EPOCH};

// The last nanosecond of the year 9999, from 1970-01-01T00:00:00Z on.
const MAX_TIME: i128 = 253_402_300_799_999_999_999;

/// The system's clock. A time before 1970 or after 9999 is a failure, and so is one that can't be told.
#[derive(Drop)]
pub(crate) struct SystemClock<'a> {
    rt: &'a HostRuntime,
    faults: u64,
}

impl<'a> SystemClock<'a> {
    pub(crate) fn new(rt: &'a HostRuntime) -> SystemClock<'a> {
        SystemClock { rt, faults: 0 }
    }
}

impl<'a> Clock for SystemClock<'a> {
    ghost faults = { λ clock. clock.faults };

    ghost time = { λ clock. None };

    fn now(&mut self) -> Result<i128, Failed> {
        counted(time(self.rt).ok_or(Failed), &mut self.faults)
    }

    fn faults(&self) -> u64 {
        self.faults
    }
}

// The system's time, where it is a moment.
fn time(rt: &HostRuntime) -> Option<i128>
    ensures range { IfSome result IsMoment }
{
    let time = SystemTime::now(rt).ok()?;
    moment_after(time.duration_since(UNIX_EPOCH).ok()?)
}

// The moment so long after 1970-01-01T00:00:00Z, where it is one.
fn moment_after(duration: Duration) -> Option<i128>
    ensures variant { IsSome result ↔ IsMoment (pos (as_nanos duration)) }
    ensures some { IfSome result (λ time. time ≡ pos (as_nanos duration)) }
{
    let time = i128::try_from(duration.as_nanos()).ok()?;
    if time <= MAX_TIME { Some(time) } else { None }
}

/// The random bytes of the system's generator.
#[derive(Drop)]
pub(crate) struct SystemDice<'a> {
    rt: &'a HostRuntime,
    faults: u64,
}

impl<'a> SystemDice<'a> {
    pub(crate) fn new(rt: &'a HostRuntime) -> SystemDice<'a> {
        SystemDice { rt, faults: 0 }
    }
}

impl<'a> Dice for SystemDice<'a> {
    ghost faults = { λ dice. dice.faults };

    ghost random = { λ dice. None };

    fn sixteen(&mut self) -> Result<[u8; 16], Failed> {
        counted(uninterrupted(|| random(self.rt)), &mut self.faults)
    }

    fn faults(&self) -> u64 {
        self.faults
    }
}

// The next random bytes. They are all there, or the call has failed.
fn random(rt: &HostRuntime) -> io::Result<[u8; 16]> {
    let mut bytes = [0; 16];
    rt.fill_bytes(&mut bytes)?;
    Ok(bytes)
}
