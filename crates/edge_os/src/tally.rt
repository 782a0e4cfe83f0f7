//! How many bytes of a standard stream went by, for a person at a terminal.
use crate::screen::{Pace, Screen};
use std::io;

// How many seconds a stream is read or written before anything is shown of it.
const SOON: u64 = 2;

/// How many bytes went by so far. From two seconds after the first ones on that is shown once a second, on the passing
/// line of the screen.
#[derive(Drop)]
pub(crate) struct Tally<'a> {
    screen: &'a Screen<'a>,
    pace: Pace<'a>,
    // What is done to the bytes, and whether that is shown.
    verb: &'static str,
    is_shown: bool,
    bytes: u64,
}

impl<'a> Tally<'a> {
    /// Nothing went by so far.
    pub(crate) fn new(screen: &'a Screen<'a>, verb: &'static str, is_shown: bool) -> Tally<'a> {
        Tally {
            screen,
            pace: Pace::new(screen, SOON),
            verb,
            is_shown,
            bytes: 0,
        }
    }

    /// How many bytes went by so far.
    pub(crate) fn bytes(&self) -> u64 {
        self.bytes
    }

    /// So many bytes more went by, where the call has given a number.
    pub(crate) fn add(&mut self, done: &io::Result<usize>) {
        let Ok(count) = done else {
            return;
        };
        self.bytes = self.bytes.saturating_add(*count as u64);
        if self.is_shown && self.pace.is_due() {
            self.screen.pass(format_args!(
                "perkeep: {} {} MB so far",
                self.verb,
                self.bytes / 1_000_000
            ));
        }
    }
}
