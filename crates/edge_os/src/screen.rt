//! The screen of a person: standard error, where that is a terminal.
use std::fmt::Display;
use std::io::IsTerminal;
use std::sync::atomic::{AtomicBool, Ordering};
use std::time::{Duration, Instant};

// How many seconds go by between two passing lines.
const PAUSE: u64 = 1;

/// What a person at a terminal is shown on standard error beside the program's own output: lines, and below them a
/// passing one, which is written over and cleared. Where standard error is no terminal nothing is shown, and where
/// something can't be written it is lost. Threads may share it.
#[derive(Drop)]
pub struct Screen<'a> {
    rt: &'a HostRuntime,
    is_shown: bool,
    // Whether a passing line stands there.
    has_passing: AtomicBool,
}

impl<'a> Screen<'a> {
    /// A screen on which nothing of the program's stands.
    pub fn new(rt: &'a HostRuntime) -> Screen<'a> {
        Screen {
            rt,
            is_shown: rt.stderr().is_terminal(),
            has_passing: AtomicBool::new(false),
        }
    }

    /// Whether anything is shown: standard error is a terminal.
    pub fn is_shown(&self) -> bool {
        self.is_shown
    }

    /// Writes a line; the passing one is cleared.
    pub fn tell<D: Display + Drop>(&self, line: D) {
        if self.is_shown {
            self.clear();
            let _ = self.rt.eprintln(line);
        }
    }

    /// Writes the passing line, in place of the one before.
    pub fn pass<D: Display + Drop>(&self, line: D) {
        if self.is_shown {
            self.has_passing.store(true, Ordering::Relaxed);
            let _ = self.rt.eprint(format_args!("\r\x1b[K"));
            let _ = self.rt.eprint(line);
        }
    }

    /// Clears the passing line, where one stands there.
    pub fn clear(&self) {
        if self.has_passing.swap(false, Ordering::Relaxed) {
            let _ = self.rt.eprint(format_args!("\r\x1b[K"));
        }
    }
}

/// When the next passing line is due, of work that takes long: once a second at most, from so many seconds after its
/// beginning on. Where nothing is shown the clock isn't read, and none is due.
#[derive(Drop)]
pub struct Pace<'a> {
    screen: &'a Screen<'a>,
    begun: Option<Instant>,
    // How many seconds after the beginning the next line is due.
    next: u64,
}

impl<'a> Pace<'a> {
    /// The pace of work that hasn't begun.
    pub fn new(screen: &'a Screen<'a>, soon: u64) -> Pace<'a> {
        Pace {
            screen,
            begun: None,
            next: soon,
        }
    }

    /// Whether a line is due. The work begins at the first call.
    pub fn is_due(&mut self) -> bool {
        if !self.screen.is_shown {
            return false;
        }
        let Some(begun) = self.begun else {
            self.begun = Instant::now(self.screen.rt).ok();
            return false;
        };
        let seconds = begun
            .elapsed(self.screen.rt)
            .unwrap_or(Duration::from_secs(0))
            .as_secs();
        if seconds < self.next {
            return false;
        }
        self.next = seconds.saturating_add(PAUSE);
        true
    }
}
