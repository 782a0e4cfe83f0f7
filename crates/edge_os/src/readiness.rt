//! What a person at a terminal is told of a server.
use crate::screen::Screen;
use std::sync::atomic::{AtomicBool, Ordering};

/// Tells a person once that a server accepts connections on a port.
#[derive(Drop)]
pub struct Readiness<'a> {
    screen: &'a Screen<'a>,
    port: u16,
    was_told: AtomicBool,
}

impl<'a> Readiness<'a> {
    /// Nothing was told so far.
    pub fn new(screen: &'a Screen<'a>, port: u16) -> Readiness<'a> {
        Readiness {
            screen,
            port,
            was_told: AtomicBool::new(false),
        }
    }

    /// Tells it, unless that was done.
    pub fn tell(&self) {
        if !self.was_told.swap(true, Ordering::Relaxed) {
            self.screen.tell(format_args!("perkeep: listening on http://127.0.0.1:{}", self.port));
        }
    }
}
