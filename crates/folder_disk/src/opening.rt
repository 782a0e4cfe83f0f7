//! How far the opening of a store is, for a person at a terminal.
use edge_os::{Pace, Screen};

// How many seconds an opening takes before anything is told of it.
const SOON: u64 = 2;

/// How much of the packs was read since the folder was listed. An opening reads each of them once; so long, and after
/// two seconds, that is shown once a second on the passing line of a screen, which is cleared in the end. Where nothing
/// is shown nothing is looked at.
#[derive(Drop)]
pub(crate) struct Opening<'a> {
    screen: &'a Screen<'a>,
    pace: Pace<'a>,
    // How many bytes there are to read, and how many were read. No opening goes on where they are as many.
    size: u64,
    read: u64,
}

impl<'a> Opening<'a> {
    /// Nothing is shown before it begins.
    pub(crate) fn new(screen: &'a Screen<'a>) -> Opening<'a> {
        Opening {
            screen,
            pace: Pace::new(screen, SOON),
            size: 0,
            read: 0,
        }
    }

    /// Whether anything would be shown.
    pub(crate) fn is_shown(&self) -> bool {
        self.screen.is_shown()
    }

    /// It begins, over so many bytes.
    pub(crate) fn begin(&mut self, size: u64) {
        self.size = size;
        // The time begins here.
        self.pace.is_due();
    }

    /// So many bytes more were read.
    pub(crate) fn goes_on(&mut self, count: usize) {
        if self.read >= self.size {
            return;
        }
        self.read = self.read.saturating_add(count as u64);
        if self.read >= self.size {
            self.screen.clear();
        } else if self.pace.is_due() {
            self.show();
        }
    }

    fn show(&self) {
        let percent = u128::from(self.read) * 100 / u128::from(self.size.max(1));
        let megabytes = self.size / 1_000_000;
        self.screen.pass(format_args!("perkeep: reading the store, {percent} % of {megabytes} MB"));
    }
}
