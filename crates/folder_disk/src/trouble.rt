//! Why a call of the disk failed, for a person at a terminal.
use std::io::{self, ErrorKind};
use std::sync::atomic::{AtomicU8, Ordering};

/// Why a call of the disk failed.
#[derive(Clone, Copy, PartialEq, Eq)]
pub enum Cause {
    /// None is known: no call failed, or it is none of these.
    Unknown,
    /// There is no room left.
    NoRoom,
    /// The user for whom the program runs may not do it.
    NoRight,
    /// Another program held the folder for as long as it was waited for.
    Held,
    /// The path leads to something that isn't a folder.
    NotAFolder,
    /// The path no longer leads where it did.
    Gone,
}

impl Cause {
    fn of(kind: ErrorKind) -> Cause {
        match kind {
            ErrorKind::StorageFull | ErrorKind::QuotaExceeded => Cause::NoRoom,
            ErrorKind::PermissionDenied | ErrorKind::ReadOnlyFilesystem => Cause::NoRight,
            ErrorKind::TimedOut => Cause::Held,
            ErrorKind::NotADirectory => Cause::NotAFolder,
            ErrorKind::NotFound => Cause::Gone,
            _ => Cause::Unknown,
        }
    }

    fn number(self) -> u8 {
        match self {
            Cause::Unknown => 0,
            Cause::NoRoom => 1,
            Cause::NoRight => 2,
            Cause::Held => 3,
            Cause::NotAFolder => 4,
            Cause::Gone => 5,
        }
    }
}

const CAUSES: [Cause; 5] = [
    Cause::NoRoom,
    Cause::NoRight,
    Cause::Held,
    Cause::NotAFolder,
    Cause::Gone,
];

/// Why the last call of a disk failed that did. It is lent to the disk, and may be asked once that one is gone.
#[derive(Drop)]
pub struct Trouble {
    number: AtomicU8,
}

impl Trouble {
    /// No call has failed so far.
    pub fn none() -> Trouble {
        Trouble {
            number: AtomicU8::new(Cause::Unknown.number()),
        }
    }

    /// Why the last call failed that did.
    pub fn cause(&self) -> Cause {
        let number = self.number.load(Ordering::Relaxed);
        for cause in CAUSES.iter() {
            if cause.number() == number {
                return *cause;
            }
        }
        Cause::Unknown
    }

    /// Notes why a call failed, where it did.
    pub(crate) fn note<T: Drop>(&self, done: &io::Result<T>) {
        if let Err(error) = done {
            self.number
                .store(Cause::of(error.kind()).number(), Ordering::Relaxed);
        }
    }
}
