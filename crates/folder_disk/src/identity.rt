//! Which file a path leads to.
use edge_os::again::uninterrupted;
use std::fs::{self, Metadata};
use std::io::{self, ErrorKind};
use std::os::unix::fs::MetadataExt;

/// What tells a file from every other one, as long as it is open: its device, and its number there.
#[derive(Clone, Copy, PartialEq)]
pub(crate) struct Identity {
    device: u64,
    number: u64,
}

impl Identity {
    /// The identity of the file that was looked at.
    pub(crate) fn of(found: &Metadata) -> Identity {
        Identity {
            device: found.dev(),
            number: found.ino(),
        }
    }

    /// Whether a path leads to the file. This is one call of the system.
    pub(crate) fn is_at(&self, rt: &HostRuntime, path: &str) -> io::Result<bool> {
        match uninterrupted(|| fs::metadata(rt, path)) {
            Ok(found) => Ok(Identity::of(&found) == *self),
            Err(error) if error.kind() == ErrorKind::NotFound => Ok(false),
            Err(error) => Err(error),
        }
    }

    /// Fails unless a path leads to the file.
    pub(crate) fn check_at(&self, rt: &HostRuntime, path: &str) -> io::Result<()> {
        if self.is_at(rt, path)? {
            Ok(())
        } else {
            Err(io::Error::from(ErrorKind::NotFound))
        }
    }
}
