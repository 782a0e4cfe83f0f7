//! The standard streams that were closed when the program was started.
use std::fs::File;
use std::io;
use std::os::fd::{AsFd, BorrowedFd};

/// What stands in the places of standard streams that were closed, so that no file of a store takes one.
#[derive(Drop)]
pub(crate) struct Closed {
    _files: [Option<File>; 3],
}

impl Closed {
    /// Takes the places of the streams that are closed. Has to come before any file is opened.
    pub(crate) fn take(rt: &HostRuntime) -> io::Result<Closed> {
        Ok(Closed {
            _files: [
                taken(rt, rt.stdin().as_fd())?,
                taken(rt, rt.stdout().as_fd())?,
                taken(rt, rt.stderr().as_fd())?,
            ],
        })
    }
}

// Takes the place of a stream where it is closed and those before it are open: the system gives a file the first
// place that is free. A folder can neither be read nor written.
fn taken(rt: &HostRuntime, stream: BorrowedFd<'_>) -> io::Result<Option<File>> {
    match stream.try_clone_to_owned() {
        Ok(_) => Ok(None),
        Err(_) => Ok(Some(File::open(rt, "/")?)),
    }
}
