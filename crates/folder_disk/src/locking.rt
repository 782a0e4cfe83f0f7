//! The folder of a store, locked for one writer.
use crate::identity::Identity;
use crate::lines::{show_waiting, tell_made};
use edge_os::Screen;
use edge_os::again::uninterrupted;
use std::fs::{DirBuilder, File, TryLockError};
use std::io::{self, ErrorKind};
use std::os::unix::fs::DirBuilderExt;
use std::path::Path;
use std::thread;
use std::time::Duration;

// How often the lock is asked for, and how many milliseconds are waited after each time: ten seconds in all.
const TRIES: u32 = 500;

const PAUSE: u64 = 20;

// Who may use a folder that is made: its owner alone.
const OWNER_ONLY: u32 = 0o700;

/// Opens the folder, which is made where it isn't there, and locks it. The lock lasts as long as the file is open.
/// Another program's lock is waited for ten seconds, which is shown. `entered` is a path that leads into the folder.
pub(crate) fn lock_folder(
    rt: &HostRuntime,
    screen: &Screen<'_>,
    folder: &str,
    entered: &str,
) -> io::Result<File> {
    let mut file = open_or_make(rt, screen, folder, entered)?;
    for tried in 0..TRIES {
        match file.try_lock() {
            Ok(()) if identity_of(&file)?.is_at(rt, entered)? => {
                screen.clear();
                return Ok(file);
            }
            Ok(()) => file = open_or_make(rt, screen, folder, entered)?,
            Err(TryLockError::WouldBlock) => {
                if tried == 0 {
                    show_waiting(screen, folder);
                }
                thread::sleep(rt, Duration::from_millis(PAUSE));
            }
            Err(TryLockError::Error(error)) => return Err(error),
        }
    }
    Err(io::Error::from(ErrorKind::TimedOut))
}

/// Fails unless a path still leads to the file.
pub(crate) fn check_is_there(rt: &HostRuntime, file: &File, path: &str) -> io::Result<()> {
    identity_of(file)?.check_at(rt, path)
}

fn identity_of(file: &File) -> io::Result<Identity> {
    Ok(Identity::of(&uninterrupted(|| file.metadata())?))
}

fn open_or_make(
    rt: &HostRuntime,
    screen: &Screen<'_>,
    folder: &str,
    entered: &str,
) -> io::Result<File> {
    match File::open(rt, entered) {
        Err(error) if error.kind() == ErrorKind::NotFound => {
            make_folder(rt, screen, folder)?;
            File::open(rt, entered)
        }
        opened => opened,
    }
}

// Makes the folder, unless another program just did, and makes its name durable in the one above. Where that one
// can't be opened nothing is made.
fn make_folder(rt: &HostRuntime, screen: &Screen<'_>, folder: &str) -> io::Result<()> {
    let above = File::open(rt, path_above(folder))?;
    match uninterrupted(|| DirBuilder::new().mode(OWNER_ONLY).create(rt, folder)) {
        Ok(()) => {
            tell_made(screen, folder);
            above.sync_all()
        }
        Err(error) if error.kind() == ErrorKind::AlreadyExists => Ok(()),
        Err(error) => Err(error),
    }
}

fn path_above(folder: &str) -> &str {
    match Path::new(folder).parent() {
        Some(above) if !above.as_str().is_empty() => above.as_str(),
        _ => ".",
    }
}
