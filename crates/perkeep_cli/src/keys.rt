//! The keyring in its file.
use crate::ending::Ending;
use crate::hints::tell_of_others;
use claim_verify::{Keyring, KeyringFault};
use edge_base::{ReadAllError, read_all};
use edge_os::again::uninterrupted;
use edge_os::{ReadSource, Screen};
use folder_disk::open_regular;
use perkeep_hints::{BadKeyring, no_note_text};
use perkeep_top::Status;
use std::fs::{self, File};
use std::io::{self, ErrorKind};

const MAX_KEYRING: usize = 1_048_576;

/// The keyring of a folder: of its file `keyring`, or empty where there is no such name, or no such folder.
pub(crate) fn read_keyring(
    rt: &HostRuntime,
    screen: &Screen<'_>,
    folder: &str,
) -> Result<Keyring, Ending> {
    if folder.is_empty() {
        return Ok(Keyring::empty(rt.alloc()));
    }
    let Ok(path) = format!(in rt.alloc(); "{folder}/keyring") else {
        return Err(Ending::of(Status::NoMemory));
    };
    tell_of_others(rt, screen, folder);
    let file = match open_keyring(rt, &path) {
        Ok(Some(file)) => file,
        Ok(None) => return Ok(Keyring::empty(rt.alloc())),
        Err(error) if error.kind() == ErrorKind::OutOfMemory => {
            return Err(Ending::of(Status::NoMemory));
        }
        Err(_) => return Err(Ending::of_keyring(BadKeyring::Unreadable)),
    };
    let mut source = ReadSource::new(file);
    let text = read_all(rt.alloc(), &mut source, MAX_KEYRING).map_err(unread)?;
    Keyring::read(rt.alloc(), &text).map_err(unusable)
}

/// Whether a folder has something by the name of a keyring, as far as that is seen.
pub(crate) fn has_keyring(rt: &HostRuntime, folder: &str) -> bool {
    match format!(in rt.alloc(); "{folder}/keyring") {
        Ok(path) => is_there(rt, &path),
        Err(_) => true,
    }
}

/// Whether something is there under a path, as far as that is seen.
pub(crate) fn is_there(rt: &HostRuntime, path: &str) -> bool {
    uninterrupted(|| fs::symlink_metadata(rt, path)).is_ok()
}

/// Tells a person of a folder without a keyring that nothing is found in it, be it notes or shares.
pub(crate) fn tell_of_no_keyring(
    rt: &HostRuntime,
    screen: &Screen<'_>,
    folder: &str,
    sought: &str,
) {
    if screen.is_shown() && !folder.is_empty() && !has_keyring(rt, folder) {
        screen.tell(format_args!(
            "perkeep: {folder}/keyring doesn't exist, so no {sought} is found"
        ));
    }
}

/// Tells a person of a folder with a keyring in which no note was found what may be wrong with it.
pub(crate) fn tell_of_no_note(rt: &HostRuntime, screen: &Screen<'_>, folder: &str) {
    if !screen.is_shown() || !has_keyring(rt, folder) {
        return;
    }
    if let Some(text) = no_note_text(rt.alloc(), folder) {
        screen.tell(format_args!("perkeep: {text}"));
    }
}

// Opens the file under a path; None where nothing has that name. A link that leads to nothing is something.
fn open_keyring(rt: &HostRuntime, path: &str) -> io::Result<Option<File>> {
    match uninterrupted(|| fs::symlink_metadata(rt, path)) {
        Ok(_) => Ok(Some(open_regular(rt, File::options().read(true), path)?)),
        Err(error) => match error.kind() {
            ErrorKind::NotFound | ErrorKind::NotADirectory => Ok(None),
            _ => Err(error),
        },
    }
}

fn unread(error: ReadAllError) -> Ending {
    match error {
        ReadAllError::ReadFault => Ending::of_keyring(BadKeyring::Unreadable),
        ReadAllError::TooLong => Ending::of_keyring(BadKeyring::TooLong),
        ReadAllError::NoMemory => Ending::of(Status::NoMemory),
    }
}

fn unusable(fault: KeyringFault) -> Ending {
    match fault {
        KeyringFault::BadLine { line } => Ending::of_keyring(BadKeyring::NoKey { line }),
        KeyringFault::Twice { line } => Ending::of_keyring(BadKeyring::Twice { line }),
        KeyringFault::NoMemory => Ending::of(Status::NoMemory),
    }
}
