//! What a person at a terminal is told of single files, and of a peer.
use edge_os::again::uninterrupted;
use edge_os::{Screen, is_own};
use edge_tcp::answers;
use perkeep_hints::is_address;
use perkeep_top::Status;
use std::fs;
use std::io::ErrorKind;
use std::os::unix::fs::MetadataExt;

// The name of the last pack that there may be.
const LAST_PACK: &str = "pack-99999.blobs";

// The bit of a file's mode by which everyone may write to it.
const BY_ALL: u32 = 0o002;

/// Which file of a folder is to blame for a status, and why; None where that isn't seen.
pub(crate) fn file_to_blame(rt: &HostRuntime, folder: &str, status: &Status) -> Option<String> {
    match status {
        Status::Disk => odd_pack(rt, folder),
        Status::Full { .. } => last_pack(rt, folder),
        _ => None,
    }
}

// Something by the name of a pack that is seen to be no regular file, or to lead to none.
fn odd_pack(rt: &HostRuntime, folder: &str) -> Option<String> {
    for entry in fs::read_dir(rt, folder).ok()? {
        if let Ok(entry) = entry {
            let name = entry.file_name();
            if is_pack_name(name) && !is_regular(rt, folder, name) {
                return format!(in rt.alloc(); "{folder}/{name} isn't a regular file").ok();
            }
        }
    }
    None
}

// The last pack that there may be, where it is there.
fn last_pack(rt: &HostRuntime, folder: &str) -> Option<String> {
    if is_regular(rt, folder, LAST_PACK) {
        format!(in rt.alloc(); "no pack can come after {folder}/{LAST_PACK}").ok()
    } else {
        None
    }
}

fn is_pack_name(name: &str) -> bool {
    let Some(rest) = name.strip_prefix("pack-") else {
        return false;
    };
    match rest.strip_suffix(".blobs") {
        Some(digits) => digits.len() == 5 && digits.bytes().all(|b| b.is_ascii_digit()),
        None => false,
    }
}

fn is_regular(rt: &HostRuntime, folder: &str, name: &str) -> bool {
    let Ok(path) = format!(in rt.alloc(); "{folder}/{name}") else {
        return true;
    };
    match uninterrupted(|| fs::metadata(rt, &path)) {
        Ok(found) => found.is_file(),
        Err(error) => error.kind() != ErrorKind::NotFound,
    }
}

/// Tells a person of a folder that belongs to another user, and of a keyring in it to which everyone may write.
pub(crate) fn tell_of_others(rt: &HostRuntime, screen: &Screen<'_>, folder: &str) {
    if !screen.is_shown() || folder.is_empty() {
        return;
    }
    let Ok(keyring) = format!(in rt.alloc(); "{folder}/keyring") else {
        return;
    };
    if let Ok(found) = uninterrupted(|| fs::metadata(rt, folder)) {
        if !is_own(&found) {
            screen.tell(format_args!("perkeep: {folder} belongs to another user"));
        }
    }
    if let Ok(found) = uninterrupted(|| fs::metadata(rt, &keyring)) {
        if found.mode() & BY_ALL != 0 {
            screen.tell(format_args!(
                "perkeep: everyone may write to {keyring}; chmod 600 protects it"
            ));
        }
    }
}

/// Tells a person of a peer at an address that accepts no connection now. What tries it is another connection than
/// those of the command.
pub(crate) fn tell_of_peer(rt: &HostRuntime, screen: &Screen<'_>, address: &str) {
    if screen.is_shown() && is_address(address) && !answers(rt, address) {
        screen.tell(format_args!("perkeep: {address} accepts no connection"));
    }
}
