//! Whose a file is.
use std::fs::Metadata;
use std::os::unix::fs::MetadataExt;

/// Whether a file that was looked at is that of the user for whom the program runs.
pub fn is_own(found: &Metadata) -> bool {
    found.uid() == libc::geteuid()
}
