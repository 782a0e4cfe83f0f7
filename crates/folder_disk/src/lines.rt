//! What a person at a terminal is told of the folder.
use edge_os::Screen;

/// The folder isn't there, and reads as one without packs.
pub(crate) fn tell_absent(screen: &Screen<'_>, folder: &str) {
    screen.tell(format_args!("perkeep: {folder} doesn't exist, and reads as an empty store"));
}

/// The folder didn't exist, and was made.
pub(crate) fn tell_made(screen: &Screen<'_>, folder: &str) {
    screen.tell(format_args!("perkeep: {folder} didn't exist, and was made"));
}

/// Another program holds the folder, and is waited for.
pub(crate) fn show_waiting(screen: &Screen<'_>, folder: &str) {
    screen.pass(format_args!(
        "perkeep: waiting for another program that has locked {folder}, ten seconds at most"
    ));
}
