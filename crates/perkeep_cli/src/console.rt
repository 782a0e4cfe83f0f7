//! What the program has for a person who runs it.
use edge_os::Screen;
use folder_disk::{Access, FolderDisk, Trouble};

/// The system, the screen, and why the disk failed.
#[derive(Drop)]
pub(crate) struct Console<'a> {
    rt: &'a HostRuntime,
    screen: Screen<'a>,
    trouble: Trouble,
}

impl<'a> Console<'a> {
    /// Before anything was shown, or has failed.
    pub(crate) fn new(rt: &'a HostRuntime) -> Console<'a> {
        Console {
            rt,
            screen: Screen::new(rt),
            trouble: Trouble::none(),
        }
    }

    pub(crate) fn rt(&self) -> &'a HostRuntime {
        self.rt
    }

    pub(crate) fn screen(&self) -> &Screen<'a> {
        &self.screen
    }

    pub(crate) fn trouble(&self) -> &Trouble {
        &self.trouble
    }
}
