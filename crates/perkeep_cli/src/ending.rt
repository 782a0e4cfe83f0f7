//! How the program ends.
use blobref::Text;
use perkeep_hints::BadKeyring;
use perkeep_top::{InputFault, Status};

/// The end of the program (`docs/commands.md`).
#[derive(Drop)]
pub(crate) struct Ending {
    status: Status,
    // The address of the peer that is to blame, where one is.
    peer: Option<Text>,
    // What is wrong with the keyring, where that is to blame.
    keyring: Option<BadKeyring>,
}

impl Ending {
    /// As a run ended, or would have, or as serving did.
    pub(crate) fn of(status: Status) -> Ending {
        Ending {
            status,
            peer: None,
            keyring: None,
        }
    }

    /// As a round over servers ended, with the address of the one that refused its last call, where one did.
    pub(crate) fn mirrored(status: Status, peer: Option<Text>) -> Ending {
        Ending {
            status,
            peer,
            keyring: None,
        }
    }

    /// As it ends where the keyring can't be read, or can't be used: such a one holds no key.
    pub(crate) fn of_keyring(keyring: BadKeyring) -> Ending {
        Ending {
            status: match keyring {
                BadKeyring::Unreadable => Status::ReadFault,
                _ => Status::BadInput(InputFault::NoKey),
            },
            peer: None,
            keyring: Some(keyring),
        }
    }

    /// The status, with the exit status and the word on standard error.
    pub(crate) fn status(&self) -> &Status {
        &self.status
    }

    /// The address of the peer that is to blame, where one is.
    pub(crate) fn peer(&self) -> Option<&str> {
        match &self.peer {
            Some(peer) => Some(peer.as_str()),
            None => None,
        }
    }

    /// What is wrong with the keyring, where that is to blame.
    pub(crate) fn keyring(&self) -> Option<BadKeyring> {
        self.keyring
    }
}
