//! Sockets as sources, sinks and listeners, and how long their other ends are waited for (`docs/server.md`,
//! `docs/sync.md`). They tell nothing of the bytes, and count their failures; what the system does is trusted. Who gets
//! in is decided by [`http_admission::admission_of`].
#![tactic(auto)]

mod at_door;
mod connection;
mod dialing;
mod lingering;
mod listening;
mod patience;
mod peer_line;
mod waiting;

pub use at_door::{AtDoor, Ear};
pub use connection::{ReadHalf, TcpIn, TcpOut, WriteHalf};
pub use dialing::answers;
pub use http_admission::Door;
pub use listening::TcpListenerOn;
pub use peer_line::{PeerIn, PeerOut, PeerReader, PeerWriter, peer_ends};
