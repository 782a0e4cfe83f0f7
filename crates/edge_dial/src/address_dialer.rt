//! The ends of connections to an address.
ghost use Rattle.std.specs.Prelude.{◌≡◌, None, IfOk, IfSome, []};

use blobref::NoMemory;
use edge_os::Screen;
use edge_tcp::{PeerIn, PeerOut, peer_ends};
use peer_http::{Dialer, OnDemandPeer};

/// The server at an address, `HOST:PORT`, as a peer. It takes its memory, some 235 KiB, and looks for the server, at
/// its first call; how that one is reached is told at [`peer_ends`]. All else is proved, at [`OnDemandPeer`].
pub type DialedPeer<'a> = OnDemandPeer<AddressDialer<'a>>;

/// Gives the ends of [`peer_ends`], for the server at an address. It stays as it is.
#[derive(Drop)]
pub struct AddressDialer<'a> {
    rt: &'a HostRuntime,
    screen: &'a Screen<'a>,
    addr: &'a str,
}

impl<'a> Dialer for AddressDialer<'a> {
    type In = PeerIn<'a>;

    type Out = PeerOut<'a>;

    ghost gives = { λ a given b. b ≡ a };

    fn ends(&mut self) -> Result<(PeerIn<'a>, PeerOut<'a>), NoMemory> {
        Ok(peer_ends(self.rt, self.screen, self.addr)?)
    }
}

/// The peer at an address, which nobody has asked so far. Nothing is done. For how long it is waited for is shown on
/// the screen.
pub fn peer_at<'a>(rt: &'a HostRuntime, screen: &'a Screen<'a>, addr: &'a str) -> DialedPeer<'a>
    ensures unconnected { result.link ≡ None }
    ensures unfailed { result.faults ≡ 0 }
{
    OnDemandPeer::new(rt.alloc(), AddressDialer { rt, screen, addr })
}
