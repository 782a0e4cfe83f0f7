//! The store of a folder and servers, brought to one state.
use crate::console::Console;
use crate::ending::Ending;
use crate::hints::{tell_of_others, tell_of_peer};
use crate::shown_peer::ShownPeer;
use blobref::{NoMemory, Text, TextList};
use edge_dial::{DialedPeer, peer_at};
use edge_os::{Screen, standard_output};
use folder_disk::{Access, FolderDisk};
use perkeep_top::Status;
use std::alloc::Global;
use top_mirror::mirror_run;

/// Brings the store of a folder and the servers at these addresses to one state (`docs/commands.md`).
pub(crate) fn mirror(
    rt: &HostRuntime,
    console: &Console<'_>,
    words: &[Text],
    folder: &str,
    addresses: &TextList,
) -> Ending {
    let screen = console.screen();
    let Ok(mut peers) = peers_at(rt, screen, addresses.as_slice()) else {
        return Ending::of(Status::NoMemory);
    };
    tell_of_others(rt, screen, folder);
    for address in addresses.as_slice() {
        tell_of_peer(rt, screen, address.as_str());
    }
    let disk = FolderDisk::new(rt, screen, console.trouble(), folder, Access::Write);
    let mut sink = standard_output(rt, screen);
    let (_disk, status) = mirror_run(rt.alloc(), words, disk, &mut peers, &mut sink);
    Ending::mirrored(status, address_of_refusal(rt.alloc(), &peers))
}

// The peers at addresses, none of which is asked so far.
fn peers_at<'a>(
    rt: &'a HostRuntime,
    screen: &'a Screen<'a>,
    addresses: &'a [Text],
) -> Result<Vec<ShownPeer<'a, DialedPeer<'a>>>, NoMemory> {
    let mut peers = Vec::new(rt.alloc());
    for address in addresses {
        let address = address.as_str();
        peers.push(ShownPeer::of_round(screen, address, peer_at(rt, screen, address)))?;
    }
    Ok(peers)
}

// The address of the peer that refused its last call, where one did.
fn address_of_refusal<P>(alloc: Global, peers: &[ShownPeer<'_, P>]) -> Option<Text> {
    for peer in peers {
        if peer.has_refused() {
            return Text::copy(alloc, peer.address()).ok();
        }
    }
    None
}
