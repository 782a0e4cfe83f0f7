//! The server of shares over a folder.
use crate::console::Console;
use crate::ending::Ending;
use crate::keys::{read_keyring, tell_of_no_keyring};
use edge_os::Readiness;
use edge_tcp::{Door, TcpListenerOn};
use folder_disk::{Access, FolderDisk};
use perkeep_top::Status;
use perkeep_words::SharePlan;
use share_server::serve_shares;
use std::net::{Ipv4Addr, SocketAddr, TcpListener};
use std::sync::Wait;

/// Serves what the store of a folder shares, as it is now, on the loopback address (`docs/commands.md`), until as many
/// connections were served as the plan says. The store is only read, so another program may write to it meanwhile.
pub(crate) fn serve_folder_shares<R: Wait>(
    waiting: &R,
    console: &Console<'_>,
    folder: &str,
    plan: &SharePlan,
) -> Ending {
    let (rt, screen) = (console.rt(), console.screen());
    let keys = match read_keyring(rt, screen, folder) {
        Ok(keys) => keys,
        Err(ending) => return ending,
    };
    tell_of_no_keyring(rt, screen, folder, "share");
    let address = SocketAddr::from((Ipv4Addr::LOCALHOST, plan.port));
    let Ok(listener) = TcpListener::bind(rt, address) else {
        return Ending::of(Status::ListenerFault);
    };
    screen.tell(format_args!("perkeep: has port {}; reading the store", plan.port));
    let ready = Readiness::new(screen, plan.port);
    let mut accepting = TcpListenerOn::new(rt, &listener, &ready, Door::Anyone);
    let disk = FolderDisk::new(rt, screen, console.trouble(), folder, Access::Read);
    let (_disk, status) = serve_shares(
        waiting,
        rt.alloc(),
        disk,
        &keys,
        &mut accepting,
        plan.connections,
    );
    Ending::of(status)
}
