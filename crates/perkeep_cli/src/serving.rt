//! The server over a folder.
ghost use Rattle.std.specs.Prelude.{◌≤◌, All, IfOk, vec_len};

use crate::console::Console;
use crate::ending::Ending;
use crate::keys::{read_keyring, tell_of_no_keyring};
use crate::pauses::Pauses;
use blob_server::{desks, serve_all};
use blobref::NoMemory;
use claim_verify::Verifier;
use edge_os::Readiness;
use edge_tcp::{Door, TcpListenerOn};
use folder_disk::{Access, FolderDisk};
use home_places::Home;
use pack_disk::Disk;
use perkeep_top::Status;
use perkeep_words::ServePlan;
use server_home::{HomeFault, home_over};
use std::mem::forget;
use std::net::{Ipv4Addr, SocketAddr, TcpListener};
use std::sync::Wait;
use std::sync::atomic::AtomicU64;
use std::thread::Threads;

/// Serves the store of a folder on the loopback address (`docs/commands.md`), until as many connections were served as
/// the plan says.
pub(crate) fn serve<R: Threads + Wait + Sync>(
    rt: &HostRuntime,
    threads: &R,
    console: &Console<'_>,
    folder: &str,
    plan: &ServePlan,
) -> Ending {
    let keys = match read_keyring(rt, console.screen(), folder) {
        Ok(keys) => keys,
        Err(ending) => return ending,
    };
    tell_of_no_keyring(rt, console.screen(), folder, "note");
    let address = SocketAddr::from((Ipv4Addr::LOCALHOST, plan.port));
    let Ok(listener) = TcpListener::bind(rt, address) else {
        return Ending::of(Status::ListenerFault);
    };
    console.screen().tell(format_args!("perkeep: has port {}; reading the store", plan.port));
    Ending::of(serve_folder(threads, threads, console, folder, &keys, &listener, plan))
}

// Serves the store of a folder to those who connect to the listener. The home keeps `handle`.
fn serve_folder<
    V: Verifier + Copy + Drop + Send + Sync,
    H: Wait + Drop + Send,
    R: Threads + Wait + Sync,
>(
    threads: &R,
    handle: H,
    console: &Console<'_>,
    folder: &str,
    keys: V,
    listener: &TcpListener,
    plan: &ServePlan,
) -> Status {
    let appends = AtomicU64::new(0);
    let rt = console.rt();
    let access = Access::Write;
    let disk = FolderDisk::new(rt, console.screen(), console.trouble(), folder, access);
    let disk = disk.counting(&appends);
    let gate = Pauses::new(rt, &appends);
    serve_disk(threads, handle, console, disk, keys, listener, &gate, plan)
}

// Opens the store that a disk holds, and serves it. The home is never dropped: its memory goes with the process, which
// ends, and the proof of its drop would be most of this crate's.
fn serve_disk<
    D: Disk + Drop + Send,
    V: Verifier + Copy + Drop + Send + Sync,
    H: Wait + Drop + Send,
    R: Threads + Wait + Sync,
>(
    threads: &R,
    handle: H,
    console: &Console<'_>,
    disk: D,
    keys: V,
    listener: &TcpListener,
    gate: &Pauses<'_>,
    plan: &ServePlan,
) -> Status {
    let count = plan.workers.saturating_add(plan.indexers);
    match home_over(handle, console.rt().alloc(), disk, keys, count) {
        Ok((home, passes)) => {
            let status = serve_home(threads, console, &home, passes, listener, gate, plan);
            forget(home);
            status
        }
        Err(fault) => status_of(fault),
    }
}

fn status_of<D: Drop>(fault: HomeFault<D>) -> Status {
    match fault {
        HomeFault::Disk { .. } => Status::Disk,
        HomeFault::NoMemory => Status::NoMemory,
    }
}

// Serves connections of the listener over a home, with a worker or an indexer for each pass.
fn serve_home<H: Home + Sync, R: Threads + Wait + Sync>(
    threads: &R,
    console: &Console<'_>,
    home: &H,
    passes: Vec<H::Pass>,
    listener: &TcpListener,
    gate: &Pauses<'_>,
    plan: &ServePlan,
) -> Status
where
    H::Pass: Drop + Send,
    requires { All (H.belongs home.now) passes.items }
{
    let rt = console.rt();
    let ready = Readiness::new(console.screen(), plan.port);
    let Ok(listeners) = listeners(rt, listener, &ready, plan.workers.min(passes.len())) else {
        return Status::NoMemory;
    };
    let Ok(mut desks) = desks(rt.alloc(), passes, listeners) else {
        return Status::NoMemory;
    };
    serve_all(
        threads,
        rt.alloc(),
        home,
        &mut desks,
        plan.connections,
        gate,
    )
}

// One who accepts for each worker.
fn listeners<'a>(
    rt: &'a HostRuntime,
    listener: &'a TcpListener,
    ready: &'a Readiness<'a>,
    workers: usize,
) -> Result<Vec<TcpListenerOn<'a>>, NoMemory>
    ensures { IfOk result (λ listeners. vec_len listeners ≤ workers) }
{
    let mut listeners = Vec::new(rt.alloc());
    'workers: for _ in 0..workers {
        listeners.push(TcpListenerOn::new(rt, listener, ready, Door::Own))?;
    }
    Ok(listeners)
}
