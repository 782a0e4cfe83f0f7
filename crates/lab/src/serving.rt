//! A connection over a home in memory.
ghost use Rattle.std.specs.Prelude.{◌≡◌, ◌<◌, [], IfOk};

use crate::indexing::blob_at;
use blob_http::{Answered, serve_connection};
use blobref::{NoMemory, Octets, Ref};
use claim_verify::Keyring;
use core_home::{CoreHome, CorePass};
use edge_base::{CallList, MemSink};
use home_core::{Core, Event};
use piece_source::PieceSource;
use salvage_scan::scan;
use std::alloc::Global;
use std::sync::Wait;

// Serves one connection over a home of one actor that holds the blobs of a pack: the requests are handed to it at most
// so many bytes at a time, or as many as it asks for where that is 0. Gives what is written.
pub(crate) fn replies<R: Wait>(
    rt: &R,
    alloc: Global,
    pack: &[u8],
    keys: Keyring,
    requests: Octets,
    piece: usize,
) -> Result<MemSink, NoMemory> {
    let home = CoreHome::make();
    let Ok(mut pass) = CorePass::over(alloc, core(alloc, pack, keys)?) else {
        return Err(NoMemory);
    };
    let most = if piece == 0 { usize::MAX } else { piece };
    let mut source = PieceSource::of(alloc, requests, most);
    let mut sink = MemSink::empty(alloc, CallList::empty(alloc));
    let mut log: Vec<Answered> = Vec::new(alloc);
    serve_connection(
        rt,
        alloc,
        &home,
        &mut pass,
        &mut source,
        &mut sink,
        &mut log,
    );
    Ok(sink)
}

// A core that holds the blobs of a pack, each ref at its first finding.
fn core(alloc: Global, pack: &[u8], keys: Keyring) -> Result<Core<Keyring>, NoMemory>
    ensures { IfOk result (λ core. core.state.hand ≡ []) }
{
    let (found, _) = scan(alloc, pack)?;
    let mut core = Core::fresh(alloc, keys);
    for place in found.as_slice() {
        put(alloc, &mut core, place.r, blob_at(pack, place))?;
    }
    Ok(core)
}

fn put(alloc: Global, core: &mut Core<Keyring>, said: Ref, bytes: &[u8]) -> Result<(), NoMemory>
    requires { core.old.state.hand ≡ [] }
    ensures { core.new.state.hand ≡ [] }
{
    let bytes = Octets::copy(alloc, bytes)?;
    core.step(&Event::Put {
        session: 0,
        said,
        bytes,
    })?;
    Ok(())
}
