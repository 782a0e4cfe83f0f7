//! A connection over a home of one actor.

use crate::failing::{Failing, NONE};
use crate::hand::{sink_of, source_of};
use crate::told::{add_bytes, add_ref, add_written};
use blob_http::{Ended, NoLog, serve_connection};
use blobref::NoMemory;
use claim_verify::Keyring;
use core_home::{CoreHome, CorePass};
use edge_base::{MemSink, Sink, Source};
use home_core::Core;
use std::alloc::Global;
use std::mem::forget;
use std::sync::Wait;

// Asks for all refs.
const LISTING: &[u8] = b"GET /camli/enumerate-blobs HTTP/1.1\r\n\r\n";

/// Serves a connection over an empty home, and then once more, without a call that fails. Answers whether one failed.
/// The home is given up as it is, and its memory with the process.
pub(crate) fn tell_connection<W: Wait>(
    alloc: Global,
    wait: &W,
    stream: &[u8],
    failing: Failing,
    line: &mut Vec<u8>,
) -> Result<bool, NoMemory> {
    let mut pass = pass_over(alloc)?;
    let told = tell_twice(alloc, wait, &mut pass, stream, failing, line);
    forget(pass);
    told
}

fn tell_twice<W: Wait>(
    alloc: Global,
    wait: &W,
    pass: &mut CorePass<Keyring>,
    stream: &[u8],
    failing: Failing,
    line: &mut Vec<u8>,
) -> Result<bool, NoMemory> {
    let has_failed = tell_one(alloc, wait, pass, stream, failing, line)?;
    tell_one(alloc, wait, pass, stream, NONE, line)?;
    Ok(has_failed)
}

/// A pass over an empty home.
pub(crate) fn pass_over(alloc: Global) -> Result<CorePass<Keyring>, NoMemory> {
    let core = Core::fresh(alloc, Keyring::empty(alloc));
    match CorePass::over(alloc, core) {
        Ok(pass) => Ok(pass),
        Err(refused) => {
            forget(refused);
            Err(NoMemory)
        }
    }
}

// Tells of a connection, and of what is then listed. Answers whether a call failed.
fn tell_one<W: Wait>(
    alloc: Global,
    wait: &W,
    pass: &mut CorePass<Keyring>,
    stream: &[u8],
    failing: Failing,
    line: &mut Vec<u8>,
) -> Result<bool, NoMemory> {
    let mut sink = sink_of(alloc, failing)?;
    tell_written(alloc, wait, pass, stream, failing, &mut sink, line)
}

// The same, where the replies go to a sink.
fn tell_written<W: Wait>(
    alloc: Global,
    wait: &W,
    pass: &mut CorePass<Keyring>,
    stream: &[u8],
    failing: Failing,
    sink: &mut MemSink,
    line: &mut Vec<u8>,
) -> Result<bool, NoMemory> {
    let (ended, has_failed) = serve(alloc, wait, pass, stream, failing, sink)?;
    add_bytes(line, name_of(ended).as_bytes())?;
    add_written(alloc, line, sink.written())?;
    add_listed(alloc, wait, pass, line)?;
    Ok(has_failed || sink.faults() > 0)
}

fn add_listed<W: Wait>(
    alloc: Global,
    wait: &W,
    pass: &mut CorePass<Keyring>,
    line: &mut Vec<u8>,
) -> Result<(), NoMemory> {
    let mut listed = Vec::new(alloc);
    add_listing(alloc, wait, pass, &mut listed)?;
    add_ref(line, &listed)
}

/// Adds what a connection is answered that asks for all refs.
pub(crate) fn add_listing<W: Wait>(
    alloc: Global,
    wait: &W,
    pass: &mut CorePass<Keyring>,
    listed: &mut Vec<u8>,
) -> Result<(), NoMemory> {
    let mut sink = sink_of(alloc, NONE)?;
    serve(alloc, wait, pass, LISTING, NONE, &mut sink)?;
    add_bytes(listed, sink.written())
}

// How a connection ended on which this stream came, and whether a read failed.
fn serve<W: Wait>(
    alloc: Global,
    wait: &W,
    pass: &mut CorePass<Keyring>,
    stream: &[u8],
    failing: Failing,
    sink: &mut MemSink,
) -> Result<(Ended, bool), NoMemory> {
    let home = CoreHome::make();
    let mut source = source_of(alloc, stream, failing)?;
    let ended = serve_connection(wait, alloc, &home, pass, &mut source, sink, &mut NoLog);
    Ok((ended, source.faults() > 0))
}

fn name_of(ended: Ended) -> &'static str {
    match ended {
        Ended::Closed => " closed",
        Ended::Cut { .. } => " cut",
        Ended::ReadFault => " read",
        Ended::WriteFault => " write",
        Ended::NoMemory => " memory",
    }
}
