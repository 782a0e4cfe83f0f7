//! A blob is put.
ghost use Rattle.std.specs.Prelude.{◌≡◌, ◌++◌, ◌∷◌, [], None, IfOk, IfErr, OnOk, OnErr, length};
ghost use Rattle.histories.specs.StoreCalls.{HasRoom, PutSpec, put_settled};
ghost use Rattle.home_core.specs.State.{IsSound};
ghost use Rattle.home_core.specs.Steps.{core_step};
ghost use Rattle.home_core.specs.declared.events.Event.TheVariants as event;
ghost use Rattle.core_home.specs.Answers.{IsRefusal, after_put, after_upload, put_entry};
ghost use Rattle.core_home.specs.Keeping.{no_limits};

use blobref::{Octets, Ref};
use claim_verify::Verifier;
use edge_base::{Put, PutFault};
use home_core::{Core, Event};
use std::alloc::Global;

/// Puts a blob: where it is stored, that is a put of the core, and its turn is kept. Else all is as it was.
pub(crate) fn put<V: Verifier>(
    alloc: Global,
    core: &mut Core<V>,
    puts: &mut Vec<u64>,
    turn: u64,
    said: &Ref,
    bytes: &[u8],
) -> Result<Put, PutFault>
    ensures says { PutSpec no_limits said.now bytes.now core.old.state.store result
        (put_entry said.now bytes.now result) }
    ensures core { core.new.state ≡ after_upload said.now bytes.now result core.old.state }
    ensures puts { puts.new.items ≡ after_put turn result puts.old.items }
    ensures fault { IfErr result IsRefusal }
    ensures keys { core.new.keys ≡ core.old.keys }
    ensures sound { IsSound core.new.state }
{
    core.each_is_sound();
    match core.settled(said, bytes) {
        Some(answer) => answer,
        None => store(alloc, core, puts, turn, said, bytes),
    }
}

// Stores a blob of which nothing is settled under the next number. There is room for it: no list has as many
// as 2^64 - 1 items.
fn store<V: Verifier>(
    alloc: Global,
    core: &mut Core<V>,
    puts: &mut Vec<u64>,
    turn: u64,
    said: &Ref,
    bytes: &[u8],
) -> Result<Put, PutFault>
    requires { put_settled said.now bytes.now core.old.state.store ≡ None }
    ensures room { HasRoom no_limits core.old.state.store }
    ensures answer { IfOk result (λ put. put ≡ Put.Stored (length core.old.state.store)) }
    ensures core { OnOk result (core.new.state ≡ core_step core.old.state (event.Put 0 said.now bytes.now)) }
    ensures puts { OnOk result (puts.new.items ≡ puts.old.items ++ turn ∷ []) }
    ensures fault { IfErr result (λ fault. fault ≡ PutFault.NoMemory) }
    ensures same_core { OnErr result (core.new.state ≡ core.old.state) }
    ensures same_puts { OnErr result (puts.new.items ≡ puts.old.items) }
    ensures keys { core.new.keys ≡ core.old.keys }
    ensures sound { IsSound core.new.state }
{
    core.each_is_sound();
    let number = core.blobs().len() as u64;
    let Ok(copy) = Octets::copy(alloc, bytes) else {
        return Err(PutFault::NoMemory);
    };
    let len = puts.len();
    if puts.push(turn).is_err() {
        return Err(PutFault::NoMemory);
    }
    let put = Event::Put {
        session: 0,
        said: *said,
        bytes: copy,
    };
    if core.step(&put).is_err() {
        puts.truncate(len);
        return Err(PutFault::NoMemory);
    }
    Ok(Put::Stored { number })
}
