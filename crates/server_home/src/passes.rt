//! The passes, of seats of a store and of an index.
ghost use Rattle.std.specs.Prelude.{◌≡◌, IfOk, OnOk};
ghost use Rattle.turn_store.specs.StoreSeats.{IsOfStore, store_sight};
ghost use Rattle.server_home.specs.Passes.{AreOf, HasOneMore};

use blobref::NoMemory;
use live_home::LivePass;
use pack_disk::Disk;
use std::alloc::Global;
use turn_store::{StoreSeat, TurnStore};

/// A pass for each of the seats of an index, with a new seat of the store, which has seen the same as this one.
pub(crate) fn passes_of<D: Disk, B: Drop>(
    alloc: Global,
    store: &TurnStore<D>,
    store_seat: &mut StoreSeat<D>,
    seats: Vec<B>,
) -> Result<Vec<LivePass<StoreSeat<D>, B>>, NoMemory>
    requires { IsOfStore D.Disk store.now store_seat.old }
    ensures { IfOk result (λ passes. AreOf D.Disk store.now (store_sight store_seat.old) seats.items passes.items) }
{
    let mut passes = Vec::new(alloc);
    let mut left = seats;
    'seats: while let Some(seat) = left.pop() {
        push_pass(&mut passes, store, store_seat, seat)?;
    }
    Ok(passes)
}

// Appends one more pass.
fn push_pass<D: Disk, B: Drop>(
    passes: &mut Vec<LivePass<StoreSeat<D>, B>>,
    store: &TurnStore<D>,
    store_seat: &mut StoreSeat<D>,
    seat: B,
) -> Result<(), NoMemory>
    requires { IsOfStore D.Disk store.now store_seat.old }
    ensures own { IsOfStore D.Disk store.now store_seat.new }
    ensures same { store_sight store_seat.new ≡ store_sight store_seat.old }
    ensures added { OnOk result (HasOneMore D.Disk store.now (store_sight store_seat.old) seat passes.old.items
        passes.new.items) }
{
    let pass = LivePass::make(store.split(store_seat), seat);
    passes.push(pass)?;
    Ok(())
}
