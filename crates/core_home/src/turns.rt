//! Turns, and how they are drawn.
ghost use Rattle.std.specs.Prelude.{◌≡◌, ◌+◌, ◌++◌, ◌∷◌, [], None, true, false, IfSome, IfNone, OnSome, OnOk, OnErr, IfOk, replicate};
ghost use Rattle.core_home.specs.Keeping.{are_left, inserted_from, from_the_start};

use blobref::NoMemory;
use std::alloc::Global;

/// The turns of the index in which a number was taken, if it was, and then inserted. What stood there from the start
/// has turn 0.
#[derive(Clone, Copy)]
pub struct Turns {
    pub taken: Option<u64>,
    pub inserted: u64,
}

/// The last of so many further turns. Where fewer are left, the pass is spent.
pub(crate) fn last_of(spent: &mut bool, drawn: u64, count: u64) -> Option<u64>
    ensures last { IfSome result (λ last. last ≡ drawn + count) }
    ensures left { OnSome result (are_left count drawn ≡ true) }
    ensures stays { OnSome result (spent.new ≡ spent.old) }
    ensures none { IfNone result (are_left count drawn ≡ false) }
    ensures spent { IfNone result (spent.new ≡ true) }
{
    if count <= u64::MAX - drawn {
        return Some(drawn + count);
    }
    *spent = true;
    None
}

/// Turn 0, so many times.
pub(crate) fn zeros(alloc: Global, count: usize) -> Result<Vec<u64>, NoMemory>
    ensures { IfOk result (λ turns. turns.items ≡ replicate count 0) }
{
    let turns = vec![in alloc; 0; count]?;
    Ok(turns)
}

/// The turns of so many numbers that were inserted from the start.
pub(crate) fn starts(alloc: Global, count: usize) -> Result<Vec<Turns>, NoMemory>
    ensures { IfOk result (λ turns. turns.items ≡ replicate count from_the_start) }
{
    let start = Turns {
        taken: None,
        inserted: 0,
    };
    let turns = vec![in alloc; start; count]?;
    Ok(turns)
}

/// Puts the next turns behind the others, in each of which a number is inserted. They are as they were after a refusal
/// for memory.
pub(crate) fn push_inserts(inserts: &mut Vec<Turns>, drawn: u64, count: u64) -> Result<(), NoMemory>
    requires { are_left count drawn ≡ true }
    ensures ok { OnOk result (inserts.new.items ≡ inserts.old.items ++ inserted_from drawn count) }
    ensures err { OnErr result (inserts.new.items ≡ inserts.old.items) }
{
    let len = inserts.len();
    'turns: for n in 0..count {
        if push_insert(inserts, drawn + n + 1).is_err() {
            inserts.truncate(len);
            return Err(NoMemory);
        }
    }
    Ok(())
}

fn push_insert(inserts: &mut Vec<Turns>, turn: u64) -> Result<(), NoMemory>
    ensures ok { OnOk result (inserts.new.items ≡ inserts.old.items ++ record { taken = None; inserted = turn } ∷ []) }
    ensures err { OnErr result (inserts.new.items ≡ inserts.old.items) }
{
    inserts.push(Turns {
        taken: None,
        inserted: turn,
    })?;
    Ok(())
}
