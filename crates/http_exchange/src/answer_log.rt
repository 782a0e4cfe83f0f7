//! Where the entries of answered requests go.
ghost use Rattle.std.specs.Prelude.{◌≡◌, ◌≤◌, ◌+◌, ◌∷◌, ◌++◌, [], List, OnOk, vec_len, vec_capacity};

use blobref::NoMemory;

/// Where the entries of answered requests go, in their order. It needn't keep them: `tells` relates it to each list
/// that it may stand for.
pub trait AnswerLog<E> {
    /// It stands for this list, oldest entry first.
    ghost tells: { Self → List E → Type 0 };

    /// It can take one more entry.
    ghost has_room: { Self → Type 0 };

    /// Makes room for one more entry. What it tells stays, also where there is no memory.
    fn make_room(&mut self) -> Result<(), NoMemory>
        ensures same { (entries : List E) → tells self.old entries → tells self.new entries }
        ensures room { OnOk result (has_room self.new) };

    /// Takes an entry, behind all others.
    fn note(&mut self, entry: E)
        requires { has_room self.old }
        ensures { (entries : List E) → tells self.old entries → tells self.new (entries ++ entry ∷ []) };
}

/// Keeps every entry, in its order.
impl<E: Drop> AnswerLog<E> for Vec<E> {
    ghost tells = { λ log entries. log.items ≡ entries };

    ghost has_room = { λ log. vec_len log + 1 ≤ vec_capacity log };

    fn make_room(&mut self) -> Result<(), NoMemory> {
        self.reserve(1)?;
        Ok(())
    }

    fn note(&mut self, entry: E) {
        let _ = self.push(entry);
    }
}

/// Keeps no entry, so it stands for any list. It takes no memory, and always has room.
#[derive(Drop)]
pub struct NoLog;

impl<E: Drop> AnswerLog<E> for NoLog {
    ghost tells = { λ log entries. Unit {0} };

    ghost has_room = { λ log. Unit {0} };

    fn make_room(&mut self) -> Result<(), NoMemory> {
        Ok(())
    }

    fn note(&mut self, entry: E) {}
}
