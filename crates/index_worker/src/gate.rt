//! Where a worker may be held up.
ghost use Rattle.std.specs.Prelude.{◌≡◌, ◌∷◌, ◌++◌, [], List, false};
ghost use Rattle.index_worker.specs.declared.gate.GatePlace.{GatePlace};

use std::alloc::Global;
use std::sync::Wait;

/// Where a worker stands.
#[derive(Clone, Copy, PartialEq, Eq)]
pub enum GatePlace {
    /// It is about to make a step.
    Before,
    /// Its step took a number that was then inserted, by itself or by another one.
    After,
    /// Its step found no number that waits.
    Idle,
    /// Its step was refused.
    Fault,
}

/// What a worker asks before each step and after it whether it may go on. It may wait there. The gate needn't keep what
/// it was asked: `tells` relates it to each list of places that it may stand for.
pub trait Gate {
    /// It was asked at these places, the first one first.
    ghost tells: { Self → List GatePlace → Type 0 };

    /// Returns once the worker at this place may go on. The place stands behind all at which it was asked before.
    fn wait_at<R: Wait>(&mut self, rt: &R, place: GatePlace)
        ensures { (asked : List GatePlace) → tells self.old asked → tells self.new (asked ++ place ∷ []) };
}

/// A gate at which nobody waits. It keeps the places at which it was asked, each in a byte, for as long as there is
/// memory; once one is lost it tells nothing any more.
#[derive(Drop)]
pub struct GateLog {
    pub places: Vec<GatePlace>,
    /// Whether there was no memory for a place.
    pub is_short: bool,
}

impl GateLog {
    /// A gate that wasn't asked yet.
    pub fn empty(alloc: Global) -> GateLog
        ensures places { result.places.items ≡ [] }
        ensures whole { result.is_short ≡ false }
    {
        GateLog {
            places: Vec::new(alloc),
            is_short: false,
        }
    }
}

impl Gate for GateLog {
    ghost use Rattle.std.specs.Prelude.{◌≡◌, false};

    ghost tells = { λ log asked. log.is_short ≡ false → log.places.items ≡ asked };

    fn wait_at<R: Wait>(&mut self, _rt: &R, place: GatePlace) {
        if self.places.push(place).is_err() {
            self.is_short = true;
        }
    }
}
