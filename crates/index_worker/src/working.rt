//! The worker.
ghost use Rattle.std.specs.Prelude.{◌≡◌, ◌≤◌};
ghost use Rattle.index_worker.specs.Works.{Works, outcome_of};
ghost use Rattle.index_worker.specs.Asks.{Asks, AsksOnce, Notes};

use crate::gate::{Gate, GatePlace};
use edge_base::GetFault;
use home_places::{Home, Indexed};
use std::sync::Wait;

/// Makes so many steps of a worker, each a call of `Home::index_next`, and says how many numbers it inserted. A step
/// that is refused counts as one, and changes what that call says. The gate is asked at `Before` ahead of each step,
/// and behind it at the place that tells how it went.
pub fn index_worker<H: Home, G: Gate, R: Wait>(
    rt: &R,
    home: &H,
    pass: &mut H::Pass,
    gate: &mut G,
    turns: u64,
) -> u64
    requires { H.belongs home.now pass.old }
    ensures own { H.belongs home.now pass.new }
    ensures works { Works turns result (H.sight pass.old) (H.sight pass.new) }
    ensures asks { Asks (H.tells home.now) (Notes G.tells gate.old gate.new) turns
        (H.sight pass.old) (H.sight pass.new) }
{
    let mut inserted = 0;
    'steps: for _ in 0..turns {
        inserted += step(rt, home, pass, gate);
    }
    inserted
}

// One step. It says how many numbers it inserted.
#[tactic(auto, using(crate::proofs::Asking::asks_once))]
fn step<H: Home, G: Gate, R: Wait>(rt: &R, home: &H, pass: &mut H::Pass, gate: &mut G) -> u64
    requires { H.belongs home.now pass.old }
    ensures own { H.belongs home.now pass.new }
    ensures one { result ≤ 1 }
    ensures works { Works 1 result (H.sight pass.old) (H.sight pass.new) }
    ensures asks { AsksOnce (H.tells home.now) (Notes G.tells gate.old gate.new)
        (H.sight pass.old) (H.sight pass.new) }
{
    gate.wait_at(rt, GatePlace::Before);
    let (place, inserted) = outcome(home.index_next(rt, pass));
    gate.wait_at(rt, place);
    inserted
}

// At which place the gate is asked behind a step, and how many numbers the step inserted.
fn outcome(step: Result<Indexed, GetFault>) -> (GatePlace, u64)
    ensures { result ≡ outcome_of step }
{
    match step {
        Ok(Indexed::New { .. }) => (GatePlace::After, 1),
        Ok(Indexed::Already { .. }) => (GatePlace::After, 0),
        Ok(Indexed::Idle { .. }) => (GatePlace::Idle, 0),
        Err(_) => (GatePlace::Fault, 0),
    }
}
