//! A worker that indexes what arrives, over any home.
#![tactic(auto)]

mod gate;
mod working;

pub use gate::{Gate, GateLog, GatePlace};
pub use working::index_worker;
