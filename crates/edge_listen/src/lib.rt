//! Where connections come from, and a form of it in memory.
#![tactic(auto)]

mod listener;
mod memory;

pub use listener::Listener;
pub use memory::MemListener;
