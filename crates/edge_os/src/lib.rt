//! The system's readers, writers and streams as sources and sinks, and what a person at a terminal is told
//! (`docs/architecture.md`). They tell nothing of the bytes, and count their failures; what the system does is trusted.
#![tactic(auto)]

pub mod again;
mod edges;
mod owner;
mod readiness;
mod screen;
mod standard;
mod tally;

pub use edges::{ReadSource, WriteSink, counted};
pub use owner::is_own;
pub use readiness::Readiness;
pub use screen::{Pace, Screen};
pub use standard::{ShownIn, ShownOut, StandardIn, StandardOut, standard_input, standard_output};
