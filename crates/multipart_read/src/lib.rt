//! The parts of multipart/form-data bodies that come in pieces (`docs/formats/multipart.md`).
#![tactic(auto)]

mod events;
mod heads;
mod laws;
mod limits;
mod marks;
mod parameters;
mod reader;
mod steps;

pub use events::{PartEvent, PartEvents, PartFault};
pub use laws::{bodies_and_parts, bodies_and_pieces, marks_and_texts, parameters_and_texts};
pub use limits::MAX_BYTES;
pub use parameters::boundary_of;
pub use reader::Parts;
