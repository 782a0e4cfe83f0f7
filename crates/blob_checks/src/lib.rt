//! The refs that bytes have, in less time than by `blobref`: of one blob, and of several that are checked together.
#![tactic(auto)]

mod checking;

pub use checking::{BYTES, COUNT, has_lanes, own_count, ref_like};
