//! What requests are answered with.

use std::alloc::Global;

/// What requests are answered with: what waits for a lock, the memory, and the home that is asked.
#[derive(Drop)]
pub struct Service<'a, H, R> {
    pub rt: &'a R,
    pub alloc: Global,
    pub home: &'a H,
}
