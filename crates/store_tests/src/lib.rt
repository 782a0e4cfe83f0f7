//! Tests of names, digests and small values, of sources and sinks, of packs, disks and stores, and of generated stores.
//! What is tested here stands in the crates below.
#![tactic(auto)]

#[cfg(test)]
mod disks;
#[cfg(test)]
mod edges;
#[cfg(test)]
mod generated;
#[cfg(test)]
mod headers;
#[cfg(test)]
mod lanes;
#[cfg(test)]
mod names;
#[cfg(test)]
mod stores;
