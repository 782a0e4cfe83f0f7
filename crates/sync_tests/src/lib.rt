//! Tests of peers in memory, over stores and over HTTP, of copying between them, of rounds, and of `push`, `pull` and
//! `mirror`. What is tested here stands in the crates below.
#![tactic(auto)]

#[cfg(test)]
mod commands;
#[cfg(test)]
mod mirrors;
#[cfg(test)]
mod peers;
#[cfg(test)]
mod rings;
#[cfg(test)]
mod stores;
#[cfg(test)]
mod syncs;
#[cfg(test)]
mod wire_peers;
