//! Tests of the core: no part of the program.
#![tactic(auto)]

#[cfg(test)]
mod blobs;
#[cfg(test)]
mod replies;
