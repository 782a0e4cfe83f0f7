//! Tests of shares: on the blobs of `docs/shares.md`.
#![tactic(auto)]

#[cfg(test)]
mod reading;
