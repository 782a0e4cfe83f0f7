//! Tests of locks, of the server over running threads, and of the server of shares: no part of the program.
#![tactic(auto)]

#[cfg(test)]
mod ends;
#[cfg(test)]
mod serving;
#[cfg(test)]
mod shares;
#[cfg(test)]
mod texts;
#[cfg(test)]
mod threads;
#[cfg(test)]
mod turns;
