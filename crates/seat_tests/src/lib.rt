//! Tests of indexes that several seats share: no part of the program.
#![tactic(auto)]

#[cfg(test)]
mod facts;
#[cfg(test)]
mod rows;
#[cfg(test)]
mod seats;
#[cfg(test)]
mod turns;
