//! Tests of connections over the home of one actor: no part of the program.
#![tactic(auto)]

#[cfg(test)]
mod connections;
#[cfg(test)]
mod pushes;
