//! Tests of the words of the command line beside another reader: no part of the program.
#![tactic(auto)]

#[cfg(test)]
mod lines;
