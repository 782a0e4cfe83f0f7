//! Tests of keys and dates, of what blobs say, of objects that are written, and of the index that keeps its facts
//! alone, claims of several changes in it too: where no command of the program tells it.
#![tactic(auto)]

#[cfg(test)]
mod blobs;
#[cfg(test)]
mod dates;
#[cfg(test)]
mod facts;
#[cfg(test)]
mod index;
#[cfg(test)]
mod keys;
#[cfg(test)]
mod objects;
#[cfg(test)]
mod queries;
#[cfg(test)]
mod several;
