//! What is measured, and the word for each. One yardstick more is a variant of `Yardstick`, its word, and the
//! function that makes its line.

use crate::indexing::{Arrival, Question, facts_line, index_line};
use blobref::{NoMemory, Ref};
use salvage_scan::{Clean, scan};
use std::alloc::Global;

/// What is measured over the bytes of standard input.
#[derive(Clone, Copy)]
pub enum Yardstick {
    /// A scan of the bytes as a pack.
    Scan,
    /// The SHA-224 of the bytes.
    Hash,
    /// What the blobs of a pack say, read one after another and kept nowhere.
    Facts,
    /// An index over the blobs of a pack.
    Index(Arrival),
}

impl Yardstick {
    /// The yardstick that a word names.
    pub fn named(word: &str) -> Option<Yardstick> {
        match word {
            "scan" => Some(Yardstick::Scan),
            "hash" => Some(Yardstick::Hash),
            "facts" => Some(Yardstick::Facts),
            "insert" => Some(Yardstick::Index(Arrival::InOrder)),
            "insert-backwards" => Some(Yardstick::Index(Arrival::Backwards)),
            "place" => Some(Yardstick::Index(Arrival::Placed)),
            "fill" => Some(Yardstick::Index(Arrival::AtOnce)),
            _ => None,
        }
    }

    /// Measures the bytes, and gives the line that tells the outcome. An index is asked the question.
    pub fn line(
        &self,
        alloc: Global,
        input: &[u8],
        question: &Question,
    ) -> Result<String, NoMemory> {
        match self {
            Yardstick::Scan => scan_line(alloc, input),
            Yardstick::Hash => hash_line(alloc, input),
            Yardstick::Facts => facts_line(alloc, input),
            Yardstick::Index(arrival) => index_line(alloc, input, arrival, question),
        }
    }
}

// How many blobs the pack has, and whether it is clean.
fn scan_line(alloc: Global, pack: &[u8]) -> Result<String, NoMemory> {
    let (found, clean) = scan(alloc, pack)?;
    Ok(format!(in alloc; "{} {}", found.len(), clean == Clean::Yes)?)
}

// Whether the digest is the least of all, so that it has to be taken.
fn hash_line(alloc: Global, input: &[u8]) -> Result<String, NoMemory> {
    Ok(format!(in alloc; "{}", Ref::of(input) == Ref::least())?)
}
