//! Reading a line of search words.
ghost use Rattle.std.specs.Prelude.{◌≡◌, ◌≤◌, length, None, IfOk, IfErr};
ghost use Rattle.search_query.specs.Valid.{nests};
ghost use Rattle.search_query.specs.View.{view};
ghost use Rattle.search_words.specs.Grammar.{IsLine};
ghost use Rattle.search_words.specs.Lines.{start, run};
ghost use Rattle.search_words.specs.Characters.{char_step};
ghost use Rattle.words_read.specs.Seen.{seen, stopped, GoesAt};
ghost use Rattle.search_words.specs.Faults.{longest_line, deepest, RefusesShort, Refuses, Says, words_fault};

use crate::depth::nests_within;
use crate::form::{Reader, Stop, line_asks, next};
use search_query::Constraint;
use search_words::WordsFault;
use std::alloc::Global;

// The most bytes that a line may have.
const MAX_LINE: usize = 1_024;

// The most constraints that may stand within one another.
const MAX_DEPTH: u32 = 32;

/// The constraint that a line of search words asks (`docs/formats/search_words.md`), or why it isn't read: `TooLong`,
/// else `Bad`, else `TooDeep`, and `NoMemory` at any time. It goes over the text once, and takes time in its length.
pub fn read_words(alloc: Global, text: &str) -> Result<Constraint, WordsFault>
    ensures read { IfOk result (λ c. IsLine text.now (view c)) }
    ensures within { IfOk result (λ c. (length text.now ≤ longest_line) × (nests (view c) ≤ deepest)) }
    ensures said { IfOk result (λ c. words_fault text.now ≡ None) }
    ensures refused { IfErr result (Refuses text.now) }
    ensures fault { IfErr result (Says (words_fault text.now)) }
{
    let len = text.len();
    if len > MAX_LINE {
        return Err(WordsFault::TooLong { len: len as u64 });
    }
    let constraint = match read_short(alloc, text) {
        Ok(constraint) => constraint,
        Err(fault) => return Err(fault),
    };
    if !nests_within(&constraint, MAX_DEPTH) {
        return Err(WordsFault::TooDeep);
    }
    Ok(constraint)
}

// The constraint of a line of any length, however deep it nests.
fn read_short(alloc: Global, text: &str) -> Result<Constraint, WordsFault>
    ensures read { IfOk result (λ c. IsLine text.now (view c)) }
    ensures refused { IfErr result (RefusesShort text.now) }
{
    let reader = read_all(alloc, text)?;
    match line_asks(alloc, reader)? {
        Some(constraint) => Ok(constraint),
        None => Err(WordsFault::Bad {
            at: text.len() as u64,
        }),
    }
}

// The state after all characters.
fn read_all(alloc: Global, text: &str) -> Result<Reader, WordsFault>
    ensures read { IfOk result (λ reader. seen reader ≡ run start text.now) }
    ensures refused { IfErr result (RefusesShort text.now) }
{
    let mut reader = Reader::new(alloc);
    for (at, c) in text.char_indices() {
        match next_at(alloc, &mut reader, at, c) {
            Ok(()) => {}
            Err(fault) => return Err(fault),
        }
    }
    Ok(reader)
}

fn next_at(alloc: Global, reader: &mut Reader, at: usize, c: char) -> Result<(), WordsFault>
    ensures { GoesAt (char_step (seen reader.old) c) (seen reader.new) at result }
{
    match next(alloc, reader, c) {
        Ok(()) => Ok(()),
        Err(stop) => Err(stopped(stop, at)),
    }
}

// The fault of a text whose reading stops after so many bytes.
fn stopped(stop: Stop, at: usize) -> WordsFault
    ensures { result ≡ stopped stop at }
{
    match stop {
        Stop::Stuck => WordsFault::Bad { at: at as u64 },
        Stop::NoMemory => WordsFault::NoMemory,
    }
}
