//! What lines of search words ask, and the lines that ask what queries do.
use blobref::NoMemory;
use query_read::{QueryFault, read};
use query_text::text;
use schema_date::When;
use search_query::{Constraint, Query, Sort};
use search_words::WordsFault;
use std::alloc::Global;
use words_read::read_words;
use words_write::words_of;

// For each line of the input, which is one of search words, a line: the query that these ask, or why they ask none.
pub(crate) fn asked_lines(alloc: Global, input: &str) -> Result<Vec<u8>, NoMemory> {
    let mut lines = Vec::new(alloc);
    for line in input.split('\n') {
        match read_words(alloc, line) {
            Ok(constraint) => push_query(alloc, constraint, &mut lines)?,
            Err(fault) => push_fault(alloc, fault, &mut lines)?,
        }
    }
    Ok(lines)
}

fn push_query(alloc: Global, constraint: Constraint, lines: &mut Vec<u8>) -> Result<(), NoMemory> {
    let query = Query {
        constraint,
        limit: 200,
        sort: Sort::Ref,
        at: When::Always,
    };
    lines.extend_from_slice(text(alloc, &query)?.as_slice())?;
    lines.push(b'\n')?;
    Ok(())
}

fn push_fault(alloc: Global, fault: WordsFault, lines: &mut Vec<u8>) -> Result<(), NoMemory> {
    let line = match fault {
        WordsFault::TooLong { len } => format!(in alloc; "too long {len}\n")?,
        WordsFault::Bad { at } => format!(in alloc; "bad {at}\n")?,
        WordsFault::TooDeep => format!(in alloc; "too deep\n")?,
        WordsFault::NoMemory => return Err(NoMemory),
    };
    lines.extend_from_slice(line.as_bytes())?;
    Ok(())
}

// For each line of the input, which is a query as JSON, a line: the search words that ask its constraint, `none` where
// no words do, or `no query`.
pub(crate) fn written_lines(alloc: Global, input: &str) -> Result<Vec<u8>, NoMemory> {
    let mut lines = Vec::new(alloc);
    for line in input.split('\n') {
        push_written(alloc, line, &mut lines)?;
    }
    Ok(lines)
}

fn push_written(alloc: Global, query: &str, lines: &mut Vec<u8>) -> Result<(), NoMemory> {
    match read(alloc, query.as_bytes()) {
        Ok(query) => push_words(alloc, &query.constraint, lines)?,
        Err(fault) => push_no_query(&fault, lines)?,
    }
    lines.push(b'\n')?;
    Ok(())
}

// Adds that a text is no query, or hands on that memory lacks.
fn push_no_query(fault: &QueryFault, lines: &mut Vec<u8>) -> Result<(), NoMemory> {
    if matches!(fault, QueryFault::NoMemory) {
        return Err(NoMemory);
    }
    lines.extend_from_slice(b"no query")?;
    Ok(())
}

fn push_words(alloc: Global, constraint: &Constraint, lines: &mut Vec<u8>) -> Result<(), NoMemory> {
    match words_of(alloc, constraint)? {
        Some(line) => lines.extend_from_slice(line.as_str().as_bytes())?,
        None => lines.extend_from_slice(b"none")?,
    }
    Ok(())
}
