//! Lines of search words: the queries that they ask, the lines that are written for these, and how far broken ones go.
use query_text::text;
use schema_date::When;
use search_query::{Constraint, Query, Sort};
use search_words::WordsFault;
use std::alloc::Global;
use words_read::read_words;
use words_write::words_of;

// A line, and the text of the query that asks what it asks, with the limit and order of a query that says neither.
const ASKED: [(&str, &str); 3] = [
    (
        "tag:a -attr:b:c or title:\"x y\"",
        "{\"constraint\":{\"logical\":{\"op\":\"or\",\"a\":{\"logical\":{\"op\":\"and\",\"a\":{\"permanode\":{\"attr\":\"tag\",\"value\":\"a\"}},\"b\":{\"logical\":{\"op\":\"not\",\"a\":{\"permanode\":{\"attr\":\"b\",\"value\":\"c\"}}}}}},\"b\":{\"permanode\":{\"attr\":\"title\",\"valueMatches\":{\"contains\":\"x y\"}}}}},\"limit\":200,\"sort\":\"blobref\"}",
    ),
    (
        " ( has:é  or ref:sha1- ) ",
        "{\"constraint\":{\"logical\":{\"op\":\"or\",\"a\":{\"permanode\":{\"attr\":\"é\"}},\"b\":{\"blobRefPrefix\":\"sha1-\"}}},\"limit\":200,\"sort\":\"blobref\"}",
    ),
    (
        "childrenof:sha1-0123456789012345678901234567890123456789",
        "{\"constraint\":{\"permanode\":{\"relation\":{\"relation\":\"parent\",\"any\":{\"blobRefPrefix\":\"sha1-0123456789012345678901234567890123456789\"}}}},\"limit\":200,\"sort\":\"blobref\"}",
    ),
];

// A line, and the one that is written for what it asks.
const WRITTEN: [(&str, &str); 6] = [
    (
        "tag:a -attr:b:c or title:\"x y\"",
        "tag:a -attr:b:c or title:\"x y\"",
    ),
    (" ( has:é  or ref:sha1- ) ", "has:é or ref:sha1-"),
    ("tag:a (tag:b (tag:c))", "tag:a (tag:b tag:c)"),
    (
        "(tag:a or  (tag:b))  -(-(tag:\"c\"))",
        "(tag:a or tag:b) -(-tag:c)",
    ),
    ("attr:\"tag\":\"a\\\\\"", "tag:a\\"),
    ("attr:\"a b\":\"\\\"(\\\\\"", "attr:\"a b\":\"\\\"(\\\\\""),
];

// A text that is no line, and the length of its longest front with which some line begins.
const BROKEN: [(&str, u64); 8] = [
    ("tga:x", 1),
    ("tag:a or", 8),
    ("(tag:a", 6),
    ("", 0),
    ("tag:a)", 5),
    ("has:\"\"", 5),
    ("tag:é(", 6),
    ("childrenof:sha3", 14),
];

// A line whose constraint nests 33 deep.
const DEEP: &str =
    "-(-(-(-(-(-(-(-(-(-(-(-(-(-(-(-(-(-(-(-(-(-(-(-(-(-(-(-(-(-(-(-(has:a))))))))))))))))))))))))))))))))";

fn has_text(alloc: Global, constraint: Constraint, want: &str) -> bool {
    let query = Query {
        constraint,
        limit: 200,
        sort: Sort::Ref,
        at: When::Always,
    };
    match text(alloc, &query) {
        Ok(text) => text.as_slice() == want.as_bytes(),
        Err(_) => false,
    }
}

fn asks(alloc: Global, line: &str, want: &str) -> bool {
    match read_words(alloc, line) {
        Ok(constraint) => has_text(alloc, constraint, want),
        Err(_) => false,
    }
}

fn is_written(alloc: Global, constraint: &Constraint, want: &str) -> bool {
    match words_of(alloc, constraint) {
        Ok(Some(line)) => line.as_str() == want,
        Ok(None) | Err(_) => false,
    }
}

fn becomes(alloc: Global, line: &str, want: &str) -> bool {
    match read_words(alloc, line) {
        Ok(constraint) => is_written(alloc, &constraint, want),
        Err(_) => false,
    }
}

fn is_refused(alloc: Global, text: &str, want: WordsFault) -> bool {
    match read_words(alloc, text) {
        Ok(_) => false,
        Err(fault) => fault == want,
    }
}

#[test]
fn lines_ask_queries_and_are_written_or_refused(rt: HostRuntime) {
    let alloc = rt.alloc();
    for (line, query) in ASKED {
        assert!(rt; asks(alloc, line, query), "{line}");
    }
    for (line, want) in WRITTEN {
        assert!(rt; becomes(alloc, line, want), "{line}");
    }
    for (text, at) in BROKEN {
        assert!(rt; is_refused(alloc, text, WordsFault::Bad { at }), "{text}");
    }
    assert!(rt; is_refused(alloc, DEEP, WordsFault::TooDeep));
}
