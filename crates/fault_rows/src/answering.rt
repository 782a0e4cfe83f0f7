//! What an index answers.

use crate::{Fault, print};
use answer_text::search_text;
use index_look::Look;
use search_eval::answer_of;
use search_query::Query;

/// Prints the answer of an index to a query, by its text, on a line.
pub(crate) fn print_answer<K: Look>(rt: &HostRuntime, look: &K, text: &[u8]) -> Result<(), Fault> {
    let query = query_read::read(rt.alloc(), text).map_err(|_| Fault::Words)?;
    print_found(rt, look, &query)
}

fn print_found<K: Look>(rt: &HostRuntime, look: &K, query: &Query) -> Result<(), Fault> {
    let refs = answer_of(rt.alloc(), look, query)?;
    print(rt, search_text(rt.alloc(), &refs)?.as_slice())?;
    print(rt, b"\n")
}
