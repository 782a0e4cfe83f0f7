//! The query for a value.
use blobref::{NoMemory, Text};
use schema_date::When;
use search_query::{Query, Sort};
use std::alloc::Global;

fn is_text(text: &Option<Text>, want: &str) -> bool {
    match text {
        Some(text) => text.as_str() == want,
        None => false,
    }
}

// Whether the query asks for the tag `a` at any date, and for as many as the commands answer.
fn is_for_value(query: &Query) -> bool {
    let Some(test) = &query.constraint.permanode else {
        return false;
    };
    query.limit == 1_000_000
        && query.sort == Sort::Ref
        && query.at == When::Always
        && is_text(&test.attr, "tag")
        && is_text(&test.value, "a")
}

fn asks_for_value(alloc: Global) -> Result<bool, NoMemory> {
    Ok(is_for_value(&Query::for_value(alloc, "tag", "a", When::Always)?))
}

#[test]
fn a_value_is_asked_for(rt: HostRuntime) -> Result<(), NoMemory> {
    assert!(rt; asks_for_value(rt.alloc())?);
    Ok(())
}
