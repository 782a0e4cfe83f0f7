//! The constraints that single search words ask.
ghost use Rattle.std.specs.Prelude.{◌≡◌, IfOk};
ghost use Rattle.search_query.specs.Mirror.{asked, no_logical};
ghost use Rattle.search_query.specs.View.{view, permanode_view};
ghost use Rattle.search_words.specs.Asking.{no_leaves, has_prefix, children_of, attr_asked, title_asked};

use blobref::{NoMemory, Text};
use search_query::{Constraint, Kin, PermanodeTest, Relation, TextTest};
use std::alloc::Global;

pub(crate) fn prefixed(v: Text) -> Constraint
    ensures { view result ≡ has_prefix v }
{
    Constraint {
        logical: None,
        anything: None,
        camli_type: None,
        blob_ref_prefix: Some(v),
        blob_size: None,
        file: None,
        permanode: None,
    }
}

pub(crate) fn tested(test: PermanodeTest) -> Constraint
    ensures { view result ≡ asked no_logical no_leaves (permanode_view test) }
{
    Constraint {
        logical: None,
        anything: None,
        camli_type: None,
        blob_ref_prefix: None,
        blob_size: None,
        file: None,
        permanode: Some(test),
    }
}

pub(crate) fn attributed(name: Text, value: Option<Text>) -> Constraint
    ensures { view result ≡ attr_asked name value }
{
    tested(PermanodeTest {
        at: None,
        attr: Some(name),
        value,
        value_matches: None,
        value_in_set: None,
        num_value: None,
        relation: None,
    })
}

pub(crate) fn titled(name: Text, v: Text) -> Constraint
    ensures { view result ≡ title_asked name v }
{
    tested(PermanodeTest {
        at: None,
        attr: Some(name),
        value: None,
        value_matches: Some(TextTest {
            equals: None,
            contains: Some(v),
            has_prefix: None,
            has_suffix: None,
            empty: None,
            byte_length: None,
        }),
        value_in_set: None,
        num_value: None,
        relation: None,
    })
}

pub(crate) fn children(alloc: Global, r: Text) -> Result<Constraint, NoMemory>
    ensures { IfOk result (λ c. view c ≡ children_of r) }
{
    let any = Box::new(alloc, prefixed(r))?;
    Ok(tested(PermanodeTest {
        at: None,
        attr: None,
        value: None,
        value_matches: None,
        value_in_set: None,
        num_value: None,
        relation: Some(Relation {
            relation: Some(Kin::Parent),
            any: Some(any),
            all: None,
        }),
    }))
}
