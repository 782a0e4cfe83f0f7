//! Queries as values.
ghost use Rattle.std.specs.Prelude.{◌≢◌, ◌≡◌, [], IfOk};
ghost use Rattle.search_query.specs.Queries.{value_query};
ghost use Rattle.search_query.specs.Valid.{IsValid};

use blobref::{NoMemory, Text};
use schema_date::{Date, When};
use std::alloc::Global;

/// The order of an answer.
#[derive(Clone, Copy, PartialEq, Eq)]
pub enum Sort {
    /// Ascending by blobref.
    Ref,
    /// Ascending by the date of the last change, then by blobref; what was never changed comes first.
    Mod,
    /// Descending by the date of the last change, then ascending by blobref; what was never changed comes last.
    ModDown,
}

/// How two constraints are joined (`docs/search.md`).
#[derive(Clone, Copy, PartialEq, Eq)]
pub enum Op {
    And,
    Or,
    /// Exactly one of the two holds.
    Xor,
    /// The one constraint doesn't hold.
    Not,
}

/// Which permanodes a relation is about (`docs/search.md`).
#[derive(Clone, Copy, PartialEq, Eq)]
pub enum Kin {
    /// Those that have the permanode as a member.
    Parent,
    /// The members of the permanode.
    Child,
}

/// A test of a whole number (`docs/search.md`): it is between the two, both included.
#[derive(Clone, Copy, PartialEq, Eq)]
pub struct IntTest {
    pub min: Option<u64>,
    pub max: Option<u64>,
}

/// A test of a text, byte by byte (`docs/search.md`). All that is present must hold together.
#[derive(Drop)]
pub struct TextTest {
    pub equals: Option<Text>,
    pub contains: Option<Text>,
    pub has_prefix: Option<Text>,
    pub has_suffix: Option<Text>,
    /// Whether it is the empty text.
    pub empty: Option<bool>,
    /// A test of its length in bytes.
    pub byte_length: Option<IntTest>,
}

/// A test of a file (`docs/search.md`). All that is present must hold together.
#[derive(Drop)]
pub struct FileTest {
    pub file_name: Option<TextTest>,
    pub file_size: Option<IntTest>,
}

/// What a blob has to meet (`docs/search.md`). All that is present must hold together.
#[cycle(constraint)]
#[derive(Drop)]
pub struct Constraint {
    pub logical: Option<Logical>,
    /// True, where it is present in a valid query: it holds for each blob.
    pub anything: Option<bool>,
    pub camli_type: Option<Text>,
    pub blob_ref_prefix: Option<Text>,
    pub blob_size: Option<IntTest>,
    pub file: Option<FileTest>,
    pub permanode: Option<PermanodeTest>,
}

/// Constraints that are joined (`docs/search.md`). In a valid query `op` and `a` are present, and `b` exactly where
/// `op` isn't `Not`.
#[cycle(constraint)]
#[derive(Drop)]
pub struct Logical {
    pub op: Option<Op>,
    pub a: Option<Box<Constraint>>,
    pub b: Option<Box<Constraint>>,
}

/// What a permanode has to meet (`docs/search.md`). All that is present must hold together.
#[cycle(constraint)]
#[derive(Drop)]
pub struct PermanodeTest {
    /// The date at which claims are looked at, in place of the query's time.
    pub at: Option<Date>,
    /// The attribute whose values are looked at: there is one, if nothing else is asked.
    pub attr: Option<Text>,
    /// One of the values is this one.
    pub value: Option<Text>,
    /// One of the values meets this test.
    pub value_matches: Option<TextTest>,
    /// One of the values is the text of a ref that meets this constraint.
    pub value_in_set: Option<Box<Constraint>>,
    /// A test of how many values there are.
    pub num_value: Option<IntTest>,
    pub relation: Option<Relation>,
}

/// What some or all of the permanodes that stand in a relation have to meet (`docs/search.md`). In a valid query
/// `relation` is present, and exactly one of `any` and `all`.
#[cycle(constraint)]
#[derive(Drop)]
pub struct Relation {
    pub relation: Option<Kin>,
    pub any: Option<Box<Constraint>>,
    pub all: Option<Box<Constraint>>,
}

/// A query (`docs/search.md`): the permanodes that meet a constraint at a time, in an order, the first `limit` of them.
#[derive(Drop)]
pub struct Query {
    pub constraint: Constraint,
    pub limit: u32,
    pub sort: Sort,
    pub at: When,
}

impl Query {
    /// The query for the permanodes whose attribute has the value at that time: at most 1,000,000, ascending by
    /// blobref.
    pub fn for_value(alloc: Global, attr: &str, value: &str, at: When) -> Result<Query, NoMemory>
        requires { attr.now ≢ [] }
        ensures asked { IfOk result (λ query. query ≡ value_query attr.now value.now at) }
        ensures valid { IfOk result IsValid }
    {
        let test = PermanodeTest {
            at: None,
            attr: Some(Text::copy(alloc, attr)?),
            value: Some(Text::copy(alloc, value)?),
            value_matches: None,
            value_in_set: None,
            num_value: None,
            relation: None,
        };
        Ok(Query {
            constraint: Constraint {
                logical: None,
                anything: None,
                camli_type: None,
                blob_ref_prefix: None,
                blob_size: None,
                file: None,
                permanode: Some(test),
            },
            limit: 1_000_000,
            sort: Sort::Ref,
            at,
        })
    }
}
