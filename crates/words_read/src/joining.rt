//! Constraints that are made of others.
ghost use Rattle.std.specs.Prelude.{◌≡◌, IfOk};
ghost use Rattle.search_query.specs.View.{view};
ghost use Rattle.search_words.specs.Asking.{joins, negation};

use blobref::NoMemory;
use search_query::{Constraint, Logical, Op};
use std::alloc::Global;

pub(crate) fn joined(
    alloc: Global,
    op: Op,
    a: Constraint,
    b: Constraint,
) -> Result<Constraint, NoMemory>
    ensures { IfOk result (λ c. view c ≡ joins op (view a) (view b)) }
{
    let a = Box::new(alloc, a)?;
    let b = Box::new(alloc, b)?;
    Ok(Constraint {
        logical: Some(Logical {
            op: Some(op),
            a: Some(a),
            b: Some(b),
        }),
        anything: None,
        camli_type: None,
        blob_ref_prefix: None,
        blob_size: None,
        file: None,
        permanode: None,
    })
}

pub(crate) fn negated(alloc: Global, a: Constraint) -> Result<Constraint, NoMemory>
    ensures { IfOk result (λ c. view c ≡ negation (view a)) }
{
    let a = Box::new(alloc, a)?;
    Ok(Constraint {
        logical: Some(Logical {
            op: Some(Op::Not),
            a: Some(a),
            b: None,
        }),
        anything: None,
        camli_type: None,
        blob_ref_prefix: None,
        blob_size: None,
        file: None,
        permanode: None,
    })
}
