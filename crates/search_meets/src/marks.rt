//! Marks: what is said of each of some refs, in their order.
ghost use Rattle.std.specs.Prelude.{◌≡◌, ◌∷◌, ℕ, List, Bool, true, map, filter, zip, IfOk, IfSome};
ghost use Rattle.search_meets.specs.Computed.{spread};
ghost use Rattle.search_meets.specs.Meaning.{joins};

use blobref::{NoMemory, Ref, RefList, RefSet};
use search_query::Op;
use std::alloc::Global;

fn join(op: Option<Op>, a: bool, b: bool) -> bool
    ensures { result ≡ joins op a b }
{
    match op {
        None => true,
        Some(Op::And) => a && b,
        Some(Op::Or) => a || b,
        Some(Op::Xor) => a != b,
        Some(Op::Not) => !a,
    }
}

// Marks of the same refs, joined.
pub(crate) fn joined(
    alloc: Global,
    op: Option<Op>,
    a: &[bool],
    b: &[bool],
) -> Result<Vec<bool>, NoMemory>
    ensures { IfOk result (λ m. m.items ≡ map (λ p. joins op p.0 p.1) (zip a.now b.now)) }
{
    Ok(
        a.iter()
            .zip(b)
            .map(|(x, y)| join(op, *x, *y))
            .collect(alloc)?,
    )
}

pub(crate) fn trues<T>(alloc: Global, items: &[T]) -> Result<Vec<bool>, NoMemory>
    ensures { IfOk result (λ m. m.items ≡ map (λ x. true) items.now) }
{
    Ok(items.iter().map(|_| true).collect(alloc)?)
}

// The refs that a mark is true of.
pub(crate) fn chosen(alloc: Global, refs: &[Ref], marks: &[bool]) -> Result<Vec<Ref>, NoMemory>
    ensures { IfOk result (λ c. c.items ≡ map (λ p. p.0) (filter (λ p. p.1) (zip refs.now marks.now))) }
{
    Ok(
        refs.iter()
            .zip(marks)
            .filter(|(_, mark)| **mark)
            .map(|(r, _)| *r)
            .collect(alloc)?,
    )
}

// The mark of a ref, the next of those given if an earlier mark is true of it, and the marks behind.
fn next_mark(mark: bool, more: &[bool]) -> (bool, &[bool])
    ensures { (marks : List Bool) → result.0 ∷ spread marks result.1.now ≡ spread (mark ∷ marks) more.now }
{
    if !mark {
        return (false, more);
    }
    match more.split_first() {
        None => (false, more),
        Some((next, rest)) => (*next, rest),
    }
}

// Marks of those refs alone that an earlier mark is true of, put beside the earlier ones.
pub(crate) fn spread(alloc: Global, marks: &[bool], more: &[bool]) -> Result<Vec<bool>, NoMemory>
    ensures { IfOk result (λ m. m.items ≡ spread marks.now more.now) }
{
    let mut out = Vec::new(alloc);
    let mut rest = more;
    for mark in marks {
        let (next, left) = next_mark(*mark, rest);
        out.push(next)?;
        rest = left;
    }
    Ok(out)
}

// What is said of a ref, where it stands among the refs.
pub(crate) fn said(refs: &RefSet, marks: &[bool], r: &Ref) -> Option<bool>
    ensures { (f : List ℕ → Bool) → marks.now ≡ map f refs.now → IfSome result (λ b. b ≡ f r.now) }
{
    let place = refs.place(r)?;
    marks.get(place).copied()
}

// The refs of some lists.
pub(crate) fn gathered(alloc: Global, lists: &[RefList]) -> Result<RefSet, NoMemory> {
    let mut all = RefList::empty(alloc);
    for refs in lists {
        for r in refs.as_slice() {
            all.push(*r)?;
        }
    }
    RefSet::of(all)
}
