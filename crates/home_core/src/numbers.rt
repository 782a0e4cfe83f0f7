//! Lists of numbers.
ghost use Rattle.std.specs.Prelude.{◌≡◌, ◌++◌, ◌∷◌, [], IfOk, OnOk, find};
ghost use Rattle.std.specs.List.{filter_map};
ghost use Rattle.home_core.specs.State.{has, is_in_neither, numbers_below, unless_among, without};

use blobref::NoMemory;
use std::alloc::Global;

/// Whether a number stands in a list.
pub(crate) fn has(numbers: &[u64], n: u64) -> bool
    ensures { result ≡ has n numbers.now }
{
    numbers.contains(&n)
}

/// The numbers of a list that aren't among others.
pub(crate) fn without(alloc: Global, others: &[u64], numbers: &[u64]) -> Result<Vec<u64>, NoMemory>
    ensures { IfOk result (λ rest. rest.items ≡ without others.now numbers.now) }
{
    let rest = kept(alloc, others, numbers)?;
    Ok(rest)
}

fn kept(alloc: Global, others: &[u64], numbers: &[u64]) -> Result<Vec<u64>, NoMemory>
    ensures { IfOk result (λ rest. rest.items ≡ filter_map (unless_among others.now) numbers.now) }
{
    let rest = numbers
        .iter()
        .filter_map(|n| unless_among(others, *n))
        .collect(alloc)?;
    Ok(rest)
}

fn unless_among(others: &[u64], n: u64) -> Option<u64>
    ensures { result ≡ unless_among others.now n }
{
    if has(others, n) { None } else { Some(n) }
}

/// The numbers below a bound that aren't in a list, ascending.
pub(crate) fn unlisted_below(
    alloc: Global,
    listed: &[u64],
    bound: u64,
) -> Result<Vec<u64>, NoMemory>
    ensures { IfOk result (λ rest. rest.items ≡ without listed.now (numbers_below bound)) }
{
    let mut rest = Vec::new(alloc);
    'numbers: for n in 0..bound {
        keep_unlisted(listed, n, &mut rest)?;
    }
    Ok(rest)
}

fn keep_unlisted(listed: &[u64], n: u64, rest: &mut Vec<u64>) -> Result<(), NoMemory>
    ensures { OnOk result (rest.new.items ≡ rest.old.items ++ without listed.now (n ∷ [])) }
{
    if !has(listed, n) {
        rest.push(n)?;
    }
    Ok(())
}

/// The least number below a bound that stands in neither list.
pub(crate) fn least_in_neither(one: &[u64], other: &[u64], bound: u64) -> Option<u64>
    ensures { result ≡ find (is_in_neither one.now other.now) (numbers_below bound) }
{
    'numbers: for n in 0..bound {
        if is_in_neither(one, other, n) {
            return Some(n);
        }
    }
    None
}

fn is_in_neither(one: &[u64], other: &[u64], n: u64) -> bool
    ensures { result ≡ is_in_neither one.now other.now n }
{
    !has(one, n) && !has(other, n)
}
