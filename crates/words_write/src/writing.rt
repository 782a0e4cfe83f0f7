//! Writing a line of search words.
ghost use Rattle.std.specs.Prelude.{◌≡◌, ◌&&◌, not, is_none, IfOk};
ghost use Rattle.search_query.specs.View.{view, asked_view, is_asked, logical_view, permanode_seen, leaves_of};
ghost use Rattle.search_query.specs.declared.query.Constraint.TheViews.{out-Constraint, out-Logical};
ghost use Rattle.words_write.specs.Writing.{no_leaf, word_of, an_or, not_made, only_made, made, line_of};
ghost use Rattle.words_write.specs.Laws.{IsWritten};
ghost use Rattle.words_write.specs.Pushing.{Pushes, text_at, pair_text, joined_of};

use crate::rank::{Rank, needs_group};
use crate::word::{prefix_only, push_word, word_of};
use blobref::{NoMemory, Text};
use search_query::{Constraint, Logical, Op};
use search_words::Buffer;
use std::alloc::Global;

/// The line of search words that asks the constraint (`docs/formats/search_words.md`), with single spaces, texts bare
/// where they can be, and no more parentheses outside quotes than any line that asks the same. None exactly where no
/// line of any length asks it. The only error is want of memory. It takes time in the length of the line and in how
/// much of the constraint there is, and its calls nest as deep as the constraint: 32 levels of a query's at most.
pub fn words_of(alloc: Global, constraint: &Constraint) -> Result<Option<Text>, NoMemory>
    ensures line { IfOk result (λ line. line ≡ line_of (view constraint.now)) }
    ensures written { IfOk result (λ line. IsWritten (view constraint.now) line) }
{
    let mut line = Buffer::new(alloc);
    if !push_form(&mut line, constraint, Rank::Or)? {
        return Ok(None);
    }
    Ok(Some(line.text(alloc)?))
}

// Whether nothing is asked beside `logical`.
fn is_joined_alone(constraint: &Constraint) -> bool
    ensures { result ≡ (no_leaf (leaves_of (out-Constraint constraint.now))
        && is_none (out-Constraint constraint.now).permanode) }
{
    constraint.blob_ref_prefix.is_none()
        && prefix_only(constraint)
        && constraint.permanode.is_none()
}

// Each of these writes a part of the line, or says that no line asks it: then what it wrote counts for nothing.

#[cycle(push)]
fn push_form(out: &mut Buffer, constraint: &Constraint, least: Rank) -> Result<bool, NoMemory>
    ensures { IfOk result (Pushes (text_at least (made (view constraint.now))) out.old out.new) }
{
    match &constraint.logical {
        None => push_one(out, constraint),
        Some(logical) => {
            if !is_joined_alone(constraint) {
                return Ok(false);
            }
            push_joined(out, logical, least)
        }
    }
}

fn push_one(out: &mut Buffer, constraint: &Constraint) -> Result<bool, NoMemory>
    ensures { IfOk result (Pushes
        (word_of (leaves_of (out-Constraint constraint.now)) (permanode_seen (out-Constraint constraint.now).permanode))
        out.old out.new) }
{
    match word_of(constraint) {
        None => Ok(false),
        Some(word) => {
            push_word(out, word)?;
            Ok(true)
        }
    }
}

#[cycle(push)]
fn push_joined(out: &mut Buffer, logical: &Logical, least: Rank) -> Result<bool, NoMemory>
    ensures { IfOk result (Pushes (text_at least (joined_of (logical_view logical.now))) out.old out.new) }
{
    if !needs_group(logical.op, least) {
        return push_operands(out, logical);
    }
    out.append("(")?;
    if !push_operands(out, logical)? {
        return Ok(false);
    }
    out.append(")")?;
    Ok(true)
}

#[cycle(push)]
fn push_operands(out: &mut Buffer, logical: &Logical) -> Result<bool, NoMemory>
    ensures { IfOk result (Pushes (text_at an_or (joined_of (logical_view logical.now))) out.old out.new) }
{
    match logical.op {
        Some(Op::Or) => push_pair(out, logical, Rank::Or, " or ", Rank::And),
        Some(Op::And) => push_pair(out, logical, Rank::And, " ", Rank::Unit),
        Some(Op::Not) => push_negated(out, &logical.a, &logical.b),
        Some(Op::Xor) | None => Ok(false),
    }
}

#[cycle(push)]
fn push_pair(
    out: &mut Buffer,
    logical: &Logical,
    at_a: Rank,
    between: &str,
    at_b: Rank,
) -> Result<bool, NoMemory>
    ensures { IfOk result (Pushes (pair_text (text_at at_a (made (asked_view (out-Logical logical.now).a))) between.now
        (text_at at_b (made (asked_view (out-Logical logical.now).b)))) out.old out.new) }
{
    if !push_operand(out, &logical.a, at_a)? {
        return Ok(false);
    }
    out.append(between)?;
    push_operand(out, &logical.b, at_b)
}

#[cycle(push)]
fn push_negated(
    out: &mut Buffer,
    a: &Option<Box<Constraint>>,
    b: &Option<Box<Constraint>>,
) -> Result<bool, NoMemory>
    ensures { IfOk result (Pushes
        (text_at an_or (only_made (not (is_asked (asked_view b.now))) (not_made (made (asked_view a.now)))))
        out.old out.new) }
{
    if b.is_some() {
        return Ok(false);
    }
    out.append("-")?;
    push_operand(out, a, Rank::Atom)
}

#[cycle(push)]
fn push_operand(
    out: &mut Buffer,
    asked: &Option<Box<Constraint>>,
    least: Rank,
) -> Result<bool, NoMemory>
    ensures { IfOk result (Pushes (text_at least (made (asked_view asked.now))) out.old out.new) }
{
    match asked {
        None => Ok(false),
        Some(constraint) => push_form(out, constraint, least),
    }
}
