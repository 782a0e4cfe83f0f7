//! Constraints that are one search word.
ghost use Rattle.std.specs.Prelude.{◌≡◌, ◌++◌, codes, option_map, OnOk};
ghost use Rattle.search_query.specs.View.{view, permanode_view, permanode_seen, relation_view, leaves_of, test_leaves_of};
ghost use Rattle.search_query.specs.declared.query.Constraint.TheViews.{out-Constraint, out-PermanodeTest};
ghost use Rattle.words_write.specs.Writing.{text_of, attr_line, named, value_line, title_line, contains_only, attr_word, prefix_only, child_word, related_word, no_other, none_of, tested_word, ref_line, word_of};
ghost use Rattle.words_write.specs.Pushing.{word_line};

use crate::text::push_text;
use blobref::{NoMemory, Ref, Text};
use search_query::{Constraint, Kin, PermanodeTest, Relation, TextTest};
use search_words::Buffer;

/// A word, by its texts.
pub(crate) enum Word<'a> {
    Tag(&'a str),
    Title(&'a str),
    Attr(&'a str, &'a str),
    Has(&'a str),
    Ref(&'a str),
    ChildrenOf(&'a str),
}

/// The word that asks what a constraint asks, if one does.
pub(crate) fn word_of(constraint: &Constraint) -> Option<Word<'_>>
    ensures { option_map word_line result
        ≡ word_of (leaves_of (out-Constraint constraint.now))
        (permanode_seen (out-Constraint constraint.now).permanode) }
{
    if !prefix_only(constraint) {
        return None;
    }
    match &constraint.permanode {
        None => ref_word(&constraint.blob_ref_prefix),
        Some(test) if constraint.blob_ref_prefix.is_none() => tested_word(test),
        Some(_) => None,
    }
}

/// Whether nothing is asked beside `logical` and `permanode` but how the ref begins.
pub(crate) fn prefix_only(constraint: &Constraint) -> bool
    ensures { result ≡ prefix_only (leaves_of (out-Constraint constraint.now)) }
{
    constraint.anything.is_none()
        && constraint.camli_type.is_none()
        && constraint.blob_size.is_none()
        && constraint.file.is_none()
}

fn ref_word(begins: &Option<Text>) -> Option<Word<'_>>
    ensures { option_map word_line result ≡ ref_line begins.now }
{
    match begins {
        None => None,
        Some(text) => Some(Word::Ref(text.as_str())),
    }
}

fn tested_word(test: &PermanodeTest) -> Option<Word<'_>>
    ensures { option_map word_line result ≡ tested_word (permanode_view test.now) }
{
    if test.value_in_set.is_some() {
        return None;
    }
    match &test.relation {
        None if no_other(test) => attr_word(&test.attr, &test.value, &test.value_matches),
        Some(relation) if none_of(test) => related_word(relation),
        _ => None,
    }
}

fn no_other(test: &PermanodeTest) -> bool
    ensures { result ≡ no_other (test_leaves_of (out-PermanodeTest test.now)) }
{
    test.at.is_none() && test.num_value.is_none()
}

fn none_of(test: &PermanodeTest) -> bool
    ensures { result ≡ none_of (test_leaves_of (out-PermanodeTest test.now)) }
{
    test.at.is_none()
        && test.attr.is_none()
        && test.value.is_none()
        && test.value_matches.is_none()
        && test.num_value.is_none()
}

fn related_word(relation: &Relation) -> Option<Word<'_>>
    ensures { option_map word_line result ≡ related_word (relation_view relation.now) }
{
    if relation.all.is_some() {
        return None;
    }
    match (relation.relation, &relation.any) {
        (Some(Kin::Parent), Some(any)) => child_word(any),
        _ => None,
    }
}

fn child_word(any: &Constraint) -> Option<Word<'_>>
    ensures { option_map word_line result ≡ child_word (view any.now) }
{
    if any.logical.is_some() || any.permanode.is_some() || !prefix_only(any) {
        return None;
    }
    match &any.blob_ref_prefix {
        Some(text) if Ref::read(text.as_bytes()).is_some() => Some(Word::ChildrenOf(text.as_str())),
        _ => None,
    }
}

fn attr_word<'a>(
    name: &'a Option<Text>,
    value: &'a Option<Text>,
    matches: &'a Option<TextTest>,
) -> Option<Word<'a>>
    ensures { option_map word_line result ≡ attr_word name.now value.now matches.now }
{
    let Some(name) = name else {
        return None;
    };
    match (value, matches) {
        (None, None) => has_word(name.as_str()),
        (Some(value), None) => value_word(name.as_str(), value.as_str()),
        (None, Some(matches)) => title_word(name.as_str(), matches),
        (Some(_), Some(_)) => None,
    }
}

fn has_word(name: &str) -> Option<Word<'_>>
    ensures { option_map word_line result ≡ named name.now (codes "has:" ++ text_of name.now) }
{
    if name.is_empty() {
        return None;
    }
    Some(Word::Has(name))
}

fn value_word<'a>(name: &'a str, value: &'a str) -> Option<Word<'a>>
    ensures { option_map word_line result ≡ value_line name.now value.now }
{
    if name == "tag" {
        return Some(Word::Tag(value));
    }
    if name.is_empty() {
        return None;
    }
    Some(Word::Attr(name, value))
}

fn title_word<'a>(name: &str, test: &'a TextTest) -> Option<Word<'a>>
    ensures { option_map word_line result ≡ title_line name.now test.now.contains (contains_only test.now) }
{
    let Some(text) = &test.contains else {
        return None;
    };
    if !contains_only(test) || name != "title" {
        return None;
    }
    Some(Word::Title(text.as_str()))
}

fn contains_only(test: &TextTest) -> bool
    ensures { result ≡ contains_only test.now }
{
    test.equals.is_none()
        && test.has_prefix.is_none()
        && test.has_suffix.is_none()
        && test.empty.is_none()
        && test.byte_length.is_none()
}

/// Writes a word.
pub(crate) fn push_word(out: &mut Buffer, word: Word<'_>) -> Result<(), NoMemory>
    ensures { OnOk result (out.new ≡ out.old ++ word_line word.entry) }
{
    match word {
        Word::Tag(value) => push_part(out, "tag:", value),
        Word::Title(text) => push_part(out, "title:", text),
        Word::Attr(name, value) => push_attr(out, name, value),
        Word::Has(name) => push_part(out, "has:", name),
        Word::Ref(text) => push_part(out, "ref:", text),
        Word::ChildrenOf(text) => push_children(out, text),
    }
}

fn push_part(out: &mut Buffer, head: &str, text: &str) -> Result<(), NoMemory>
    ensures { OnOk result (out.new ≡ out.old ++ (head.now ++ text_of text.now)) }
{
    out.append(head)?;
    push_text(out, text)
}

fn push_attr(out: &mut Buffer, name: &str, value: &str) -> Result<(), NoMemory>
    ensures { OnOk result (out.new ≡ out.old ++ attr_line name.now value.now) }
{
    push_part(out, "attr:", name)?;
    push_part(out, ":", value)
}

fn push_children(out: &mut Buffer, text: &str) -> Result<(), NoMemory>
    ensures { OnOk result (out.new ≡ out.old ++ (codes "childrenof:" ++ text.now)) }
{
    out.append("childrenof:")?;
    out.append(text)
}
