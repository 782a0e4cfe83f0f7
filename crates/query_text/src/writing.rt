//! The text of a query.
ghost use Rattle.std.specs.Prelude.{◌≡◌, ◌++◌, IfOk, IfSome, None, OnOk, Some, option_map};
ghost use Rattle.search_query.specs.Valid.{IsValid};
ghost use Rattle.search_query.specs.View.{question};
ghost use Rattle.query_read.specs.Reading.{asks_for, first_fault};
ghost use Rattle.query_text.specs.Text.{Spelling, SpellsDates, sort_name, date_of, date_item, query_text};
ghost use Rattle.query_text.specs.Laws.{HasText, HoldsQuestion};
ghost use Rattle.query_text.specs.Pairs.{field_text};

use crate::constraints::constraint_pair;
use crate::fields::{close_object, date_pair, number_pair, text_pair};
use blobref::{NoMemory, Octets};
use schema_date::When;
use search_query::{Query, Sort};
use std::alloc::Global;

fn sort_name(sort: Sort) -> &'static str
    ensures { result.now ≡ sort_name sort }
{
    match sort {
        Sort::Ref => "blobref",
        Sort::Mod => "mod",
        Sort::ModDown => "-mod",
    }
}

fn when_field(alloc: Global, out: &mut Vec<u8>, key: &str, when: &When) -> Result<(), NoMemory>
    ensures written { OnOk result ((spell : Spelling) → SpellsDates spell →
        out.new.items ≡ out.old.items ++ field_text key.now (option_map (date_item spell) (date_of when.now))) }
    ensures holds { OnOk result (IfSome (date_of when.now) HasText) }
{
    match when {
        When::Always => Ok(()),
        When::At(date) => date_pair(alloc, out, key, date),
    }
}

/// The text of a query (`docs/formats/queries.md`): compact JSON, which `query_read` reads as that query where it is
/// valid. Each date stands as its one written text.
pub fn text(alloc: Global, query: &Query) -> Result<Octets, NoMemory>
    ensures written { IfOk result (λ text. (spell : Spelling) → SpellsDates spell →
        text ≡ query_text spell (question query.now)) }
    ensures holds { OnOk result (HoldsQuestion (question query.now)) }
    ensures read { IfOk result (λ text. IsValid query.now
        → (first_fault text ≡ None) × (asks_for text ≡ Some (question query.now))) }
{
    let mut out = Vec::new(alloc);
    constraint_pair(alloc, &mut out, "constraint", &query.constraint)?;
    number_pair(alloc, &mut out, "limit", u64::from(query.limit))?;
    text_pair(alloc, &mut out, "sort", sort_name(query.sort))?;
    when_field(alloc, &mut out, "at", &query.at)?;
    close_object(&mut out, 0)?;
    Ok(Octets::from_vec(out))
}
