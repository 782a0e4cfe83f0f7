//! Constraints, as fields of the objects around them.
ghost use Rattle.std.specs.Prelude.{◌≡◌, ◌++◌, OnOk};
ghost use Rattle.search_query.specs.View.{view, logical_seen, logical_view, permanode_seen, permanode_view, relation_seen, relation_view, asked_view};
ghost use Rattle.query_text.specs.Text.{Spelling, SpellsDates, asked_item, joined_item, tested_item, related_item};
ghost use Rattle.query_text.specs.Laws.{Holds, HoldsJoined, HoldsTested, HoldsRelated};
ghost use Rattle.query_text.specs.Pairs.{field_text};

use crate::fields::{
    close_object, date_field, kin_field, op_field, push_key, text_field, truth_field,
};
use crate::value_tests::{file_test_field, int_test_field, text_test_field};
use blobref::NoMemory;
use search_query::{Constraint, Logical, PermanodeTest, Relation};
use std::alloc::Global;

#[cycle(write)]
pub(crate) fn constraint_pair(
    alloc: Global,
    out: &mut Vec<u8>,
    key: &str,
    constraint: &Constraint,
) -> Result<(), NoMemory>
    ensures written { OnOk result ((spell : Spelling) → SpellsDates spell →
        out.new.items ≡ out.old.items ++ field_text key.now (asked_item spell (view constraint.now))) }
    ensures holds { OnOk result (Holds (view constraint.now)) }
{
    push_key(alloc, out, key)?;
    let start = out.len();
    logical_field(alloc, out, "logical", &constraint.logical)?;
    truth_field(alloc, out, "anything", constraint.anything)?;
    text_field(alloc, out, "camliType", &constraint.camli_type)?;
    text_field(alloc, out, "blobRefPrefix", &constraint.blob_ref_prefix)?;
    int_test_field(alloc, out, "blobSize", &constraint.blob_size)?;
    file_test_field(alloc, out, "file", &constraint.file)?;
    permanode_field(alloc, out, "permanode", &constraint.permanode)?;
    close_object(out, start)
}

#[cycle(write)]
fn constraint_field(
    alloc: Global,
    out: &mut Vec<u8>,
    key: &str,
    constraint: &Option<Box<Constraint>>,
) -> Result<(), NoMemory>
    ensures written { OnOk result ((spell : Spelling) → SpellsDates spell →
        out.new.items ≡ out.old.items ++ field_text key.now (asked_item spell (asked_view constraint.now))) }
    ensures holds { OnOk result (Holds (asked_view constraint.now)) }
{
    match constraint {
        None => Ok(()),
        Some(constraint) => constraint_pair(alloc, out, key, constraint),
    }
}

#[cycle(write)]
fn logical_pair(
    alloc: Global,
    out: &mut Vec<u8>,
    key: &str,
    logical: &Logical,
) -> Result<(), NoMemory>
    ensures written { OnOk result ((spell : Spelling) → SpellsDates spell →
        out.new.items ≡ out.old.items ++ field_text key.now (joined_item spell (logical_view logical.now))) }
    ensures holds { OnOk result (HoldsJoined (logical_view logical.now)) }
{
    push_key(alloc, out, key)?;
    let start = out.len();
    op_field(alloc, out, "op", logical.op)?;
    constraint_field(alloc, out, "a", &logical.a)?;
    constraint_field(alloc, out, "b", &logical.b)?;
    close_object(out, start)
}

#[cycle(write)]
fn logical_field(
    alloc: Global,
    out: &mut Vec<u8>,
    key: &str,
    logical: &Option<Logical>,
) -> Result<(), NoMemory>
    ensures written { OnOk result ((spell : Spelling) → SpellsDates spell →
        out.new.items ≡ out.old.items ++ field_text key.now (joined_item spell (logical_seen logical.now))) }
    ensures holds { OnOk result (HoldsJoined (logical_seen logical.now)) }
{
    match logical {
        None => Ok(()),
        Some(logical) => logical_pair(alloc, out, key, logical),
    }
}

#[cycle(write)]
fn permanode_pair(
    alloc: Global,
    out: &mut Vec<u8>,
    key: &str,
    test: &PermanodeTest,
) -> Result<(), NoMemory>
    ensures written { OnOk result ((spell : Spelling) → SpellsDates spell →
        out.new.items ≡ out.old.items ++ field_text key.now (tested_item spell (permanode_view test.now))) }
    ensures holds { OnOk result (HoldsTested (permanode_view test.now)) }
{
    push_key(alloc, out, key)?;
    let start = out.len();
    date_field(alloc, out, "at", &test.at)?;
    text_field(alloc, out, "attr", &test.attr)?;
    text_field(alloc, out, "value", &test.value)?;
    text_test_field(alloc, out, "valueMatches", &test.value_matches)?;
    constraint_field(alloc, out, "valueInSet", &test.value_in_set)?;
    int_test_field(alloc, out, "numValue", &test.num_value)?;
    relation_field(alloc, out, "relation", &test.relation)?;
    close_object(out, start)
}

#[cycle(write)]
fn permanode_field(
    alloc: Global,
    out: &mut Vec<u8>,
    key: &str,
    test: &Option<PermanodeTest>,
) -> Result<(), NoMemory>
    ensures written { OnOk result ((spell : Spelling) → SpellsDates spell →
        out.new.items ≡ out.old.items ++ field_text key.now (tested_item spell (permanode_seen test.now))) }
    ensures holds { OnOk result (HoldsTested (permanode_seen test.now)) }
{
    match test {
        None => Ok(()),
        Some(test) => permanode_pair(alloc, out, key, test),
    }
}

#[cycle(write)]
fn relation_pair(
    alloc: Global,
    out: &mut Vec<u8>,
    key: &str,
    relation: &Relation,
) -> Result<(), NoMemory>
    ensures written { OnOk result ((spell : Spelling) → SpellsDates spell →
        out.new.items ≡ out.old.items ++ field_text key.now (related_item spell (relation_view relation.now))) }
    ensures holds { OnOk result (HoldsRelated (relation_view relation.now)) }
{
    push_key(alloc, out, key)?;
    let start = out.len();
    kin_field(alloc, out, "relation", relation.relation)?;
    constraint_field(alloc, out, "any", &relation.any)?;
    constraint_field(alloc, out, "all", &relation.all)?;
    close_object(out, start)
}

#[cycle(write)]
fn relation_field(
    alloc: Global,
    out: &mut Vec<u8>,
    key: &str,
    relation: &Option<Relation>,
) -> Result<(), NoMemory>
    ensures written { OnOk result ((spell : Spelling) → SpellsDates spell →
        out.new.items ≡ out.old.items ++ field_text key.now (related_item spell (relation_seen relation.now))) }
    ensures holds { OnOk result (HoldsRelated (relation_seen relation.now)) }
{
    match relation {
        None => Ok(()),
        Some(relation) => relation_pair(alloc, out, key, relation),
    }
}
