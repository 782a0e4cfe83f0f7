//! Tests of numbers, texts and files.
ghost use Rattle.std.specs.Prelude.{◌≡◌, ◌++◌, IfSome, OnOk, option_map};
ghost use Rattle.query_text.specs.Text.{int_test_item, text_test_item, file_test_item};
ghost use Rattle.query_text.specs.Laws.{HoldsFile, HoldsInt, HoldsText};
ghost use Rattle.query_text.specs.Pairs.{field_text};

use crate::fields::{close_object, number_field, push_key, text_field, truth_field};
use blobref::NoMemory;
use search_query::{FileTest, IntTest, TextTest};
use std::alloc::Global;

fn push_int_test(alloc: Global, out: &mut Vec<u8>, test: &IntTest) -> Result<(), NoMemory>
    ensures written { OnOk result (out.new.items ≡ out.old.items ++ (int_test_item test.now).text) }
    ensures holds { OnOk result (HoldsInt test.now) }
{
    let start = out.len();
    number_field(alloc, out, "min", test.min)?;
    number_field(alloc, out, "max", test.max)?;
    close_object(out, start)
}

pub(crate) fn int_test_field(
    alloc: Global,
    out: &mut Vec<u8>,
    key: &str,
    test: &Option<IntTest>,
) -> Result<(), NoMemory>
    ensures written { OnOk result (out.new.items
        ≡ out.old.items ++ field_text key.now (option_map int_test_item test.now)) }
    ensures holds { OnOk result (IfSome test.now HoldsInt) }
{
    let Some(test) = test else {
        return Ok(());
    };
    push_key(alloc, out, key)?;
    push_int_test(alloc, out, test)
}

fn push_text_test(alloc: Global, out: &mut Vec<u8>, test: &TextTest) -> Result<(), NoMemory>
    ensures written { OnOk result (out.new.items ≡ out.old.items ++ (text_test_item test.now).text) }
    ensures holds { OnOk result (HoldsText test.now) }
{
    let start = out.len();
    text_field(alloc, out, "equals", &test.equals)?;
    text_field(alloc, out, "contains", &test.contains)?;
    text_field(alloc, out, "hasPrefix", &test.has_prefix)?;
    text_field(alloc, out, "hasSuffix", &test.has_suffix)?;
    truth_field(alloc, out, "empty", test.empty)?;
    int_test_field(alloc, out, "byteLength", &test.byte_length)?;
    close_object(out, start)
}

pub(crate) fn text_test_field(
    alloc: Global,
    out: &mut Vec<u8>,
    key: &str,
    test: &Option<TextTest>,
) -> Result<(), NoMemory>
    ensures written { OnOk result (out.new.items
        ≡ out.old.items ++ field_text key.now (option_map text_test_item test.now)) }
    ensures holds { OnOk result (IfSome test.now HoldsText) }
{
    let Some(test) = test else {
        return Ok(());
    };
    push_key(alloc, out, key)?;
    push_text_test(alloc, out, test)
}

fn push_file_test(alloc: Global, out: &mut Vec<u8>, test: &FileTest) -> Result<(), NoMemory>
    ensures written { OnOk result (out.new.items ≡ out.old.items ++ (file_test_item test.now).text) }
    ensures holds { OnOk result (HoldsFile test.now) }
{
    let start = out.len();
    text_test_field(alloc, out, "fileName", &test.file_name)?;
    int_test_field(alloc, out, "fileSize", &test.file_size)?;
    close_object(out, start)
}

pub(crate) fn file_test_field(
    alloc: Global,
    out: &mut Vec<u8>,
    key: &str,
    test: &Option<FileTest>,
) -> Result<(), NoMemory>
    ensures written { OnOk result (out.new.items
        ≡ out.old.items ++ field_text key.now (option_map file_test_item test.now)) }
    ensures holds { OnOk result (IfSome test.now HoldsFile) }
{
    let Some(test) = test else {
        return Ok(());
    };
    push_key(alloc, out, key)?;
    push_file_test(alloc, out, test)
}
