//! Tests of numbers, texts and files.
ghost use Rattle.std.specs.Prelude.{◌≡◌, ◌≢◌, IfOk, IfErr, Some, None};
ghost use Rattle.serde_json.specs.View.{view};
ghost use Rattle.query_read.specs.Faults.{Tells, below};
ghost use Rattle.query_read.specs.Grammar.{int_test_fault, text_test_fault, file_test_fault};
ghost use Rattle.query_read.specs.Values.{under, int_test_of, int_test_in, text_test_of, text_test_in, file_test_of, file_test_in};

use crate::fault::QueryFault;
use crate::leaves::{text_under, truth_under, whole_under};
use crate::objects::{bad_value, has_any, join, shape};
use search_query::{FileTest, IntTest, TextTest};
use serde_json::Value;
use std::alloc::Global;

fn int_test(alloc: Global, value: &Value, path: &str) -> Result<IntTest, QueryFault>
    ensures ok { IfOk result (λ _. int_test_fault path.now (view value.now) ≡ None) }
    ensures value { IfOk result (λ test. test ≡ int_test_of (view value.now)) }
    ensures err { IfErr result (Tells (int_test_fault path.now (view value.now))) }
{
    let keys = ["max", "min"];
    shape(alloc, value, &keys, path)?;
    let max = whole_under(alloc, value, "max", path)?;
    let min = whole_under(alloc, value, "min", path)?;
    if !has_any(value, &keys) {
        return Err(bad_value(alloc, path));
    }
    Ok(IntTest { min, max })
}

// A test of a whole number under a key, where the key is present.
pub(crate) fn int_test_under(
    alloc: Global,
    value: &Value,
    key: &str,
    path: &str,
) -> Result<Option<IntTest>, QueryFault>
    ensures ok { IfOk result (λ _. below int_test_fault key.now path.now (view value.now) ≡ None) }
    ensures value { IfOk result (λ test. test ≡ under int_test_in key.now (view value.now)) }
    ensures err { IfErr result (Tells (below int_test_fault key.now path.now (view value.now))) }
{
    let Some(below) = value.get(key) else {
        return Ok(None);
    };
    let at = join(alloc, path, key)?;
    Ok(Some(int_test(alloc, below, at.as_str())?))
}

fn text_test(alloc: Global, value: &Value, path: &str) -> Result<TextTest, QueryFault>
    ensures ok { IfOk result (λ _. text_test_fault path.now (view value.now) ≡ None) }
    ensures value { IfOk result (λ test. test ≡ text_test_of (view value.now)) }
    ensures err { IfErr result (Tells (text_test_fault path.now (view value.now))) }
{
    let keys = [
        "byteLength",
        "contains",
        "empty",
        "equals",
        "hasPrefix",
        "hasSuffix",
    ];
    shape(alloc, value, &keys, path)?;
    let byte_length = int_test_under(alloc, value, "byteLength", path)?;
    let contains = text_under(alloc, value, "contains", path)?;
    let empty = truth_under(alloc, value, "empty", path)?;
    let equals = text_under(alloc, value, "equals", path)?;
    let has_prefix = text_under(alloc, value, "hasPrefix", path)?;
    let has_suffix = text_under(alloc, value, "hasSuffix", path)?;
    if !has_any(value, &keys) {
        return Err(bad_value(alloc, path));
    }
    Ok(TextTest {
        equals,
        contains,
        has_prefix,
        has_suffix,
        empty,
        byte_length,
    })
}

// A test of a text.
pub(crate) fn text_test_under(
    alloc: Global,
    value: &Value,
    key: &str,
    path: &str,
) -> Result<Option<TextTest>, QueryFault>
    ensures ok { IfOk result (λ _. below text_test_fault key.now path.now (view value.now) ≡ None) }
    ensures value { IfOk result (λ test. test ≡ under text_test_in key.now (view value.now)) }
    ensures err { IfErr result (Tells (below text_test_fault key.now path.now (view value.now))) }
{
    let Some(below) = value.get(key) else {
        return Ok(None);
    };
    let at = join(alloc, path, key)?;
    Ok(Some(text_test(alloc, below, at.as_str())?))
}

fn file_test(alloc: Global, value: &Value, path: &str) -> Result<FileTest, QueryFault>
    ensures ok { IfOk result (λ _. file_test_fault path.now (view value.now) ≡ None) }
    ensures value { IfOk result (λ test. test ≡ file_test_of (view value.now)) }
    ensures err { IfErr result (Tells (file_test_fault path.now (view value.now))) }
{
    shape(alloc, value, &["fileName", "fileSize"], path)?;
    let file_name = text_test_under(alloc, value, "fileName", path)?;
    let file_size = int_test_under(alloc, value, "fileSize", path)?;
    Ok(FileTest {
        file_name,
        file_size,
    })
}

// A test of a file.
pub(crate) fn file_test_under(
    alloc: Global,
    value: &Value,
    key: &str,
    path: &str,
) -> Result<Option<FileTest>, QueryFault>
    ensures ok { IfOk result (λ _. below file_test_fault key.now path.now (view value.now) ≡ None) }
    ensures value { IfOk result (λ test. test ≡ under file_test_in key.now (view value.now)) }
    ensures err { IfErr result (Tells (below file_test_fault key.now path.now (view value.now))) }
{
    let Some(below) = value.get(key) else {
        return Ok(None);
    };
    let at = join(alloc, path, key)?;
    Ok(Some(file_test(alloc, below, at.as_str())?))
}
