//! Values, read from their texts.
ghost use Rattle.std.specs.Prelude.{◌≡◌, IfOk, option_map};
ghost use Rattle.serde_json.specs.View.{view};
ghost use Rattle.json_laws.specs.Json.{json_in};

use blobref::NoMemory;
use serde_json::Value;
use std::alloc::Global;

/// The one JSON value that the bytes are, as `serde_json` reads it (`docs/formats/schema.md`): None for bytes that
/// aren't UTF-8, or that aren't one JSON text.
pub fn json_in(alloc: Global, bytes: &[u8]) -> Result<Option<Value>, NoMemory>
    ensures { IfOk result (λ value. option_map view value ≡ json_in bytes.now) }
{
    match Value::from_slice(alloc, bytes) {
        Ok(value) => Ok(Some(value)),
        Err(error) => {
            if error.is_memory() {
                Err(NoMemory)
            } else {
                Ok(None)
            }
        }
    }
}
