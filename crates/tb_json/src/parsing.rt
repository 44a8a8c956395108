//! JSON text.

ghost use Rattle.std.specs.Prelude.{◌≡◌, IfOk, option_map};
ghost use Rattle.serde_json.specs.Read.{read};
ghost use Rattle.serde_json.specs.View.{view};
ghost use Rattle.tb_json.specs.Parse.{json_of_bytes};

use serde_json::Value;
use std::alloc::{AllocError, Global};

/// The value that a text is, if it is JSON.
pub fn parse(alloc: Global, text: &str) -> Result<Option<Value>, AllocError>
    ensures { IfOk result (λ value. option_map view value ≡ read text.now) }
{
    match Value::from_str(alloc, text) {
        Ok(value) => Ok(Some(value)),
        Err(fault) => {
            if fault.is_memory() {
                return Err(AllocError);
            }
            Ok(None)
        }
    }
}

/// The value that bytes are, if they are JSON.
pub(crate) fn parse_bytes(alloc: Global, bytes: &[u8]) -> Result<Option<Value>, AllocError>
    ensures { IfOk result (λ value. option_map view value ≡ json_of_bytes bytes.now) }
{
    match str::from_utf8(bytes) {
        Ok(text) => parse(alloc, text),
        Err(_) => Ok(None),
    }
}
