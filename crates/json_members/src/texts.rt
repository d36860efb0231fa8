//! Bytes as JSON.

ghost use Rattle.std.specs.Prelude.{◌≡◌, IfOk, option_map};
ghost use Rattle.serde_json.specs.View.{view};
ghost use Rattle.json_members.specs.Texts.{value_of};

use serde_json::Value;
use std::alloc::Global;
use wl_octets::Memory;

/// The value that these bytes are, where they are JSON.
pub fn json_value(alloc: Global, bytes: &[u8]) -> Result<Option<Value>, Memory>
    ensures { IfOk result (λ o. option_map view o ≡ value_of bytes.now) }
{
    match Value::from_slice(alloc, bytes) {
        Ok(value) => Ok(Some(value)),
        Err(fault) => {
            if fault.is_memory() {
                Err(Memory)
            } else {
                Ok(None)
            }
        }
    }
}
