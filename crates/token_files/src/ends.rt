//! When a token ends.

ghost use Rattle.std.specs.Prelude.{◌≡◌, IfOk, option_and_then};
ghost use Rattle.serde_json.specs.View.{view};
ghost use Rattle.token_files.specs.Ends.{number_in, end_of};

use json_members::json_value;
use jws_text::said_in;
use serde_json::Value;
use std::alloc::Global;
use wl_octets::Memory;

fn number_in(claims: &Value) -> Option<u64>
    ensures { result ≡ number_in (view claims.now) }
{
    claims.get("exp").and_then(Value::as_u64)
}

/// When a token ends, in Unix seconds, by its claim `exp` (RFC 7519, section 4.1.4), which nobody verified. None where the token
/// can't be decoded, or the claim isn't there or isn't a whole number.
#[tactic(auto, unfolding(crate::specs::Ends::end_of))]
pub fn end_of(alloc: Global, token: &[u8]) -> Result<Option<u64>, Memory>
    ensures { IfOk result (λ end. end ≡ end_of token.now) }
{
    let Some(said) = said_in(alloc, token)? else {
        return Ok(None);
    };
    match json_value(alloc, said.claims.as_slice())? {
        Some(claims) => Ok(number_in(&claims)),
        None => Ok(None),
    }
}
