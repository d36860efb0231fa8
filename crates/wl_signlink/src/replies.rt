//! The lines that answer.

ghost use Rattle.std.specs.Prelude.{◌≡◌};
ghost use Rattle.serde_json.specs.View.{view};
ghost use Rattle.json_members.specs.Texts.{value_of};
ghost use Rattle.wl_signlink.specs.Replies.{Gives, or_wrong, member_of, text_of, bytes_of, number_of, value_in, is_reply_to, reply_in, signed_in, token_in, signed_of, token_of};

use crate::fault::LineFault;
use crate::limits::REPLY_LIMIT;
use base64::DecodeAllocError;
use base64::engine::general_purpose::STANDARD;
use json_members::json_value;
use serde_json::Value;
use std::alloc::Global;
use wl_entry::{JwtToken, Signed};
use wl_octets::Octets;

/// The member of this name.
#[tactic(auto, unfolding(crate::specs::Replies::member_of))]
fn member_of<'a>(name: &str, reply: &'a Value) -> Result<&'a Value, LineFault>
    ensures { Gives (λ v. view v.now) result (member_of name.now (view reply.now)) }
{
    match reply.get(name) {
        Some(member) => Ok(member),
        None => Err(LineFault::Wrong),
    }
}

/// A member that is a text.
#[tactic(auto, unfolding(crate::specs::Replies::text_of))]
fn text_of<'a>(name: &str, reply: &'a Value) -> Result<&'a str, LineFault>
    ensures { Gives (λ s. s.now) result (text_of name.now (view reply.now)) }
{
    match member_of(name, reply)?.as_str() {
        Some(text) => Ok(text),
        None => Err(LineFault::Wrong),
    }
}

/// A member that is bytes in standard padded base64.
#[tactic(auto, unfolding(crate::specs::Replies::bytes_of))]
fn bytes_of(alloc: Global, name: &str, reply: &Value) -> Result<Octets, LineFault>
    ensures { Gives (λ o. o) result (bytes_of name.now (view reply.now)) }
{
    match STANDARD.decode(alloc, text_of(name, reply)?.as_bytes()) {
        Ok(bytes) => Ok(Octets::from_vec(bytes)),
        Err(DecodeAllocError::OutOfMemory) => Err(LineFault::Memory),
        Err(DecodeAllocError::DecodeError(_)) => Err(LineFault::Wrong),
    }
}

/// A member that is a whole number below 2^64.
#[tactic(auto, unfolding(crate::specs::Replies::number_of))]
fn number_of(name: &str, reply: &Value) -> Result<u64, LineFault>
    ensures { Gives (λ n. n) result (number_of name.now (view reply.now)) }
{
    match member_of(name, reply)?.as_u64() {
        Some(number) => Ok(number),
        None => Err(LineFault::Wrong),
    }
}

/// The JSON value of a line.
fn json_of(alloc: Global, line: &[u8]) -> Result<Value, LineFault>
    ensures { Gives view result (or_wrong (value_of line.now)) }
{
    match json_value(alloc, line)? {
        Some(value) => Ok(value),
        None => Err(LineFault::Wrong),
    }
}

/// The JSON value of a line within its limit.
#[tactic(auto, unfolding(crate::specs::Replies::value_in))]
fn value_in(alloc: Global, line: &[u8]) -> Result<Value, LineFault>
    ensures { Gives view result (value_in line.now) }
{
    if line.len() > REPLY_LIMIT {
        return Err(LineFault::Wrong);
    }
    json_of(alloc, line)
}

/// The identity that a reply has.
#[tactic(auto, unfolding(crate::specs::Replies::signed_in))]
fn signed_in(alloc: Global, reply: &Value) -> Result<Signed, LineFault>
    ensures { Gives (λ s. s) result (signed_in (view reply.now)) }
{
    let chain = bytes_of(alloc, "chain", reply)?;
    let key = bytes_of(alloc, "key", reply)?;
    let not_before = number_of("not_before", reply)?;
    let not_after = number_of("not_after", reply)?;
    Ok(Signed {
        chain,
        key,
        not_before,
        not_after,
    })
}

/// The token that a reply has.
#[tactic(auto, unfolding(crate::specs::Replies::token_in))]
fn token_in(alloc: Global, reply: &Value) -> Result<JwtToken, LineFault>
    ensures { Gives (λ t. t) result (token_in (view reply.now)) }
{
    let text = text_of("token", reply)?;
    let token = Octets::from_slice(alloc, text.as_bytes())?;
    let issued_at = number_of("issued_at", reply)?;
    let expires_at = number_of("expires_at", reply)?;
    Ok(JwtToken {
        token,
        issued_at,
        expires_at,
    })
}

/// Whether a reply may answer the ask with this number: it hands back no number, or this one.
#[tactic(auto, unfolding(crate::specs::Replies::is_reply_to))]
fn is_reply_to(number: u64, reply: &Value) -> bool
    ensures { result ≡ is_reply_to number (view reply.now) }
{
    match reply.get("number") {
        None => true,
        Some(found) => match found.as_u64() {
            None => false,
            Some(found) => found == number,
        },
    }
}

/// The JSON value of a line that answers the ask with this number.
#[tactic(auto, unfolding(crate::specs::Replies::reply_in))]
fn reply_in(alloc: Global, number: u64, line: &[u8]) -> Result<Value, LineFault>
    ensures { Gives view result (reply_in number line.now) }
{
    let reply = value_in(alloc, line)?;
    if !is_reply_to(number, &reply) {
        return Err(LineFault::Wrong);
    }
    Ok(reply)
}

/// Reads the reply with a signed identity to the ask with this number, without its newline. A line that isn't such a
/// reply is Wrong.
#[tactic(auto, unfolding(crate::specs::Replies::signed_of))]
pub fn read_signed(alloc: Global, number: u64, line: &[u8]) -> Result<Signed, LineFault>
    ensures { Gives (λ s. s) result (signed_of number line.now) }
{
    let reply = reply_in(alloc, number, line)?;
    signed_in(alloc, &reply)
}

/// Reads the reply with a token to the ask with this number, without its newline. A line that isn't such a reply is
/// Wrong.
#[tactic(auto, unfolding(crate::specs::Replies::token_of))]
pub fn read_token(alloc: Global, number: u64, line: &[u8]) -> Result<JwtToken, LineFault>
    ensures { Gives (λ t. t) result (token_of number line.now) }
{
    let reply = reply_in(alloc, number, line)?;
    token_in(alloc, &reply)
}
