//! What the parts say.

ghost use Rattle.std.specs.Prelude.{◌≡◌, IfOk, map};
ghost use Rattle.jws_text.specs.Tokens.{spaced, one_line, is_object, bytes_in, object_in, said_of, said_in};

use crate::parts::parts_of;
use base64::DecodeAllocError;
use base64::engine::general_purpose::URL_SAFE_NO_PAD;
use json_members::json_value;
use std::alloc::Global;
use wl_octets::{Memory, Octets};

/// The head and the claims of a token: each an object of JSON on one line.
#[derive(Drop)]
pub struct Said {
    pub head: Octets,
    pub claims: Octets,
}

/// A byte of a text of JSON on one line.
fn spaced(byte: u8) -> u8
    ensures { result ≡ spaced byte }
{
    if byte < b' ' { b' ' } else { byte }
}

/// A text of JSON on one line.
#[tactic(auto, unfolding(crate::specs::Tokens::one_line))]
fn one_line(alloc: Global, text: &[u8]) -> Result<Octets, Memory>
    ensures { IfOk result (λ line. line ≡ one_line text.now) }
{
    let mut line = Vec::new(alloc);
    for byte in text {
        line.push(spaced(*byte))?;
    }
    Ok(Octets::from_vec(line))
}

/// Whether these bytes are an object of JSON.
fn is_object(alloc: Global, text: &[u8]) -> Result<bool, Memory>
    ensures { IfOk result (λ is. is ≡ is_object text.now) }
{
    match json_value(alloc, text)? {
        Some(value) => Ok(value.is_object()),
        None => Ok(false),
    }
}

/// The bytes that a part writes in base64url, where it is that.
fn bytes_in(alloc: Global, part: &[u8]) -> Result<Option<Octets>, Memory>
    ensures { IfOk result (λ bytes. bytes ≡ bytes_in part.now) }
{
    match URL_SAFE_NO_PAD.decode(alloc, part) {
        Ok(bytes) => Ok(Some(Octets::from_vec(bytes))),
        Err(DecodeAllocError::OutOfMemory) => Err(Memory),
        Err(DecodeAllocError::DecodeError(_)) => Ok(None),
    }
}

/// The object of JSON that a part writes in base64url, where it does, on one line.
#[tactic(auto, unfolding(crate::specs::Tokens::object_in))]
fn object_in(alloc: Global, part: &[u8]) -> Result<Option<Octets>, Memory>
    ensures { IfOk result (λ line. line ≡ object_in part.now) }
{
    let Some(bytes) = bytes_in(alloc, part)? else {
        return Ok(None);
    };
    if !is_object(alloc, bytes.as_slice())? {
        return Ok(None);
    }
    Ok(Some(one_line(alloc, bytes.as_slice())?))
}

/// What two parts say.
#[tactic(auto, unfolding(crate::specs::Tokens::said_of))]
fn said_of(alloc: Global, head: &[u8], claims: &[u8]) -> Result<Option<Said>, Memory>
    ensures { IfOk result (λ said. said ≡ said_of head.now claims.now) }
{
    let Some(head) = object_in(alloc, head)? else {
        return Ok(None);
    };
    match object_in(alloc, claims)? {
        Some(claims) => Ok(Some(Said { head, claims })),
        None => Ok(None),
    }
}

/// What a token says, where it is three parts between dots of which the first two are objects of JSON in base64url without
/// padding. Its third part, the signature, is not looked at: anybody may have written what is answered here. White space
/// within it is written as a space. Without limit; an error is out of memory.
#[tactic(auto, unfolding(crate::specs::Tokens::said_in))]
pub fn said_in(alloc: Global, token: &[u8]) -> Result<Option<Said>, Memory>
    ensures { IfOk result (λ said. said ≡ said_in token.now) }
{
    match parts_of(token) {
        Some((head, claims)) => said_of(alloc, head, claims),
        None => Ok(None),
    }
}
