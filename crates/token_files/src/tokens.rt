//! The files of answers of FetchJWTSVID.

ghost use Rattle.std.specs.Prelude.{◌≡◌, ◌++◌, ◌∷◌, [], ◌<◌, ◌-◌, ◌^◌, IfOk, OnOk};
ghost use Rattle.std.specs.List.{list_all, flat_map};
ghost use Rattle.token_files.specs.Tokens.{token_file, tokens_from, tokens_of, is_token, has_tokens};

use crate::answers::TokenAnswer;
use crate::names::token_name;
use crate::put::put;
use file_sets::File;
use std::alloc::Global;
use wl_client::{JwtItem, decode_jwt};
use wl_octets::{Memory, Octets, Row};
use workload_proto::ProtoFault;

#[tactic(auto, unfolding(crate::specs::Tokens::token_file))]
fn put_token(
    alloc: Global,
    files: &mut Row<File>,
    audience: &[u8],
    at: u32,
    svid: &JwtItem,
) -> Result<(), Memory>
    requires { at < 2 ^ 32 - 1 }
    ensures { OnOk result (files.new ≡ files.old ++ token_file audience.now at svid.now ∷ []) }
{
    let name = token_name(alloc, audience, at)?;
    let bytes = Octets::from_slice(alloc, svid.svid.as_slice())?;
    put(files, name, true, bytes)
}

fn put_svids(
    alloc: Global,
    files: &mut Row<File>,
    audience: &[u8],
    svids: &[JwtItem],
) -> Result<(), Memory>
    ensures { OnOk result (files.new ≡ files.old ++ tokens_from audience.now 0 svids.now) }
{
    for (at, svid) in svids.iter().enumerate() {
        if at >= u32::MAX as usize {
            return Err(Memory);
        }
        put_token(alloc, files, audience, at as u32, svid)?;
    }
    Ok(())
}

/// The tokens of an answer; none where it can't be read.
#[tactic(auto, unfolding(crate::specs::Tokens::tokens_of))]
fn put_answer(alloc: Global, files: &mut Row<File>, answer: &TokenAnswer) -> Result<(), Memory>
    ensures { OnOk result (files.new ≡ files.old ++ tokens_of answer.now) }
{
    match decode_jwt(alloc, answer.message.as_slice()) {
        Ok(message) => put_svids(
            alloc,
            files,
            answer.audience.as_slice(),
            message.svids.as_slice(),
        ),
        Err(ProtoFault::Memory) => Err(Memory),
        Err(_) => Ok(()),
    }
}

/// The tokens of each answer.
pub(crate) fn put_tokens(
    alloc: Global,
    files: &mut Row<File>,
    answers: &[TokenAnswer],
) -> Result<(), Memory>
    ensures { OnOk result (files.new ≡ files.old ++ flat_map tokens_of answers.now) }
{
    for answer in answers {
        put_answer(alloc, files, answer)?;
    }
    Ok(())
}

fn are_tokens(svids: &[JwtItem]) -> bool
    ensures { result ≡ list_all is_token svids.now }
{
    svids.iter().all(|svid| svid.svid.len() >= 1)
}

/// Whether an answer has a token, and none is empty.
#[tactic(auto, unfolding(crate::specs::Tokens::has_tokens))]
pub fn has_tokens(alloc: Global, answer: &TokenAnswer) -> Result<bool, Memory>
    ensures { IfOk result (λ has. has ≡ has_tokens answer.now) }
{
    match decode_jwt(alloc, answer.message.as_slice()) {
        Ok(message) => Ok(message.svids.len() >= 1 && are_tokens(message.svids.as_slice())),
        Err(ProtoFault::Memory) => Err(Memory),
        Err(_) => Ok(false),
    }
}

/// The same of each answer.
pub(crate) fn have_tokens(alloc: Global, answers: &[TokenAnswer]) -> Result<bool, Memory>
    ensures { IfOk result (λ have. have ≡ list_all has_tokens answers.now) }
{
    for answer in answers {
        if !has_tokens(alloc, answer)? {
            return Ok(false);
        }
    }
    Ok(true)
}
