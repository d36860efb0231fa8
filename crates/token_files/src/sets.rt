//! The files of a message and of the answers that belong to it, in place of those before.

ghost use Rattle.std.specs.Prelude.{◌≡◌, ◌≢◌, ◌⊎◌, ◌++◌, ◌∷◌, [], List, Some, None, option_map, IfOk, OnOk, OnErr, IsTrue};
ghost use Rattle.file_sets.specs.declared.set.File.{File};
ghost use Rattle.file_sets.specs.Sets.{seen, SawOld, SawNew};
ghost use Rattle.token_files.specs.Tokens.{jwks_name, jwks_file};
ghost use Rattle.token_files.specs.Sets.{first_id, id_of, answer_files, token_set, set_of};

use crate::answers::Answers;
use crate::jwks::jwks_of;
use crate::put::put;
use crate::tokens::{have_tokens, put_tokens};
use file_sets::{File, Shelf, publish};
use std::alloc::Global;
use svid_files::{WriteFault, files_in};
use wl_client::{X509Item, decode_x509};
use wl_octets::{Memory, Octets, Row};
use workload_proto::ProtoFault;

fn first_id(alloc: Global, svids: &[X509Item]) -> Result<Octets, Memory>
    ensures { IfOk result (λ id. id ≡ first_id svids.now) }
{
    match svids {
        [first, ..] => Octets::from_slice(alloc, first.spiffe_id.as_slice()),
        [] => Ok(Octets::empty(alloc)),
    }
}

/// The id of the first SVID of an `X509SVIDResponse`; empty where there is none.
#[tactic(auto, unfolding(crate::specs::Sets::id_of))]
pub fn id_of(alloc: Global, message: &[u8]) -> Result<Octets, Memory>
    ensures { IfOk result (λ id. id ≡ id_of message.now) }
{
    match decode_x509(alloc, message) {
        Ok(message) => first_id(alloc, message.svids.as_slice()),
        Err(ProtoFault::Memory) => Err(Memory),
        Err(_) => Ok(Octets::empty(alloc)),
    }
}

/// The name of the file of the JWT bundle.
#[tactic(auto, unfolding(crate::specs::Tokens::jwks_name))]
fn jwks_name(alloc: Global) -> Result<Octets, Memory>
    ensures { IfOk result (λ name. name ≡ jwks_name) }
{
    Octets::from_slice(alloc, b"jwks.json")
}

#[tactic(auto, unfolding(crate::specs::Tokens::jwks_file))]
fn put_jwks(alloc: Global, files: &mut Row<File>, jwks: &[u8]) -> Result<(), Memory>
    ensures { OnOk result (files.new ≡ files.old ++ jwks_file jwks.now ∷ []) }
{
    let name = jwks_name(alloc)?;
    let bytes = Octets::from_slice(alloc, jwks)?;
    put(files, name, false, bytes)
}

/// The files of the message, and after them those of the answers to the caller with this id.
#[tactic(auto, unfolding(crate::specs::Sets::token_set))]
fn with_answers(
    alloc: Global,
    mut files: Row<File>,
    id: &[u8],
    answers: &Answers,
) -> Result<Option<Row<File>>, Memory>
    ensures { IfOk result (λ all. all ≡ option_map (λ more. files ++ more) (token_set id.now answers.now)) }
{
    if !have_tokens(alloc, answers.tokens.as_slice())? {
        return Ok(None);
    }
    let Some(jwks) = jwks_of(alloc, id, answers.bundles.as_slice())? else {
        return Ok(None);
    };
    put_tokens(alloc, &mut files, answers.tokens.as_slice())?;
    put_jwks(alloc, &mut files, jwks.as_slice())?;
    Ok(Some(files))
}

/// The files of the message that these bytes are, an `X509SVIDResponse`, as `svid_files` has them; after them a file for each
/// token of the answers, and the caller's own JWT bundle. None where the message has no files, an answer has no token or an
/// empty one, or the own bundle isn't there.
#[tactic(auto, unfolding(crate::specs::Sets::set_of))]
pub fn set_of(
    alloc: Global,
    envoy: &Option<Octets>,
    message: &[u8],
    answers: &Answers,
) -> Result<Option<Row<File>>, Memory>
    ensures { IfOk result (λ files. files ≡ set_of envoy.now message.now answers.now) }
{
    let Some(files) = files_in(alloc, envoy, message)? else {
        return Ok(None);
    };
    let id = id_of(alloc, message)?;
    with_answers(alloc, files, id.as_slice(), answers)
}

/// Has readers see the files of this message and of the answers that belong to it, in place of those that they saw: all of them
/// at once, or none. The number is one that no folder of the shelf has had.
pub fn publish_set<S: Shelf>(
    alloc: Global,
    shelf: &mut S,
    number: u64,
    envoy: &Option<Octets>,
    message: &[u8],
    answers: &Answers,
) -> Result<(), WriteFault>
    requires { IsTrue (S.tells shelf.old) → S.link shelf.old ≢ Some number }
    ensures tells { S.tells shelf.new ≡ S.tells shelf.old }
    // What is seen is exactly the files of the message and of the answers.
    ensures ok { IsTrue (S.tells shelf.old) → OnOk result ((files : List File) × (set_of envoy.now message.now answers.now ≡ Some files)
        × SawNew files (S.turns shelf.old) (seen (S.link shelf.new) (S.holds shelf.new)) (S.turns shelf.new)) }
    // After a fault it is what was seen before, or exactly these files.
    ensures err { IsTrue (S.tells shelf.old) → OnErr result (SawOld (seen (S.link shelf.old) (S.holds shelf.old)) (S.turns shelf.old)
        (seen (S.link shelf.new) (S.holds shelf.new)) (S.turns shelf.new)
        ⊎ ((files : List File) × (set_of envoy.now message.now answers.now ≡ Some files)
        × SawNew files (S.turns shelf.old) (seen (S.link shelf.new) (S.holds shelf.new)) (S.turns shelf.new))) }
    // Nothing is written where any part has no files.
    ensures nothing { set_of envoy.now message.now answers.now ≡ None → shelf.new ≡ shelf.old }
{
    let files = match set_of(alloc, envoy, message, answers) {
        Ok(Some(files)) => files,
        Ok(None) => return Err(WriteFault::NoFiles),
        Err(Memory) => return Err(WriteFault::Memory),
    };
    match publish(shelf, number, files.as_slice()) {
        Ok(()) => Ok(()),
        Err(_) => Err(WriteFault::Shelf),
    }
}
