//! The secrets of Envoy that a message's files are.

ghost use Rattle.std.specs.Prelude.{◌≡◌, ◌++◌, ◌∷◌, [], ◌<◌, ◌-◌, ◌^◌, IfOk, OnOk};
ghost use Rattle.std.specs.List.{flat_map};
ghost use Rattle.svid_files.specs.Sds.{word_text, line, path_of, watched, secret, certificate_part, trusted_part, own_secret, trusted_secret, svid_secrets, secrets_from, federated_secret, sds_text, sds_files};

use crate::files::put;
use crate::names::{called, domain_of, federated_call, federated_name, numbered};
use crate::words::{Word, text_of};
use file_sets::File;
use std::alloc::Global;
use svid_forms::put_escaped;
use wl_client::{MapItem, X509Item, X509Response};
use wl_octets::{Memory, Octets, Row};

fn put_word(out: &mut Vec<u8>, word: Word) -> Result<(), Memory>
    ensures { OnOk result (out.new.items ≡ out.old.items ++ word_text word) }
{
    out.extend_from_slice(text_of(word))?;
    Ok(())
}

/// A word and its value.
#[tactic(auto, unfolding(crate::specs::Sds::line))]
fn put_line(out: &mut Vec<u8>, word: Word, value: &[u8]) -> Result<(), Memory>
    ensures { OnOk result (out.new.items ≡ out.old.items ++ line word value.now) }
{
    put_word(out, word)?;
    out.push(b'"')?;
    put_escaped(out, value)?;
    out.extend_from_slice(&[b'"', b'\n'])?;
    Ok(())
}

/// The path of a file in the folder.
#[tactic(auto, unfolding(crate::specs::Sds::path_of))]
fn path_of(alloc: Global, folder: &[u8], name: &[u8]) -> Result<Octets, Memory>
    ensures { IfOk result (λ path. path ≡ path_of folder.now name.now) }
{
    let mut path = Octets::from_slice(alloc, folder)?;
    path.push_slice(b"/")?;
    path.push_slice(name)?;
    Ok(path)
}

#[tactic(auto, unfolding(crate::specs::Sds::watched))]
fn put_watched(out: &mut Vec<u8>, folder: &[u8]) -> Result<(), Memory>
    ensures { OnOk result (out.new.items ≡ out.old.items ++ watched folder.now) }
{
    put_word(out, Word::Watched)?;
    put_line(out, Word::Path, folder)?;
    Ok(())
}

/// The first lines of a secret.
#[tactic(auto, unfolding(crate::specs::Sds::secret))]
fn put_secret(out: &mut Vec<u8>, name: &[u8]) -> Result<(), Memory>
    ensures { OnOk result (out.new.items ≡ out.old.items ++ secret name.now) }
{
    put_word(out, Word::Secret)?;
    put_line(out, Word::Name, name)?;
    Ok(())
}

#[tactic(auto, unfolding(crate::specs::Sds::certificate_part))]
fn put_certificate_part(
    alloc: Global,
    out: &mut Vec<u8>,
    folder: &[u8],
    chain: &[u8],
    key: &[u8],
) -> Result<(), Memory>
    ensures { OnOk result (out.new.items ≡ out.old.items ++ certificate_part folder.now chain.now key.now) }
{
    let chain = path_of(alloc, folder, chain)?;
    let key = path_of(alloc, folder, key)?;
    put_word(out, Word::Certificate)?;
    put_line(out, Word::Filename, chain.as_slice())?;
    put_word(out, Word::Key)?;
    put_line(out, Word::Filename, key.as_slice())?;
    Ok(())
}

#[tactic(auto, unfolding(crate::specs::Sds::trusted_part))]
fn put_trusted_part(
    alloc: Global,
    out: &mut Vec<u8>,
    folder: &[u8],
    bundle: &[u8],
) -> Result<(), Memory>
    ensures { OnOk result (out.new.items ≡ out.old.items ++ trusted_part folder.now bundle.now) }
{
    let bundle = path_of(alloc, folder, bundle)?;
    put_word(out, Word::Trusted)?;
    put_line(out, Word::Filename, bundle.as_slice())?;
    Ok(())
}

/// The secret of the SVID at this place.
#[tactic(auto, unfolding(crate::specs::Sds::own_secret))]
fn put_own_secret(alloc: Global, out: &mut Vec<u8>, folder: &[u8], at: u32) -> Result<(), Memory>
    requires { at < 2 ^ 32 - 1 }
    ensures { OnOk result (out.new.items ≡ out.old.items ++ own_secret folder.now at) }
{
    let name = called(alloc, b"svid", at)?;
    let chain = numbered(alloc, b"svid", at)?;
    let key = numbered(alloc, b"key", at)?;
    put_secret(out, name.as_slice())?;
    put_certificate_part(alloc, out, folder, chain.as_slice(), key.as_slice())?;
    put_watched(out, folder)
}

/// The secret of a bundle.
#[tactic(auto, unfolding(crate::specs::Sds::trusted_secret))]
fn put_trusted_secret(
    alloc: Global,
    out: &mut Vec<u8>,
    folder: &[u8],
    name: &[u8],
    bundle: &[u8],
) -> Result<(), Memory>
    ensures { OnOk result (out.new.items ≡ out.old.items ++ trusted_secret folder.now name.now bundle.now) }
{
    put_secret(out, name)?;
    put_trusted_part(alloc, out, folder, bundle)?;
    put_watched(out, folder)
}

#[tactic(auto, unfolding(crate::specs::Sds::svid_secrets))]
fn put_svid_secrets(alloc: Global, out: &mut Vec<u8>, folder: &[u8], at: u32) -> Result<(), Memory>
    requires { at < 2 ^ 32 - 1 }
    ensures { OnOk result (out.new.items ≡ out.old.items ++ svid_secrets folder.now at) }
{
    let name = called(alloc, b"bundle", at)?;
    let bundle = numbered(alloc, b"bundle", at)?;
    put_own_secret(alloc, out, folder, at)?;
    put_trusted_secret(alloc, out, folder, name.as_slice(), bundle.as_slice())
}

fn put_secrets(
    alloc: Global,
    out: &mut Vec<u8>,
    folder: &[u8],
    svids: &[X509Item],
) -> Result<(), Memory>
    ensures { OnOk result (out.new.items ≡ out.old.items ++ secrets_from folder.now 0 svids.now) }
{
    for (at, _) in svids.iter().enumerate() {
        if at >= u32::MAX as usize {
            return Err(Memory);
        }
        put_svid_secrets(alloc, out, folder, at as u32)?;
    }
    Ok(())
}

#[tactic(auto, unfolding(crate::specs::Sds::federated_secret))]
fn put_federated_secret(
    alloc: Global,
    out: &mut Vec<u8>,
    folder: &[u8],
    bundle: &MapItem,
) -> Result<(), Memory>
    ensures { OnOk result (out.new.items ≡ out.old.items ++ federated_secret folder.now bundle.now) }
{
    let domain = domain_of(bundle.key.as_slice());
    let call = federated_call(alloc, domain)?;
    let name = federated_name(alloc, domain)?;
    put_trusted_secret(alloc, out, folder, call.as_slice(), name.as_slice())
}

fn put_federated_secrets(
    alloc: Global,
    out: &mut Vec<u8>,
    folder: &[u8],
    bundles: &[MapItem],
) -> Result<(), Memory>
    ensures { OnOk result (out.new.items ≡ out.old.items ++ flat_map (federated_secret folder.now) bundles.now) }
{
    for bundle in bundles {
        put_federated_secret(alloc, out, folder, bundle)?;
    }
    Ok(())
}

#[tactic(auto, unfolding(crate::specs::Sds::sds_text))]
fn put_sds_text(
    alloc: Global,
    out: &mut Vec<u8>,
    folder: &[u8],
    message: &X509Response,
) -> Result<(), Memory>
    ensures { OnOk result (out.new.items ≡ out.old.items ++ sds_text folder.now message.now) }
{
    put_word(out, Word::Resources)?;
    put_secrets(alloc, out, folder, message.svids.as_slice())?;
    put_federated_secrets(alloc, out, folder, message.federated.as_slice())?;
    Ok(())
}

/// Puts `sds.yaml` where `envoy` names the folder in which the files are seen.
pub(crate) fn put_sds(
    alloc: Global,
    files: &mut Row<File>,
    envoy: &Option<Octets>,
    message: &X509Response,
) -> Result<(), Memory>
    ensures { OnOk result (files.new ≡ files.old ++ sds_files envoy.now message.now) }
{
    let Some(folder) = envoy else {
        return Ok(());
    };
    let mut text = Vec::new(alloc);
    put_sds_text(alloc, &mut text, folder.as_slice(), message)?;
    let name = Octets::from_slice(alloc, b"sds.yaml")?;
    put(files, name, false, Octets::from_vec(text))
}
