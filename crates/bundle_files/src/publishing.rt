//! The files of bundles in place of those before.

ghost use Rattle.std.specs.Prelude.{◌≡◌, ◌≢◌, ◌⊎◌, List, Some, None, IfOk, OnOk, OnErr, IsTrue};
ghost use Rattle.file_sets.specs.declared.set.File.{File};
ghost use Rattle.file_sets.specs.Sets.{seen, SawOld, SawNew};
ghost use Rattle.bundle_files.specs.Files.{files_if, files_in};

use crate::files::files_of;
use crate::fitness::have_files;
use crate::kind::BundleKind;
use file_sets::{File, Shelf, publish};
use std::alloc::Global;
use svid_files::WriteFault;
use wl_client::{MapItem, decode_bundles, decode_jwt_bundles};
use wl_octets::{Memory, Row};
use workload_proto::ProtoFault;

/// The files of these bundles, where they have any.
fn files_if(
    alloc: Global,
    kind: BundleKind,
    bundles: &[MapItem],
) -> Result<Option<Row<File>>, Memory>
    ensures { IfOk result (λ files. files ≡ files_if kind bundles.now) }
{
    if !have_files(alloc, kind, bundles)? {
        return Ok(None);
    }
    Ok(Some(files_of(alloc, kind, bundles)?))
}

/// The files of an `X509BundlesResponse`.
fn x509_files(alloc: Global, message: &[u8]) -> Result<Option<Row<File>>, Memory>
    ensures { IfOk result (λ files. files ≡ files_in BundleKind.X509 message.now) }
{
    match decode_bundles(alloc, message) {
        Ok(said) => files_if(alloc, BundleKind::X509, said.bundles.as_slice()),
        Err(ProtoFault::Memory) => Err(Memory),
        Err(_) => Ok(None),
    }
}

/// The files of a `JWTBundlesResponse`.
fn jwt_files(alloc: Global, message: &[u8]) -> Result<Option<Row<File>>, Memory>
    ensures { IfOk result (λ files. files ≡ files_in BundleKind.Jwt message.now) }
{
    match decode_jwt_bundles(alloc, message) {
        Ok(said) => files_if(alloc, BundleKind::Jwt, said.bundles.as_slice()),
        Err(ProtoFault::Memory) => Err(Memory),
        Err(_) => Ok(None),
    }
}

/// The files of the message that these bytes are; none where it has none.
pub fn files_in(
    alloc: Global,
    kind: BundleKind,
    message: &[u8],
) -> Result<Option<Row<File>>, Memory>
    ensures { IfOk result (λ files. files ≡ files_in kind message.now) }
{
    match kind {
        BundleKind::X509 => x509_files(alloc, message),
        BundleKind::Jwt => jwt_files(alloc, message),
    }
}

/// Has readers see the files of this message in place of those that they saw: all of them at once, or none. The number is one that
/// no folder of the shelf has had.
pub fn publish_bundles<S: Shelf>(
    alloc: Global,
    shelf: &mut S,
    number: u64,
    kind: BundleKind,
    message: &[u8],
) -> Result<(), WriteFault>
    requires { IsTrue (S.tells shelf.old) → S.link shelf.old ≢ Some number }
    ensures tells { S.tells shelf.new ≡ S.tells shelf.old }
    // What is seen is exactly the files of the message.
    ensures ok { IsTrue (S.tells shelf.old) → OnOk result ((files : List File) × (files_in kind message.now ≡ Some files)
        × SawNew files (S.turns shelf.old) (seen (S.link shelf.new) (S.holds shelf.new)) (S.turns shelf.new)) }
    // After a fault it is what was seen before, or exactly the files of the message.
    ensures err { IsTrue (S.tells shelf.old) → OnErr result (SawOld (seen (S.link shelf.old) (S.holds shelf.old)) (S.turns shelf.old)
        (seen (S.link shelf.new) (S.holds shelf.new)) (S.turns shelf.new)
        ⊎ ((files : List File) × (files_in kind message.now ≡ Some files)
        × SawNew files (S.turns shelf.old) (seen (S.link shelf.new) (S.holds shelf.new)) (S.turns shelf.new))) }
    // Nothing is written for a message that has no files.
    ensures nothing { files_in kind message.now ≡ None → shelf.new ≡ shelf.old }
{
    let files = match files_in(alloc, kind, message) {
        Ok(Some(files)) => files,
        Ok(None) => return Err(WriteFault::NoFiles),
        Err(Memory) => return Err(WriteFault::Memory),
    };
    match publish(shelf, number, files.as_slice()) {
        Ok(()) => Ok(()),
        Err(_) => Err(WriteFault::Shelf),
    }
}
