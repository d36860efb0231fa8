//! A message's files in place of those before.

ghost use Rattle.std.specs.Prelude.{◌≡◌, ◌≢◌, ◌⊎◌, List, Some, None, IfOk, OnOk, OnErr, IsTrue};
ghost use Rattle.file_sets.specs.declared.set.File.{File};
ghost use Rattle.file_sets.specs.Sets.{seen, SawOld, SawNew};
ghost use Rattle.svid_files.specs.Files.{files_in};

use crate::files::files_of;
use crate::fitness::has_files;
use crate::sds::put_sds;
use file_sets::{File, Shelf, publish};
use std::alloc::Global;
use wl_client::decode_x509;
use wl_octets::{Memory, Octets, Row};
use workload_proto::ProtoFault;

/// Why a message's files aren't seen, or may not be seen.
#[derive(Clone, Copy, Debug, Drop, PartialEq, Eq)]
pub enum WriteFault {
    /// Memory ran out.
    Memory,
    /// The message has no files: it can't be read, has no SVID, a certificate isn't whole, or a name isn't a trust domain's.
    NoFiles,
    /// A call of the outside failed.
    Shelf,
}

/// The files of the message that these bytes are, an `X509SVIDResponse`, and `sds.yaml` where `envoy` names the folder in
/// which they are seen; none where the message has none.
#[tactic(auto, unfolding(crate::specs::Files::files_in))]
pub fn files_in(
    alloc: Global,
    envoy: &Option<Octets>,
    message: &[u8],
) -> Result<Option<Row<File>>, Memory>
    ensures { IfOk result (λ files. files ≡ files_in envoy.now message.now) }
{
    let message = match decode_x509(alloc, message) {
        Ok(message) => message,
        Err(ProtoFault::Memory) => return Err(Memory),
        Err(_) => return Ok(None),
    };
    if !has_files(alloc, &message)? {
        return Ok(None);
    }
    let mut files = files_of(alloc, &message)?;
    put_sds(alloc, &mut files, envoy, &message)?;
    Ok(Some(files))
}

/// Has readers see the files of this message, an `X509SVIDResponse`, in place of those that they saw: all of them at once,
/// or none. With them they see `sds.yaml` where `envoy` names the folder. The number is one that no folder of the shelf has had.
pub fn publish_message<S: Shelf>(
    alloc: Global,
    shelf: &mut S,
    number: u64,
    envoy: &Option<Octets>,
    message: &[u8],
) -> Result<(), WriteFault>
    requires { IsTrue (S.tells shelf.old) → S.link shelf.old ≢ Some number }
    ensures tells { S.tells shelf.new ≡ S.tells shelf.old }
    // What is seen is exactly the files of the message.
    ensures ok { IsTrue (S.tells shelf.old) → OnOk result ((files : List File) × (files_in envoy.now message.now ≡ Some files)
        × SawNew files (S.turns shelf.old) (seen (S.link shelf.new) (S.holds shelf.new)) (S.turns shelf.new)) }
    // After a fault it is what was seen before, or exactly the files of the message.
    ensures err { IsTrue (S.tells shelf.old) → OnErr result (SawOld (seen (S.link shelf.old) (S.holds shelf.old)) (S.turns shelf.old)
        (seen (S.link shelf.new) (S.holds shelf.new)) (S.turns shelf.new)
        ⊎ ((files : List File) × (files_in envoy.now message.now ≡ Some files)
        × SawNew files (S.turns shelf.old) (seen (S.link shelf.new) (S.holds shelf.new)) (S.turns shelf.new))) }
    // Nothing is written for a message that has no files.
    ensures nothing { files_in envoy.now message.now ≡ None → shelf.new ≡ shelf.old }
{
    let files = match files_in(alloc, envoy, message) {
        Ok(Some(files)) => files,
        Ok(None) => return Err(WriteFault::NoFiles),
        Err(Memory) => return Err(WriteFault::Memory),
    };
    match publish(shelf, number, files.as_slice()) {
        Ok(()) => Ok(()),
        Err(_) => Err(WriteFault::Shelf),
    }
}
