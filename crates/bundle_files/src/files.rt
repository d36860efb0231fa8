//! The files of bundles.

ghost use Rattle.std.specs.Prelude.{◌≡◌, ◌++◌, ◌∷◌, [], IfOk, OnOk, map};
ghost use Rattle.bundle_files.specs.Files.{name_of, bytes_of, file_of, files_of};

use crate::kind::BundleKind;
use file_sets::File;
use std::alloc::Global;
use svid_files::domain_of;
use svid_forms::put_certificates;
use wl_client::MapItem;
use wl_octets::{Memory, Octets, Row};

/// The name of the file of this trust domain's bundle.
#[tactic(auto, unfolding(crate::specs::Files::name_of))]
fn name_of(alloc: Global, kind: BundleKind, domain: &[u8]) -> Result<Octets, Memory>
    ensures { IfOk result (λ name. name ≡ name_of kind domain.now) }
{
    let mut name = Octets::from_slice(alloc, domain)?;
    name.push_slice(kind.ending())?;
    Ok(name)
}

/// What the file of a bundle has.
fn bytes_of(alloc: Global, kind: BundleKind, bundle: &[u8]) -> Result<Octets, Memory>
    ensures { IfOk result (λ bytes. bytes ≡ bytes_of kind bundle.now) }
{
    match kind {
        BundleKind::X509 => {
            let mut text = Vec::new(alloc);
            put_certificates(alloc, &mut text, bundle)?;
            Ok(Octets::from_vec(text))
        }
        BundleKind::Jwt => Octets::from_slice(alloc, bundle),
    }
}

#[tactic(auto, unfolding(crate::specs::Files::file_of))]
fn put_bundle(
    alloc: Global,
    files: &mut Row<File>,
    kind: BundleKind,
    bundle: &MapItem,
) -> Result<(), Memory>
    ensures { OnOk result (files.new ≡ files.old ++ file_of kind bundle.now ∷ []) }
{
    let name = name_of(alloc, kind, domain_of(bundle.key.as_slice()))?;
    let bytes = bytes_of(alloc, kind, bundle.value.as_slice())?;
    files.push(File {
        name,
        is_secret: false,
        bytes,
    })?;
    Ok(())
}

fn put_bundles(
    alloc: Global,
    files: &mut Row<File>,
    kind: BundleKind,
    bundles: &[MapItem],
) -> Result<(), Memory>
    ensures { OnOk result (files.new ≡ files.old ++ map (file_of kind) bundles.now) }
{
    for bundle in bundles {
        put_bundle(alloc, files, kind, bundle)?;
    }
    Ok(())
}

/// The files of bundles that have files ([`crate::have_files`]).
#[tactic(auto, unfolding(crate::specs::Files::files_of))]
pub fn files_of(alloc: Global, kind: BundleKind, bundles: &[MapItem]) -> Result<Row<File>, Memory>
    ensures { IfOk result (λ files. files ≡ files_of kind bundles.now) }
{
    let mut files = Row::empty(alloc);
    put_bundles(alloc, &mut files, kind, bundles)?;
    Ok(files)
}
