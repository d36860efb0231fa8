//! What a set of files is made of.

use bundle_files::{BundleKind, publish_bundles};
use file_sets::{File, RealShelf};
use std::alloc::Global;
use svid_files::{WriteFault, files_in, publish_message};
use token_files::{Answers, publish_set, set_of};
use wl_octets::{Memory, Octets, Row};

/// Messages whose files are one set.
#[derive(Clone, Copy, Drop)]
pub enum Content<'a> {
    /// A message of FetchX509SVID, and the answers that belong to it.
    Svids {
        message: &'a [u8],
        answers: &'a Option<Answers>,
    },
    /// A message of FetchX509Bundles or FetchJWTBundles.
    Bundles {
        kind: BundleKind,
        message: &'a [u8],
    },
}

/// The files of a message and of the answers that belong to it.
fn svid_files(
    alloc: Global,
    envoy: &Option<Octets>,
    message: &[u8],
    answers: &Option<Answers>,
) -> Result<Option<Row<File>>, Memory> {
    match answers {
        Some(answers) => set_of(alloc, envoy, message, answers),
        None => files_in(alloc, envoy, message),
    }
}

/// Has them be seen as the set of this number.
fn show_svids(
    alloc: Global,
    shelf: &mut RealShelf,
    number: u64,
    envoy: &Option<Octets>,
    message: &[u8],
    answers: &Option<Answers>,
) -> Result<(), WriteFault> {
    match answers {
        Some(answers) => publish_set(alloc, shelf, number, envoy, message, answers),
        None => publish_message(alloc, shelf, number, envoy, message),
    }
}

impl Content<'_> {
    /// The files; none where a message has none.
    pub fn files(
        &self,
        alloc: Global,
        envoy: &Option<Octets>,
    ) -> Result<Option<Row<File>>, Memory> {
        match self {
            Content::Svids { message, answers } => svid_files(alloc, envoy, message, answers),
            Content::Bundles { kind, message } => bundle_files::files_in(alloc, *kind, message),
        }
    }

    /// Has the files be seen as the set of this number.
    pub fn show(
        &self,
        alloc: Global,
        shelf: &mut RealShelf,
        number: u64,
        envoy: &Option<Octets>,
    ) -> Result<(), WriteFault> {
        match self {
            Content::Svids { message, answers } => {
                show_svids(alloc, shelf, number, envoy, message, answers)
            }
            Content::Bundles { kind, message } => {
                publish_bundles(alloc, shelf, number, *kind, message)
            }
        }
    }
}
