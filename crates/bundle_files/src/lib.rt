//! The files of a caller's bundles, as `wlctl` writes them.
//!
//! Which files a message has is a definition (specs/Files); [`publish_bundles`] has readers of a folder see exactly these, all
//! of them at once, or leaves what they see.
#![tactic(auto)]

mod files;
mod fitness;
mod kind;
mod publishing;

pub use files::files_of;
pub use fitness::have_files;
pub use kind::BundleKind;
pub use publishing::{files_in, publish_bundles};
