//! The files of an `X509SVIDResponse`, as `wlctl` writes them.
//!
//! Which files a message has is a definition (specs/Files); [`publish_message`] has readers of a folder see exactly these,
//! all of them at once, or leaves what they see.
#![tactic(auto)]

mod files;
mod fitness;
mod names;
mod publishing;
mod sds;
mod serials;
mod words;

pub use files::files_of;
pub use fitness::has_files;
pub use names::{domain_of, is_domain};
pub use publishing::{WriteFault, files_in, publish_message};
pub use serials::serial_of;
