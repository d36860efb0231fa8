//! What the calls of a manager answer, in words.

use super::documents::{HINTED_MESSAGE, MESSAGE};
use std::alloc::Global;
use std::process::Abort;
use svid_cache::Installed;
use wl_entry::Unfit;
use wl_octets::Octets;

/// The text of these bytes, which is empty where they are none.
pub fn text(bytes: &Octets) -> &str {
    str::from_utf8(bytes.as_slice()).unwrap_or("")
}

fn unfit_words(rt: &impl Abort, alloc: Global, unfit: &Unfit) -> String {
    let words = match unfit {
        Unfit::Cert(fault) => format!(in alloc; "unfit 6 {fault:?}"),
        Unfit::OtherId { asked, named } => {
            format!(in alloc; "unfit 7 {} {}", text(asked), text(named))
        }
        Unfit::OtherTimes { before, after } => format!(in alloc; "unfit 8 {before} {after}"),
        _ => format!(in alloc; "unfit"),
    };
    words.expect(rt, "memory")
}

pub fn installed_words(rt: &impl Abort, alloc: Global, installed: &Installed) -> String {
    let words = match installed {
        Installed::Kept => String::from_str(alloc, "kept"),
        Installed::NoSuchAsk => String::from_str(alloc, "unknown-ask"),
        Installed::Spent => String::from_str(alloc, "spent"),
        Installed::Older(end) => format!(in alloc; "older {end}"),
        Installed::Unfit(unfit) => return unfit_words(rt, alloc, unfit),
    };
    words.expect(rt, "memory")
}

/// Which of the worked messages this is.
pub fn message_words(message: &Octets) -> &'static str {
    if message.as_slice() == MESSAGE {
        "message"
    } else if message.as_slice() == HINTED_MESSAGE {
        "hinted message"
    } else {
        "another message"
    }
}
