//! The names of token files.

ghost use Rattle.std.specs.Prelude.{◌≡◌, ◌<◌, ◌-◌, ◌^◌, IfOk};
ghost use Rattle.token_files.specs.Names.{encoded, token_name, is_audience};

use percent_encoding::{AsciiSet, NON_ALPHANUMERIC, ascii_set, percent_encode};
use std::alloc::Global;
use std::string::{String, ToString};
use wl_octets::{Memory, Octets};

/// What is percent-encoded of ASCII: all but the unreserved characters (RFC 3986, section 2.3).
pub(crate) const RESERVED: AsciiSet = ascii_set!(
    NON_ALPHANUMERIC
        .remove(b'-')
        .remove(b'.')
        .remove(b'_')
        .remove(b'~')
);

/// How many bytes an audience may have in a name: with `jwt.`, `-`, a number of ten digits and `.token` that is a name of 255
/// bytes, the longest one that Linux takes (NAME_MAX).
pub(crate) const MAX_ENCODED_LEN: usize = 234;

/// An audience as it stands in a file's name: percent-encoded; letters and digits of ASCII, `-`, `.`, `_` and `~` stay as they
/// are. Without limit; an error is out of memory.
#[tactic(auto, unfolding(crate::specs::Names::encoded))]
pub fn encoded(alloc: Global, audience: &[u8]) -> Result<Octets, Memory>
    ensures { IfOk result (λ text. text ≡ encoded audience.now) }
{
    let mut text = String::new(alloc);
    percent_encode(audience, RESERVED).append_to(&mut text)?;
    Ok(Octets::from_slice(alloc, text.as_bytes())?)
}

/// The name of the file of a token for this audience, of which so many stand before it.
#[tactic(auto, unfolding(crate::specs::Names::token_name))]
pub(crate) fn token_name(alloc: Global, audience: &[u8], at: u32) -> Result<Octets, Memory>
    requires { at < 2 ^ 32 - 1 }
    ensures { IfOk result (λ name. name ≡ token_name audience.now at) }
{
    let text = encoded(alloc, audience)?;
    let number = (at + 1).to_string(alloc)?;
    let mut name = Octets::from_slice(alloc, b"jwt.")?;
    name.push_slice(text.as_slice())?;
    name.push_slice(b"-")?;
    name.push_slice(number.as_bytes())?;
    name.push_slice(b".token")?;
    Ok(name)
}

/// Whether an audience may be asked for: it isn't empty, and the names of its files have at most 255 bytes, which is so of one of
/// at most 234 bytes as it stands there.
#[tactic(auto, unfolding(crate::specs::Names::is_audience))]
pub fn is_audience(alloc: Global, audience: &[u8]) -> Result<bool, Memory>
    ensures { IfOk result (λ is. is ≡ is_audience audience.now) }
{
    let text = encoded(alloc, audience)?;
    Ok(audience.len() >= 1 && text.len() <= MAX_ENCODED_LEN)
}
