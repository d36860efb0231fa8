//! Whether the texts of an ask are UTF-8, so that a line of JSON can have them.

ghost use Rattle.std.specs.Prelude.{◌≡◌, true};
ghost use Rattle.std.specs.Str.{is_utf8};
ghost use Rattle.wl_signlink.specs.Requests.{are_texts, is_text_ask};

use wl_entry::Ask;
use wl_octets::Octets;

/// Whether these bytes are UTF-8.
fn is_text(bytes: &[u8]) -> bool
    ensures { result ≡ is_utf8 bytes.now }
{
    str::from_utf8(bytes).is_ok()
}

/// Whether each of these is UTF-8.
pub fn are_texts(list: &[Octets]) -> bool
    ensures { result ≡ are_texts list.now }
{
    list.iter().all(|bytes| is_text(bytes.as_slice()))
}

/// Whether the texts of the ask are UTF-8.
pub fn is_text_ask(ask: &Ask) -> bool
    ensures { result ≡ is_text_ask ask.now }
{
    is_text(ask.entry_id.as_slice())
        && is_text(ask.spiffe_id.as_bytes())
        && are_texts(ask.dns_names.as_slice())
}

/// The text of bytes that are UTF-8.
pub(crate) fn text(bytes: &[u8]) -> &str
    requires { is_utf8 bytes.now ≡ true }
    ensures { result.now ≡ bytes.now }
{
    match str::from_utf8(bytes) {
        Ok(text) => text,
        Err(_) => unreachable!(),
    }
}
