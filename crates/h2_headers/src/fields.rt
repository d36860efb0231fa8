//! One field of a header list.

ghost use Rattle.std.specs.Prelude.{◌≡◌, drop};
ghost use Rattle.std.specs.List.{list_all};
ghost use Rattle.std.specs.Option.{option_copied};
ghost use Rattle.std.specs.Str.{bytes_eq};
ghost use Rattle.h2_headers.specs.Fields.{is_name_byte, is_name_front, is_name, is_pseudo_field, is_value_byte, is_blank_end, is_value, is_hop_name, is_wrong_te, is_field};

use wl_octets::Header;

/// Whether the field has this name.
pub fn is_named(header: &Header, name: &[u8]) -> bool
    ensures { result ≡ bytes_eq header.now.name name.now }
{
    header.name.as_slice() == name
}

/// Whether this is a pseudo-header: its name begins with a colon.
#[tactic(auto, unfolding(crate::specs::Fields::is_pseudo_field))]
pub(crate) fn is_pseudo(header: &Header) -> bool
    ensures { result ≡ is_pseudo_field header.now }
{
    header
        .name
        .as_slice()
        .first()
        .is_some_and(|byte| *byte == b':')
}

/// Whether a name may have this byte.
fn in_name(byte: u8) -> bool
    ensures { result ≡ is_name_byte byte }
{
    byte > 32 && byte < 127 && !(byte > 64 && byte < 91) && byte != b':'
}

/// Whether a name may begin with this byte.
fn begins_name(first: Option<&u8>) -> bool
    ensures { result ≡ is_name_front (option_copied first.entry) }
{
    first.is_some_and(|byte| *byte == b':' || in_name(*byte))
}

fn is_plain(bytes: &[u8]) -> bool
    ensures { result ≡ list_all is_name_byte (drop 1 bytes.now) }
{
    bytes.iter().skip(1).all(|byte| in_name(*byte))
}

#[tactic(auto, unfolding(crate::specs::Fields::is_name))]
fn names(name: &[u8]) -> bool
    ensures { result ≡ is_name name.now }
{
    begins_name(name.first()) && is_plain(name)
}

/// Whether a value may have this byte.
fn in_value(byte: u8) -> bool
    ensures { result ≡ is_value_byte byte }
{
    byte != 0 && byte != b'\n' && byte != b'\r'
}

fn is_text(value: &[u8]) -> bool
    ensures { result ≡ list_all is_value_byte value.now }
{
    value.iter().all(|byte| in_value(*byte))
}

/// Whether this end of a value is a space or a tab.
fn is_space(end: Option<&u8>) -> bool
    ensures { result ≡ is_blank_end (option_copied end.entry) }
{
    end.is_some_and(|byte| *byte == b' ' || *byte == b'\t')
}

#[tactic(auto, unfolding(crate::specs::Fields::is_value))]
fn says(value: &[u8]) -> bool
    ensures { result ≡ is_value value.now }
{
    is_text(value) && !is_space(value.first()) && !is_space(value.last())
}

/// Whether the field speaks of one connection.
#[tactic(auto, unfolding(crate::specs::Fields::is_hop_name))]
fn is_of_connection(header: &Header) -> bool
    ensures { result ≡ is_hop_name header.now.name }
{
    is_named(header, b"connection")
        || is_named(header, b"proxy-connection")
        || is_named(header, b"keep-alive")
        || is_named(header, b"transfer-encoding")
        || is_named(header, b"upgrade")
}

#[tactic(auto, unfolding(crate::specs::Fields::is_wrong_te))]
fn has_wrong_te(header: &Header) -> bool
    ensures { result ≡ is_wrong_te header.now }
{
    is_named(header, b"te") && header.value.as_slice() != b"trailers".as_slice()
}

/// Whether the field may stand in a header list.
#[tactic(auto, unfolding(crate::specs::Fields::is_field))]
pub(crate) fn is_well_formed(header: &Header) -> bool
    ensures { result ≡ is_field header.now }
{
    names(header.name.as_slice())
        && says(header.value.as_slice())
        && !is_of_connection(header)
        && !has_wrong_te(header)
}
