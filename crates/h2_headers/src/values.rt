//! The values of the fields of one name.

ghost use Rattle.std.specs.Prelude.{◌≡◌};
ghost use Rattle.std.specs.Option.{option_copied};
ghost use Rattle.h2_headers.specs.Values.{only_value};

use crate::fields::is_named;
use wl_octets::Header;

/// The value of a field that is there once.
pub fn value_once<'a>(headers: &'a [Header], name: &[u8]) -> Option<&'a [u8]>
    ensures { option_copied result ≡ only_value name.now headers.now }
{
    let mut found: Option<&'a [u8]> = None;
    for header in headers {
        if is_named(header, name) {
            if found.is_some() {
                return None;
            }
            found = Some(header.value.as_slice());
        }
    }
    found
}
