//! What the header lists of an answer say.

ghost use Rattle.std.specs.Prelude.{◌≡◌};
ghost use Rattle.std.specs.Option.{option_copied};
ghost use Rattle.h2_headers.specs.Values.{values_of};
ghost use Rattle.wl_client.specs.Statuses.{number_in, http_fault, http_fault_of, grpc_code, grpc_text, first_value};

use decimal_text::number_up_to;
use h2_headers::{is_named, value_once};
use wl_octets::Header;

/// The number that a value is, where it is a decimal number below 2^32.
fn number_in(value: &[u8]) -> Option<u32>
    ensures { result ≡ number_in value.now }
{
    match number_up_to(u64::from(u32::MAX), value) {
        Some(number) => Some(number as u32),
        None => None,
    }
}

/// The number of a `:status` that is not 200, or 0 where it isn't a number.
#[tactic(auto, unfolding(crate::specs::Statuses::http_fault_of))]
fn fault_of(status: Option<&[u8]>) -> Option<u32>
    ensures { result ≡ http_fault_of (option_copied status.entry) }
{
    let Some(value) = status else {
        return Some(0);
    };
    if value == b"200".as_slice() {
        return None;
    }
    match number_in(value) {
        Some(number) => Some(number),
        None => Some(0),
    }
}

/// The number of a head's `:status` that is not 200, or 0 where there is not exactly one that is a number below 2^32.
pub(crate) fn http_fault(headers: &[Header]) -> Option<u32>
    ensures { result ≡ http_fault headers.now }
{
    fault_of(value_once(headers, b":status"))
}

/// The status of gRPC, where there is exactly one that is a number below 2^32.
pub(crate) fn grpc_code(headers: &[Header]) -> Option<u32>
    ensures { result ≡ grpc_code headers.now }
{
    match value_once(headers, b"grpc-status") {
        Some(value) => number_in(value),
        None => None,
    }
}

/// The value of the first field of a name, or nothing.
fn value_first<'a>(headers: &'a [Header], name: &[u8]) -> &'a [u8]
    ensures { result.now ≡ first_value (values_of name.now headers.now) }
{
    for header in headers {
        if is_named(header, name) {
            return header.value.as_slice();
        }
    }
    &[]
}

/// The value of the first `grpc-message`, as it came, or nothing.
pub(crate) fn grpc_text(headers: &[Header]) -> &[u8]
    ensures { result.now ≡ grpc_text headers.now }
{
    value_first(headers, b"grpc-message")
}
