//! Whole header lists.

ghost use Rattle.std.specs.Prelude.{◌≡◌, not};
ghost use Rattle.std.specs.List.{list_all};
ghost use Rattle.h2_headers.specs.Fields.{is_field, is_pseudo_field};
ghost use Rattle.h2_headers.specs.Heads.{count_of, is_request_name, is_unknown, is_in_order, is_empty_path, names_request, is_good_head, are_good_trailers};

use crate::fields::{is_named, is_pseudo, is_well_formed};
use wl_octets::Header;

/// Whether a request's head is not malformed: each name and value is as it may be, and the
/// pseudo-headers come first and are those of a request (RFC 9113, sections 8.2 and 8.3).
/// A CONNECT head is judged as any other.
#[tactic(auto, unfolding(crate::specs::Heads::is_good_head))]
pub fn is_well_formed_head(headers: &[Header]) -> bool
    ensures { result ≡ is_good_head headers.now }
{
    are_fields(headers) && is_ordered(headers) && is_request(headers)
}

/// Whether a request's trailers are not malformed: each name and value is as it may be, and
/// there is no pseudo-header (RFC 9113, sections 8.1 and 8.2).
#[tactic(auto, unfolding(crate::specs::Heads::are_good_trailers))]
pub fn are_well_formed_trailers(headers: &[Header]) -> bool
    ensures { result ≡ are_good_trailers headers.now }
{
    are_fields(headers) && are_regular(headers)
}

fn are_fields(headers: &[Header]) -> bool
    ensures { result ≡ list_all is_field headers.now }
{
    headers.iter().all(is_well_formed)
}

fn are_regular(headers: &[Header]) -> bool
    ensures { result ≡ list_all (λ h. not (is_pseudo_field h)) headers.now }
{
    headers.iter().all(|header| !is_pseudo(header))
}

/// Whether no pseudo-header stands after another field.
fn is_ordered(headers: &[Header]) -> bool
    ensures { result ≡ is_in_order headers.now }
{
    headers
        .iter()
        .skip_while(|header| is_pseudo(header))
        .all(|header| !is_pseudo(header))
}

/// How many fields have this name.
fn count(headers: &[Header], name: &[u8]) -> usize
    ensures { result ≡ count_of name.now headers.now }
{
    headers
        .iter()
        .filter(|header| is_named(header, name))
        .count()
}

#[tactic(auto, unfolding(crate::specs::Heads::is_request_name))]
fn is_of_request(header: &Header) -> bool
    ensures { result ≡ is_request_name header.now.name }
{
    is_named(header, b":method")
        || is_named(header, b":scheme")
        || is_named(header, b":path")
        || is_named(header, b":authority")
}

/// Whether each pseudo-header is one that requests have.
fn are_known(headers: &[Header]) -> bool
    ensures { result ≡ list_all (λ h. not (is_unknown h)) headers.now }
{
    headers
        .iter()
        .all(|header| !(is_pseudo(header) && !is_of_request(header)))
}

fn have_paths(headers: &[Header]) -> bool
    ensures { result ≡ list_all (λ h. not (is_empty_path h)) headers.now }
{
    headers.iter().all(|header| !(is_named(header, b":path") && header.value.as_slice().is_empty()))
}

/// Whether the pseudo-headers are those of a request.
#[tactic(auto, unfolding(crate::specs::Heads::names_request))]
fn is_request(headers: &[Header]) -> bool
    ensures { result ≡ names_request headers.now }
{
    are_known(headers)
        && count(headers, b":method") == 1
        && count(headers, b":scheme") == 1
        && count(headers, b":path") == 1
        && count(headers, b":authority") <= 1
        && have_paths(headers)
}
