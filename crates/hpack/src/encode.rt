//! The encoding of header blocks that are written.
#![tactic(auto)]

ghost use Rattle.std.specs.Prelude.{◌≡◌, ◌+◌, ◌≤◌, ◌<◌, ◌++◌, Ok, IfOk, IfSome, MatchOption, OnOk, length};
ghost use Rattle.std.specs.List.{position};
ghost use Rattle.hpack.specs.declared.limit.TheConstants.{MAX_LIST_SIZE};
ghost use Rattle.hpack.specs.Tables.{Table, list_size, static_table};
ghost use Rattle.hpack.specs.Reading.{block_of};
ghost use Rattle.hpack.specs.Grammar.{IsBlock};
ghost use Rattle.hpack.specs.Writing.{more_bytes, integer_bytes, plain_string, same_field, same_name, NoNameBelow, field_bytes, block_bytes};

use crate::static_table::{COUNT, static_name, static_value};
use std::alloc::Global;
use wl_octets::{Header, Memory, Octets};

/// Appends a number in bytes of seven bits, lowest first.
fn put_more(out: &mut Vec<u8>, value: usize) -> Result<(), Memory>
    ensures { OnOk result (out.new.items ≡ out.old.items ++ more_bytes value) }
{
    if value < 128 {
        out.push(value as u8)?;
        return Ok(());
    }
    out.push((128 + value % 128) as u8)?;
    put_more(out, value / 128)
}

/// Appends an integer whose prefix takes the bits of the first byte that the pattern leaves.
#[tactic(auto, unfolding(crate::specs::Writing::integer_bytes))]
fn put_integer(out: &mut Vec<u8>, pattern: u8, full: u8, value: usize) -> Result<(), Memory>
    requires { pattern + full < 256 }
    ensures { OnOk result (out.new.items ≡ out.old.items ++ integer_bytes pattern full value) }
{
    if value < usize::from(full) {
        out.push(pattern + value as u8)?;
        return Ok(());
    }
    out.push(pattern + full)?;
    put_more(out, value - usize::from(full))
}

/// Appends a string as it is.
fn put_string(out: &mut Vec<u8>, text: &[u8]) -> Result<(), Memory>
    ensures { OnOk result (out.new.items ≡ out.old.items ++ plain_string text.now) }
{
    put_integer(out, 0, 127, text.len())?;
    out.extend_from_slice(text)?;
    Ok(())
}

/// The place of the first static entry of this header's name, counted from 0.
fn find_name(header: &Header) -> Option<usize>
    ensures first { result ≡ position (same_name header.now) static_table }
    ensures within { IfSome result (λ place. place < 61) }
    ensures before { MatchOption result (NoNameBelow header.now 61) (NoNameBelow header.now) }
{
    for place in 0..COUNT {
        if static_name(place) == header.name.as_slice() {
            return Some(place);
        }
    }
    None
}

/// The place of the first static entry that is this header, where no entry before this place has its name.
fn find_field(header: &Header, from: usize) -> Option<usize>
    requires { NoNameBelow header.now from }
    ensures first { result ≡ position (same_field header.now) static_table }
    ensures within { IfSome result (λ place. place < 61) }
{
    for place in from..COUNT {
        if static_name(place) == header.name.as_slice()
            && static_value(place) == header.value.as_slice()
        {
            return Some(place);
        }
    }
    None
}

/// Appends the encoding of a header.
#[tactic(auto, unfolding(crate::specs::Writing::field_bytes))]
fn put_header(out: &mut Vec<u8>, header: &Header) -> Result<(), Memory>
    ensures { OnOk result (out.new.items ≡ out.old.items ++ field_bytes header.now) }
{
    let Some(name) = find_name(header) else {
        out.push(0)?;
        put_string(out, header.name.as_slice())?;
        return put_string(out, header.value.as_slice());
    };
    if let Some(field) = find_field(header, name) {
        return put_integer(out, 128, 127, field + 1);
    }
    put_integer(out, 0, 15, name + 1)?;
    put_string(out, header.value.as_slice())
}

/// No less than a header's bytes in a block: the first byte, and two lengths of ten bytes at most.
fn most_bytes(headers: &[Header]) -> usize {
    let mut bytes: usize = 0;
    for header in headers {
        bytes = bytes
            .saturating_add(header.name.len())
            .saturating_add(header.value.len())
            .saturating_add(21);
    }
    bytes
}

/// The block of some headers in the one encoding that is written: a header of the static table is indexed, any other is a literal
/// without indexing that names the first static entry of its name, where there is one; no string is Huffman coded.
///
/// Where the headers' sizes sum to at most 16,384, a decoder reads it as these headers, whatever its table, and its table stays;
/// and it takes at most 16,383 bytes.
pub fn encode_plain(alloc: Global, headers: &[Header]) -> Result<Octets, Memory>
    ensures spelled { IfOk result (λ block. block ≡ block_bytes headers.now) }
    ensures readable { IfOk result
        (λ block. list_size headers.now ≤ MAX_LIST_SIZE → (table : Table)
        → IsBlock table block headers.now table) }
    ensures small { IfOk result
        (λ block. list_size headers.now ≤ MAX_LIST_SIZE → length block < MAX_LIST_SIZE) }
    ensures read_again { IfOk result
        (λ block. list_size headers.now ≤ MAX_LIST_SIZE → (table : Table)
        → block_of table block ≡ Ok (headers.now, table)) }
{
    let mut out = Vec::with_capacity(alloc, most_bytes(headers))?;
    for header in headers {
        put_header(&mut out, header)?;
    }
    Ok(Octets::from_vec(out))
}
