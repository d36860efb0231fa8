//! A field of wire type 2 to bytes.

ghost use Rattle.std.specs.Prelude.{◌≡◌, ◌≤◌, ◌+◌, ◌*◌, ◌^◌, ◌++◌, length, OnOk, OnErr};
ghost use Rattle.pb_wire.specs.Varint.{varint};
ghost use Rattle.pb_wire.specs.Spelling.{head, field};
ghost use Rattle.pb_wire.specs.declared.field.TheConstants.{MAX_FIELD_NUMBER};
ghost use Rattle.list_laws.specs.Lists.{GainsFront};

use crate::varint::{put_varint, size_of_varint};
use wl_octets::Memory;

/// Appends the tag and the length of a field of wire type 2, whose `len` bytes the caller appends then. After `Memory`
/// a prefix of them was appended.
pub fn put_head(out: &mut Vec<u8>, number: u32, len: u64) -> Result<(), Memory>
    requires least { 1 ≤ number }
    requires most { number ≤ MAX_FIELD_NUMBER }
    ensures ok { OnOk result (out.new.items ≡ out.old.items ++ head number len) }
    ensures err { OnErr result (GainsFront (head number len) out.old.items out.new.items) }
{
    put_varint(out, 8 * u64::from(number) + 2)?;
    put_varint(out, len)
}

/// Appends a field of wire type 2: its tag, its length and its bytes. After `Memory` a prefix of it was appended.
pub fn put_bytes(out: &mut Vec<u8>, number: u32, bytes: &[u8]) -> Result<(), Memory>
    requires least { 1 ≤ number }
    requires most { number ≤ MAX_FIELD_NUMBER }
    ensures ok { OnOk result (out.new.items ≡ out.old.items ++ field number bytes.now) }
    ensures err { OnErr result (GainsFront (field number bytes.now) out.old.items out.new.items) }
{
    put_head(out, number, bytes.len() as u64)?;
    out.extend_from_slice(bytes)?;
    Ok(())
}

/// How many bytes a field of wire type 2 takes whose content has `len` bytes.
pub fn size_of_bytes(number: u32, len: usize) -> usize
    requires { len ≤ 2 ^ 31 }
    ensures { result ≡ length (head number len) + len }
{
    size_of_varint(8 * u64::from(number) + 2) + (size_of_varint(len as u64) + len)
}
