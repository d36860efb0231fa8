//! Base 128 varints (Protocol Buffers encoding, "Base 128 Varints").

ghost use Rattle.std.specs.Prelude.{◌≡◌, ◌≤◌, ◌++◌, ℕ, List, length, OnOk, OnErr};
ghost use Rattle.pb_wire.specs.Varint.{IsVarint, varint};
ghost use Rattle.list_laws.specs.Lists.{GainsFront};

use wl_octets::Memory;

fn put_varint_inner(out: &mut Vec<u8>, value: u64) -> Result<(), Memory>
    ensures ok { OnOk result (out.new.items ≡ out.old.items ++ varint value) }
    ensures err { OnErr result (GainsFront (varint value) out.old.items out.new.items) }
{
    let mut rest = value;
    while rest >= 128 {
        out.push((rest % 128) as u8 + 128)?;
        rest /= 128;
    }
    out.push(rest as u8)?;
    Ok(())
}

/// Appends the shortest varint of a number, one to ten bytes. After `Memory` a prefix of it was appended.
pub fn put_varint(out: &mut Vec<u8>, value: u64) -> Result<(), Memory>
    ensures ok { OnOk result (out.new.items ≡ out.old.items ++ varint value) }
    ensures err { OnErr result (GainsFront (varint value) out.old.items out.new.items) }
    // What is appended is a form of the number, and there is no other one.
    ensures form { IsVarint (varint value) value }
    ensures only { (bytes : List ℕ) → IsVarint bytes value → bytes ≡ varint value }
{
    // The public clauses follow from those of the inner call.
    put_varint_inner(out, value)
}

/// How many bytes the shortest varint of a number has, 1 to 10.
pub fn size_of_varint(value: u64) -> usize
    ensures size { result ≡ length (varint value) }
    ensures least { 1 ≤ result }
    ensures most { result ≤ 10 }
{
    let mut rest = value;
    let mut size = 1;
    while rest >= 128 {
        rest /= 128;
        size += 1;
    }
    size
}
