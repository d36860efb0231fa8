//! Samples as text, and the two lines above those of a family.

ghost use Rattle.std.specs.Prelude.{◌≡◌, ◌++◌, OnOk};
ghost use Rattle.figures.specs.Samples.{head, number_end, plain, single, label_end, labelled, sample, socket_line};

use crate::escapes::put_escaped;
use crate::family::Family;
use crate::figures::SocketFigures;
use crate::sample::Counted;
use std::alloc::Global;
use std::string::ToString;
use wl_octets::{Memory, Octets};

/// Writes the two lines above the samples of a family.
#[tactic(auto, unfolding(crate::specs::Samples::head))]
pub(crate) fn put_head(out: &mut Octets, family: Family) -> Result<(), Memory>
    ensures { OnOk result (out.new ≡ out.old ++ head family) }
{
    out.push_slice(b"# HELP ")?;
    out.push_slice(family.name())?;
    out.push_slice(b" ")?;
    out.push_slice(family.help())?;
    out.push_slice(b"\n# TYPE ")?;
    out.push_slice(family.name())?;
    out.push_slice(b" ")?;
    out.push_slice(family.kind().name())?;
    out.push_slice(b"\n")
}

/// Writes what ends a sample.
#[tactic(auto, unfolding(crate::specs::Samples::number_end))]
pub(crate) fn put_number_end(alloc: Global, out: &mut Octets, number: u64) -> Result<(), Memory>
    ensures { OnOk result (out.new ≡ out.old ++ number_end number) }
{
    out.push_slice(b" ")?;
    let text = number.to_string(alloc)?;
    out.push_slice(text.as_bytes())?;
    out.push_slice(b"\n")
}

/// Writes a family that is one number.
#[tactic(auto, unfolding(crate::specs::Samples::single, crate::specs::Samples::plain))]
pub(crate) fn put_single(
    alloc: Global,
    out: &mut Octets,
    family: Family,
    number: u64,
) -> Result<(), Memory>
    ensures { OnOk result (out.new ≡ out.old ++ single family number) }
{
    put_head(out, family)?;
    out.push_slice(family.name())?;
    put_number_end(alloc, out, number)
}

/// Writes one label, whose value stands within the quotes already, and the number.
#[tactic(auto, unfolding(crate::specs::Samples::label_end))]
pub(crate) fn put_label_end(
    alloc: Global,
    out: &mut Octets,
    key: &[u8],
    value: &[u8],
    number: u64,
) -> Result<(), Memory>
    ensures { OnOk result (out.new ≡ out.old ++ label_end key.now value.now number) }
{
    out.push_slice(b"{")?;
    out.push_slice(key)?;
    out.push_slice(b"=\"")?;
    out.push_slice(value)?;
    out.push_slice(b"\"}")?;
    put_number_end(alloc, out, number)
}

/// Writes a sample with one label, whose value stands within the quotes already.
#[tactic(auto, unfolding(crate::specs::Samples::labelled))]
fn put_labelled(
    alloc: Global,
    out: &mut Octets,
    family: Family,
    key: &[u8],
    value: &[u8],
    number: u64,
) -> Result<(), Memory>
    ensures { OnOk result (out.new ≡ out.old ++ labelled family key.now value.now number) }
{
    out.push_slice(family.name())?;
    put_label_end(alloc, out, key, value, number)
}

/// Writes a sample of what is counted.
#[tactic(auto, unfolding(crate::specs::Samples::sample))]
pub(crate) fn put_sample(
    alloc: Global,
    out: &mut Octets,
    counted: Counted,
    number: u64,
) -> Result<(), Memory>
    ensures { OnOk result (out.new ≡ out.old ++ sample counted number) }
{
    let (family, key) = (counted.family(), counted.key());
    put_labelled(alloc, out, family, key, counted.word(), number)
}

/// Writes a sample of a socket.
#[tactic(auto, unfolding(crate::specs::Samples::socket_line))]
pub(crate) fn put_socket_line(
    alloc: Global,
    out: &mut Octets,
    family: Family,
    socket: &SocketFigures,
    number: u64,
) -> Result<(), Memory>
    ensures { OnOk result (out.new ≡ out.old ++ socket_line family socket.now number) }
{
    let mut value = Octets::empty(alloc);
    put_escaped(&mut value, socket.path.as_slice())?;
    put_labelled(alloc, out, family, b"socket", value.as_slice(), number)
}
