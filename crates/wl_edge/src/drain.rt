//! Reading a source to its end, and sending a whole text.

ghost use Rattle.std.specs.Prelude.{vec_len, ◌≤◌, ◌^◌, ◌<◌, IfOk, IfErr, IsErrOf, ◌≡◌, length};
ghost use Rattle.wl_edge.specs.Edge.{Rose, Drained, Leaves, Sends, StepGives};
ghost use Rattle.wl_edge.specs.declared.drain.ReadFault.TheVariants as ReadFault;

use crate::sink::{Sent, Sink};
use crate::source::{Source, Taken};
use std::alloc::Global;

/// Why a source was not read to its end.
#[derive(Clone, Copy, Debug, Drop, PartialEq)]
pub enum ReadFault {
    /// A read failed; the source's count of faults rose.
    Failed,
    /// Memory ran out.
    Memory,
}

/// How many bytes one read asks for at most.
const PIECE: usize = 65_536;

/// Room for what one read gives.
fn buffer(alloc: Global) -> Result<Vec<u8>, ReadFault>
    ensures room { IfOk result (λ v. 0 < vec_len v) }
    ensures fault { IfErr result (λ e. e ≡ ReadFault.Memory) }
{
    match Vec::from_elem(alloc, 0, PIECE) {
        Ok(buffer) => Ok(buffer),
        Err(_) => Err(ReadFault::Memory),
    }
}

/// Reads once and puts what came after what was read before. False at the end of the source.
fn read_on<I: Source>(input: &mut I, room: &mut [u8], done: &mut Vec<u8>) -> Result<bool, ReadFault>
    requires { 0 < length room.old }
    ensures step { IfOk result (λ more. StepGives (I.left input.old) (I.left input.new)
        done.old.items done.new.items (length room.old) more) }
    ensures failed { IsErrOf result ReadFault.Failed → Rose (I.faults input.old) (I.faults input.new) }
    ensures later { I.faults input.old ≤ I.faults input.new }
{
    match input.read(room) {
        Taken::Got(count) => match done.extend_from_slice(room.split_at(count).0) {
            Ok(()) => Ok(true),
            Err(_) => Err(ReadFault::Memory),
        },
        Taken::End => Ok(false),
        Taken::Failed => Err(ReadFault::Failed),
    }
}

/// Reads the source to its end, or so many bytes of it.
pub fn read_all<I: Source>(alloc: Global, input: &mut I, limit: usize) -> Result<Vec<u8>, ReadFault>
    requires { limit < 2 ^ 60 }
    ensures at_most { IfOk result (λ v. length v.items ≤ limit) }
    ensures bytes { IfOk result (λ v. Drained (I.left input.old) limit v.items) }
    ensures left { IfOk result (λ v. Leaves (I.left input.old) (I.left input.new) v.items) }
    ensures failed { IsErrOf result ReadFault.Failed → Rose (I.faults input.old) (I.faults input.new) }
    ensures later { I.faults input.old ≤ I.faults input.new }
{
    let mut done: Vec<u8> = Vec::new(alloc);
    let mut buffer = buffer(alloc)?;
    'reads: while done.len() < limit {
        let room = buffer.len().min(limit - done.len());
        if !read_on(input, &mut buffer[..room], &mut done)? {
            return Ok(done);
        }
    }
    Ok(done)
}

/// Sends the whole text. False where a write failed: then the sink's count rose, and it took a prefix of the text.
pub fn write_all<O: Sink>(output: &mut O, text: &[u8]) -> bool
    ensures { Sends (O.taken output.old) (O.taken output.new) (O.faults output.old) (O.faults output.new) text.now result }
{
    let mut rest = text;
    'sends: while !rest.is_empty() {
        match output.write(rest) {
            Sent::Took(count) => rest = rest.split_at(count).1,
            Sent::Failed => return false,
        }
    }
    true
}
