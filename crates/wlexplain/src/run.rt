//! The program over a source and a sink.

ghost use Rattle.std.specs.Prelude.{◌≡◌, ◌<◌, ◌≤◌, ℕ, List, [], true, IfOk, OnOk, length};
ghost use Rattle.fault_lines.specs.Explanations.{explained_text};
ghost use Rattle.wlexplain.specs.Following.{whole_lines, last_line};
ghost use Rattle.wlexplain.specs.Endings.{Ends};
ghost use Rattle.wlexplain.specs.Steps.{Moment, moment, Follows, StepEnds, LinesEnd, WritesDue};
ghost use Rattle.wlexplain.specs.declared.run.TheConstants.{READ_LIMIT};

use crate::lines::take_piece;
use fault_lines::explain_text;
use std::alloc::Global;
use wl_edge::{Sink, Source, Taken, write_all};

/// How many bytes are read at most: 1 TiB.
pub const READ_LIMIT: usize = 1_099_511_627_776;

/// How many bytes one read asks for at most.
const PIECE_LEN: usize = 65_536;

/// All was written.
pub const DONE: u8 = 0;
/// A read failed; the lines that were read whole had been written.
pub const READ_FAILED: u8 = 6;
/// A write failed.
pub const WRITE_FAILED: u8 = 7;
/// Memory ran out.
pub const OUT_OF_MEMORY: u8 = 8;

/// Takes a piece that was read, and writes the lines that are whole with it.
fn take<O: Sink>(alloc: Global, line: &mut Vec<u8>, piece: &[u8], output: &mut O) -> Result<(), u8>
    ensures line { OnOk result (line.new.items ≡ last_line line.old.items piece.now) }
    ensures wrote { WritesDue (whole_lines line.old.items piece.now) (O.taken output.old) (O.taken output.new) (O.faults output.old) (O.faults output.new) result }
{
    let Ok(due) = take_piece(alloc, line, piece) else {
        return Err(OUT_OF_MEMORY);
    };
    if write_all(output, due.as_slice()) {
        Ok(())
    } else {
        Err(WRITE_FAILED)
    }
}

/// Writes what follows the last newline.
fn finish<O: Sink>(alloc: Global, line: &[u8], output: &mut O) -> Result<(), u8>
    ensures { WritesDue (explained_text line.now) (O.taken output.old) (O.taken output.new) (O.faults output.old) (O.faults output.new) result }
{
    let Ok(due) = explain_text(alloc, line) else {
        return Err(OUT_OF_MEMORY);
    };
    if write_all(output, due.as_slice()) {
        Ok(())
    } else {
        Err(WRITE_FAILED)
    }
}

/// Reads once, and writes the lines that are whole with it. False where the source is over; the status, where the run is.
fn read_on<I: Source, O: Sink>(
    alloc: Global,
    room: &mut [u8],
    remaining: &mut usize,
    line: &mut Vec<u8>,
    input: &mut I,
    output: &mut O,
) -> Result<bool, u8>
    requires room { 0 < length room.old }
    requires within { length room.old ≤ remaining.old }
    ensures steps { (start : Moment) (read : List ℕ) → Follows start (moment (I.left input.old) (O.taken output.old) (I.faults input.old) (O.faults output.old)) line.old.items remaining.old read
        → StepEnds start (moment (I.left input.new) (O.taken output.new) (I.faults input.new) (O.faults output.new)) line.new.items remaining.new result }
    ensures smaller { IfOk result (λ more. more ≡ true → remaining.new < remaining.old) }
{
    match input.read(room) {
        Taken::Got(count) => {
            *remaining -= count;
            match take(alloc, line, room.split_at(count).0, output) {
                Ok(()) => Ok(true),
                Err(status) => Err(status),
            }
        }
        Taken::End => Ok(false),
        Taken::Failed => Err(READ_FAILED),
    }
}

/// Reads to the end, or up to the limit, and writes each line as soon as it is whole.
fn read_lines<I: Source, O: Sink>(
    alloc: Global,
    room: &mut [u8],
    line: &mut Vec<u8>,
    input: &mut I,
    output: &mut O,
) -> Result<(), u8>
    requires { 0 < length room.old }
    ensures { (start : Moment) → Follows start (moment (I.left input.old) (O.taken output.old) (I.faults input.old) (O.faults output.old)) line.old.items READ_LIMIT []
        → LinesEnd start (moment (I.left input.new) (O.taken output.new) (I.faults input.new) (O.faults output.new)) line.new.items result }
{
    let mut remaining = READ_LIMIT;
    'reads: while remaining > 0 {
        let len = room.len().min(remaining);
        match read_on(alloc, &mut room[..len], &mut remaining, line, input, output) {
            Ok(true) => {}
            Ok(false) => return Ok(()),
            Err(status) => return Err(status),
        }
    }
    Ok(())
}

/// Reads the source to its end and writes what it has, explained, each line as soon as it is whole. The status is one of
/// the four above.
pub fn explain<I: Source, O: Sink>(alloc: Global, input: &mut I, output: &mut O) -> u8
    ensures { Ends (I.left input.old) (O.taken output.old) (O.taken output.new) (I.faults input.old)
        (I.faults input.new)
        (O.faults output.old) (O.faults output.new) result }
{
    let Ok(mut room) = Vec::from_elem(alloc, 0, PIECE_LEN) else {
        return OUT_OF_MEMORY;
    };
    let mut line = Vec::new(alloc);
    match read_lines(alloc, room.as_mut_slice(), &mut line, input, output) {
        Ok(()) => {}
        Err(status) => return status,
    }
    match finish(alloc, line.as_slice(), output) {
        Ok(()) => DONE,
        Err(status) => status,
    }
}
