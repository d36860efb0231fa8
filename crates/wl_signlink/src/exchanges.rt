//! One request and the line that answers it, over any sink and source.

ghost use Rattle.std.specs.Prelude.{◌≡◌, ◌≤◌, ◌<◌, ◌==◌, ◌⊎◌, position, length, IfOk, IfSome, MatchOption};
ghost use Rattle.wl_edge.specs.Edge.{Rose};
ghost use Rattle.wl_signlink.specs.Exchanges.{PieceGives, ReadsLine, NoLine, NoReply, Exchanged};

use crate::limits::REPLY_LIMIT;
use std::alloc::Global;
use wl_edge::{Sink, Source, Taken, write_all};
use wl_octets::{Memory, Octets};

/// A line that was read.
#[derive(Drop)]
pub struct Reply {
    /// The line, without its newline.
    pub line: Octets,
    /// Whether nothing came with it after its newline.
    pub is_last: bool,
}

/// What a piece of a line is.
#[derive(Clone, Copy, Debug, PartialEq)]
pub(crate) enum Piece {
    /// It ends the line; the flag says whether nothing is after the newline.
    Line(bool),
    /// The line goes on.
    More,
    /// It ends a line that is too long.
    TooLong,
}

/// How many bytes one read asks for at most.
const PIECE: usize = 4_096;

/// Where the first newline stands.
fn newline(piece: &[u8]) -> Option<usize>
    ensures place { result ≡ position (λ b. b == 10) piece.now }
    ensures bound { IfSome result (λ at. at < length piece.now) }
{
    piece.iter().position(|byte| *byte == b'\n')
}

/// Takes a piece after what came before it, up to its first newline.
fn take_piece(done: &mut Vec<u8>, piece: &[u8]) -> Result<Piece, Memory>
    requires { length done.old.items ≤ REPLY_LIMIT }
    ensures { IfOk result (PieceGives done.old.items done.new.items piece.now) }
{
    match newline(piece) {
        None => {
            done.extend_from_slice(piece)?;
            Ok(Piece::More)
        }
        Some(at) if at > REPLY_LIMIT - done.len() => Ok(Piece::TooLong),
        Some(at) => {
            done.extend_from_slice(piece.split_at(at).0)?;
            Ok(Piece::Line(at + 1 == piece.len()))
        }
    }
}

/// Reads a line up to its newline, in pieces as long as the room.
fn line_from<I: Source>(
    alloc: Global,
    input: &mut I,
    room: &mut [u8],
) -> Result<Option<Reply>, Memory>
    requires { 0 < length room.old }
    ensures line { IfOk result (λ r. MatchOption r
        (Rose (I.faults input.old) (I.faults input.new) ⊎ NoLine (I.left input.old))
        (λ reply. ReadsLine (I.left input.old) (I.left input.new) reply.line reply.is_last)) }
    ensures later { I.faults input.old ≤ I.faults input.new }
{
    let mut done = Vec::new(alloc);
    'reads: while done.len() <= REPLY_LIMIT {
        let count = match input.read(room) {
            Taken::Got(count) => count,
            Taken::End => return Ok(None),
            Taken::Failed => return Ok(None),
        };
        let piece = take_piece(&mut done, room.split_at(count).0)?;
        match piece {
            Piece::Line(is_last) => {
                return Ok(Some(Reply {
                    line: Octets::from_vec(done),
                    is_last,
                }));
            }
            Piece::More => {}
            Piece::TooLong => return Ok(None),
        }
    }
    Ok(None)
}

/// Reads a line up to its newline. None where a read failed, or where no newline came within the limit.
pub fn read_line<I: Source>(alloc: Global, input: &mut I) -> Result<Option<Reply>, Memory>
    ensures line { IfOk result (λ r. MatchOption r
        (Rose (I.faults input.old) (I.faults input.new) ⊎ NoLine (I.left input.old))
        (λ reply. ReadsLine (I.left input.old) (I.left input.new) reply.line reply.is_last)) }
    ensures later { I.faults input.old ≤ I.faults input.new }
{
    let mut room = Vec::from_elem(alloc, 0, PIECE)?;
    line_from(alloc, input, &mut room)
}

/// Sends a request and reads the line that answers it. None where either did not succeed.
pub fn exchange<O: Sink, I: Source>(
    alloc: Global,
    output: &mut O,
    input: &mut I,
    request: &[u8],
) -> Result<Option<Reply>, Memory>
    ensures { IfOk result (λ r. MatchOption r
        (NoReply (O.faults output.old) (O.faults output.new) (I.faults input.old) (I.faults input.new) (I.left input.old))
        (λ reply. Exchanged (O.taken output.old) (O.taken output.new) (I.left input.old) (I.left input.new)
        request.now reply.line reply.is_last)) }
{
    if !write_all(output, request) {
        return Ok(None);
    }
    read_line(alloc, input)
}
