//! What a connection has to send.

ghost use Rattle.std.specs.Prelude.{◌≡◌, ◌≤◌, ◌<◌, ◌^◌, ◌-◌, List, [], ◌++◌, ℕ, length, take, drop, min, IfOk, IfSome, OnOk, OnErr};

use crate::filling::Filling;
use crate::piece::Piece;
use std::alloc::Global;
use std::marker::Model;
use std::mem;
use wl_octets::{Memory, Octets, Row, Shared};

/// How many bytes an output has at most, 2^63-1: lent ones take no room of their own, so memory doesn't bound them.
const MAX_LENGTH: usize = 9_223_372_036_854_775_807;

/// Bytes to send, in order. A contract sees the bytes.
#[derive(Drop)]
pub struct Output {
    alloc: Global,
    pieces: Row<Piece>,
    /// How many pieces at the front are let go.
    gone: usize,
    /// How many bytes the others have.
    before: usize,
    /// What comes after the pieces.
    last: Octets,
}

impl Model for Output {
    ghost use Rattle.std.specs.Prelude.{◌≡◌, ◌≤◌, ◌<◌, ◌^◌, List, ℕ, [], length, drop};
    ghost use Rattle.std.specs.List.{flat_map};
    ghost use Rattle.output_parts.specs.Outputs.{piece_bytes, joined};

    ghost Value = { List ℕ };

    ghost view = { λ o. joined (drop o.gone o.pieces) o.last };

    ghost invariant = { λ o. (o.gone ≤ length o.pieces) × (o.before < 2 ^ 63)
        × (o.before ≡ length (flat_map piece_bytes (drop o.gone o.pieces))) };
}

impl Output {
    /// No bytes. It takes no memory.
    pub fn empty(alloc: Global) -> Output
        ensures { result ≡ [] }
    {
        Output {
            alloc,
            pieces: Row::empty(alloc),
            gone: 0,
            before: 0,
            last: Octets::empty(alloc),
        }
    }

    /// How many bytes there are.
    pub fn len(&self) -> usize
        ensures { result ≡ length self.now }
    {
        self.before + self.last.len()
    }

    /// Appends a copy of these bytes; when memory runs out nothing changes.
    pub fn push_slice(&mut self, bytes: &[u8]) -> Result<(), Memory>
        ensures ok { OnOk result (self.new ≡ self.old ++ bytes.now) }
        ensures err { OnErr result (self.new ≡ self.old) }
    {
        self.last.push_slice(bytes)
    }

    /// Appends a frame, whose payload is so many bytes of the message from there on, as far as it has them. None of them
    /// is copied. When memory runs out nothing changes.
    pub fn push_frame(
        &mut self,
        head: [u8; 9],
        message: Shared<Octets>,
        from: usize,
        count: usize,
    ) -> Result<(), Memory>
        ensures ok { OnOk result (self.new ≡ self.old ++ (head ++ take count (drop from message))) }
        ensures err { OnErr result (self.new ≡ self.old) }
    {
        let own = mem::replace(&mut self.last, Octets::empty(self.alloc));
        let piece = Piece {
            own,
            head,
            message,
            from,
            count,
        };
        let before = self.before.saturating_add(piece.len());
        if before > MAX_LENGTH {
            self.last = piece.own;
            return Err(Memory);
        }
        match self.pieces.push(piece) {
            Ok(()) => {
                self.before = before;
                Ok(())
            }
            Err((piece, memory)) => {
                self.last = piece.own;
                Err(memory)
            }
        }
    }

    /// Whether a frame lends its payload; one that is let go counts too.
    pub fn lends(&self) -> bool {
        self.pieces.len() > 0
    }

    /// The bytes, where they lie in one piece: where no frame lends.
    pub fn as_plain(&self) -> Option<&[u8]>
        ensures { IfSome result (λ bytes. bytes.now ≡ self.now) }
    {
        if self.gone < self.pieces.len() {
            return None;
        }
        Some(self.last.as_slice())
    }

    /// Lets go of pieces at the front, all of whose bytes are among the first so many. What is left of these is the answer.
    pub fn let_go(&mut self, sent: usize) -> usize
        ensures left { drop result self.new ≡ drop sent self.old }
        ensures within { sent ≤ length self.old → result ≤ length self.new }
    {
        let mut left = sent;
        'pieces: while self.gone < self.pieces.len() {
            let Some(piece) = self.pieces.get(self.gone) else {
                return left;
            };
            let length = piece.len();
            if left < length {
                return left;
            }
            left -= length;
            self.before -= length;
            self.gone += 1;
        }
        left
    }

    /// Copies the bytes from there on, as many as there is room for, and says how many.
    pub fn copy_from(&self, start: usize, into: &mut [u8]) -> usize
        ensures count { result ≡ min (length self.now - start) (length into.old) }
        ensures len { length into.new ≡ length into.old }
        ensures prefix { take result into.new ≡ take result (drop start self.now) }
    {
        let mut filling = Filling {
            skipped: start,
            count: 0,
        };
        let (_, pieces) = self.pieces.as_slice().split_at(self.gone);
        for piece in pieces {
            if filling.count == into.len() {
                return filling.count;
            }
            filling = filling.copy(piece.own.as_slice(), into);
            filling = filling.copy(&piece.head, into);
            filling = filling.copy(piece.payload(), into);
        }
        filling.copy(self.last.as_slice(), into).count
    }

    /// No bytes, in the room of these.
    pub fn cleared(self) -> Output
        ensures { result ≡ [] }
    {
        let mut room = self.last.into_vec();
        room.clear();
        Output {
            alloc: self.alloc,
            pieces: Row::empty(self.alloc),
            gone: 0,
            before: 0,
            last: Octets::from_vec(room),
        }
    }

    /// The bytes in one piece: as they lie, where no frame lends.
    pub fn into_octets(self, alloc: Global) -> Result<Octets, Memory>
        ensures { IfOk result (λ bytes. bytes ≡ self) }
    {
        if self.gone == self.pieces.len() {
            return Ok(self.last);
        }
        let mut bytes = Octets::empty(alloc);
        let (_, pieces) = self.pieces.as_slice().split_at(self.gone);
        for piece in pieces {
            bytes.push_slice(piece.own.as_slice())?;
            bytes.push_slice(&piece.head)?;
            bytes.push_slice(piece.payload())?;
        }
        bytes.push_slice(self.last.as_slice())?;
        Ok(bytes)
    }
}
