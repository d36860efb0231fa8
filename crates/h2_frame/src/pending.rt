//! The bytes of a frame that isn't whole.

ghost use Rattle.std.specs.Prelude.{◌≡◌, List, [], ◌∷◌, ◌++◌, ℕ, length, IfSome, IfErr, OnOk, OnErr};
ghost use Rattle.h2_frame.specs.declared.fault.FrameFault.{FrameFault};
ghost use Rattle.h2_frame.specs.Parsing.{IsDataHead, data_frame_of};
ghost use Rattle.h2_frame.specs.Reading.{Rest, Fault, Refuses, frames_of};
ghost use Rattle.list_laws.specs.Lists.{GainsFront};

use crate::fault::FrameFault;
use crate::frame::{Body, Frame};
use crate::head::Head;
use crate::reading::frames;
use h2_wire::limit::{HEAD_LEN, MAX_FRAME_SIZE};
use h2_wire::{flag, frame_type};
use std::alloc::Global;
use std::marker::Model;
use std::mem;
use wl_octets::{Octets, Row};

/// The bytes of a frame that isn't whole. A payload of DATA without padding lies apart from
/// its head, so that it becomes the frame's bytes as it lies.
#[derive(Drop)]
pub struct Pending {
    /// The head of DATA without padding, or all bytes of another frame.
    front: Vec<u8>,
    /// What has come after the head of DATA without padding.
    payload: Vec<u8>,
}

impl Model for Pending {
    ghost Value = { List ℕ };

    ghost view = { λ p. p.front.items ++ p.payload.items };
}

impl Pending {
    /// No bytes.
    pub fn empty(alloc: Global) -> Pending
        ensures { result ≡ [] }
    {
        Pending {
            front: Vec::new(alloc),
            payload: Vec::new(alloc),
        }
    }

    /// How many bytes there are.
    pub fn len(&self) -> usize
        ensures { result ≡ length self.now }
    {
        self.front.len() + self.payload.len()
    }

    /// Drops all bytes.
    pub fn clear(&mut self)
        ensures { self.new ≡ [] }
    {
        self.front.clear();
        self.payload.clear();
    }

    /// How many bytes complete the head, or the payload where the head is whole.
    pub fn lacking(&self) -> usize {
        if self.front.is_empty() {
            0
        } else if self.front.len() < HEAD_LEN {
            HEAD_LEN - self.front.len()
        } else {
            let length = Head::read(self.front.as_slice()).length as usize;
            (HEAD_LEN + length).saturating_sub(self.len())
        }
    }

    /// Keeps these bytes after the others, each copied once.
    pub fn keep(&mut self, bytes: &[u8]) -> Result<(), FrameFault>
        ensures ok { OnOk result (self.new ≡ self.old ++ bytes.now) }
        ensures err { IfErr result (λ fault. fault ≡ FrameFault.Memory) }
    {
        let room = HEAD_LEN.saturating_sub(self.front.len());
        let (head, behind) = bytes.split_at(room.min(bytes.len()));
        match self.keep_part(head) {
            Ok(()) => self.keep_part(behind),
            Err(fault) => Err(fault),
        }
    }

    /// As `keep`, for bytes that don't go beyond the head unless it is whole.
    fn keep_part(&mut self, bytes: &[u8]) -> Result<(), FrameFault>
        ensures ok { OnOk result (self.new ≡ self.old ++ bytes.now) }
        ensures err { IfErr result (λ fault. fault ≡ FrameFault.Memory) }
    {
        let data = data_head(self.front.as_slice());
        if self.payload.is_empty() {
            match data {
                Some(head) => make_room(&mut self.payload, head, bytes.len()),
                None => return keep(&mut self.front, bytes),
            }
        }
        keep(&mut self.payload, bytes)
    }

    /// Reads the frames that these bytes begin with, and keeps the rest.
    pub fn read(&mut self, alloc: Global, into: &mut Row<Frame>) -> Result<(), FrameFault>
        ensures ok { OnOk result
            ((into.new ≡ into.old ++ (frames_of self.old).frames)
            × ((frames_of self.old).ending ≡ Rest self.new)) }
        ensures fault { IfErr result
            (λ fault. Refuses fault
            ((into.new ≡ into.old ++ (frames_of self.old).frames)
            × ((frames_of self.old).ending ≡ Fault fault))) }
        ensures prefix { GainsFront (frames_of self.old).frames into.old into.new }
    {
        if let Some(head) = data_head(self.front.as_slice()) {
            if self.payload.len() < head.length as usize {
                return Ok(());
            }
            if self.payload.len() == head.length as usize {
                self.front.clear();
                let payload = mem::replace(&mut self.payload, Vec::new(alloc));
                return put(data_frame(head, payload), into);
            }
        }
        self.read_joined(alloc, into)
    }

    /// As `read`, from all bytes in one piece.
    fn read_joined(&mut self, alloc: Global, into: &mut Row<Frame>) -> Result<(), FrameFault>
        ensures ok { OnOk result
            ((into.new ≡ into.old ++ (frames_of self.old).frames)
            × ((frames_of self.old).ending ≡ Rest self.new)) }
        ensures fault { IfErr result
            (λ fault. Refuses fault
            ((into.new ≡ into.old ++ (frames_of self.old).frames)
            × ((frames_of self.old).ending ≡ Fault fault))) }
        ensures prefix { GainsFront (frames_of self.old).frames into.old into.new }
    {
        keep(&mut self.front, self.payload.as_slice())?;
        self.payload.clear();
        read_front(alloc, &mut self.front, into)
    }
}

/// Reads the frames that these bytes begin with, and keeps the rest.
fn read_front(alloc: Global, front: &mut Vec<u8>, into: &mut Row<Frame>) -> Result<(), FrameFault>
    ensures ok { OnOk result
        ((into.new ≡ into.old ++ (frames_of front.old.items).frames)
        × ((frames_of front.old.items).ending ≡ Rest front.new.items)) }
    ensures fault { IfErr result
        (λ fault. Refuses fault
        ((into.new ≡ into.old ++ (frames_of front.old.items).frames)
        × ((frames_of front.old.items).ending ≡ Fault fault))) }
    ensures prefix { GainsFront (frames_of front.old.items).frames into.old into.new }
{
    let used = frames(alloc, front.as_slice(), into)?;
    if used > 0 {
        front.rotate_left(used);
        front.truncate(front.len() - used);
    }
    Ok(())
}

/// The head that these bytes are, if it is that of DATA without padding and of a length that
/// may come.
fn data_head(front: &[u8]) -> Option<Head>
    ensures { IfSome result (λ head. IsDataHead front.now head) }
{
    if front.len() != HEAD_LEN {
        return None;
    }
    let head = Head::read(front);
    let plain = head.kind == frame_type::DATA && head.flags & flag::PADDED == 0;
    if plain && head.length <= MAX_FRAME_SIZE {
        Some(head)
    } else {
        None
    }
}

/// DATA without padding, whose bytes stay where they lie.
fn data_frame(head: Head, payload: Vec<u8>) -> Frame
    ensures { result ≡ data_frame_of head payload.items }
{
    Frame {
        stream: head.stream,
        body: Body::Bytes {
            bytes: Octets::from_vec(payload),
            size: head.length,
            ended: head.flags & flag::END_STREAM != 0,
        },
    }
}

/// Makes room for all of a payload before some of it comes, so that it stays where it lies.
/// Where memory is short, it grows as it comes.
fn make_room(payload: &mut Vec<u8>, head: Head, coming: usize)
    ensures { payload.new.items ≡ payload.old.items }
{
    if coming > 0 {
        let _ = payload.reserve(head.length as usize);
    }
}

fn keep(kept: &mut Vec<u8>, bytes: &[u8]) -> Result<(), FrameFault>
    ensures ok { OnOk result (kept.new.items ≡ kept.old.items ++ bytes.now) }
    ensures err { IfErr result (λ fault. fault ≡ FrameFault.Memory) }
{
    match kept.extend_from_slice(bytes) {
        Ok(()) => Ok(()),
        Err(_) => Err(FrameFault::Memory),
    }
}

fn put(frame: Frame, into: &mut Row<Frame>) -> Result<(), FrameFault>
    ensures ok { OnOk result (into.new ≡ into.old ++ frame ∷ []) }
    ensures same { OnErr result (into.new ≡ into.old) }
    ensures err { IfErr result (λ fault. fault ≡ FrameFault.Memory) }
{
    match into.push(frame) {
        Ok(()) => Ok(()),
        Err(_) => Err(FrameFault::Memory),
    }
}
