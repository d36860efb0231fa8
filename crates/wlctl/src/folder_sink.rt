//! Messages that become files.

ghost use Rattle.std.specs.Prelude.{◌≡◌, ◌++◌, [], Some, take, ◌<◌, ◌≤◌, length, IfOk, IfSome, OnErr};

use crate::content::Content;
use crate::folder_writer::FolderWriter;
use crate::keeper::Keeper;
use crate::saying::{KeepLog, shortened};
use crate::telling::taken;
use bundle_files::BundleKind;
use keep_log::KeepEvent;
use std::alloc::{AllocGlobal, Global};
use std::cell::RefCell;
use std::io;
use std::io::Write;
use wl_edge::{Sent, Sink};
use wl_octets::Memory;
use wl_told::Told;

/// How long the head of a frame is: a byte 0 and the length in four bytes.
const HEAD_LEN: usize = 5;

/// What has messages become files.
pub trait TakesMessages {
    /// Has a message become files. Why that failed is said.
    fn take_message(&self, message: &[u8]) -> io::Result<()>;
}

impl TakesMessages for RefCell<Keeper<'_>> {
    fn take_message(&self, message: &[u8]) -> io::Result<()> {
        let Ok(mut keeper) = self.try_borrow_mut() else {
            return Err(io::ErrorKind::Other.into());
        };
        match keeper.take(message) {
            Ok(true) => Ok(()),
            Ok(false) => Err(io::ErrorKind::Other.into()),
            Err(error) => {
                keeper.writer().say(&error);
                Err(error)
            }
        }
    }
}

/// What has bundles become files.
#[derive(Drop)]
pub struct BundleFolder<'a> {
    pub kind: BundleKind,
    pub writer: RefCell<FolderWriter<'a>>,
}

impl TakesMessages for BundleFolder<'_> {
    fn take_message(&self, message: &[u8]) -> io::Result<()> {
        let Ok(mut writer) = self.writer.try_borrow_mut() else {
            return Err(io::ErrorKind::Other.into());
        };
        let kind = self.kind;
        let written = writer.publish(&Content::Bundles { kind, message });
        if let Err(error) = &written {
            writer.say(error);
        }
        written
    }
}

/// A sink that takes the texts of `wl_control::keep` and `keep_bundles`: the message of a frame becomes files in a folder, and a
/// line goes to standard output, or as an event to the log where files are kept. It tells what it took, by a list that exists only
/// in proofs.
#[derive(Drop)]
pub struct FolderSink<'a, T> {
    rt: HostRuntime,
    log: &'a KeepLog,
    folder: &'a T,
    is_kept: bool,
    put: Told<u8>,
    faults: u64,
}

/// How long the frame at the front is, where it is whole.
fn frame_len(bytes: &[u8]) -> Option<usize>
    ensures { IfSome result (λ len. (5 ≤ len) × (len ≤ length bytes.now)) }
{
    match bytes {
        [0, a, b, c, d, rest @ ..] => {
            let len = u32::from_be_bytes([*a, *b, *c, *d]) as usize;
            if len <= rest.len() {
                Some(HEAD_LEN + len)
            } else {
                None
            }
        }
        _ => None,
    }
}

/// The event of a line that decided a call, without the line's end.
fn answered(alloc: Global, line: &[u8]) -> Result<KeepEvent, Memory> {
    let text = match line {
        [text @ .., b'\n'] => text,
        text => text,
    };
    Ok(KeepEvent::Answered(shortened(alloc, text)?))
}

impl<'a, T: TakesMessages> FolderSink<'a, T> {
    /// A sink for the files of this folder.
    pub fn start(
        rt: HostRuntime,
        log: &'a KeepLog,
        folder: &'a T,
        is_kept: bool,
    ) -> FolderSink<'a, T>
        ensures empty { ⟦<FolderSink<'a, T> as Sink>⟧.taken result ≡ Some [] }
    {
        FolderSink {
            rt,
            log,
            folder,
            is_kept,
            put: Told::new(),
            faults: 0,
        }
    }

    fn write_line(&self, bytes: &[u8]) -> io::Result<()> {
        if self.is_kept {
            self.log.say(answered(self.rt.alloc(), bytes));
            return Ok(());
        }
        self.rt.stdout().write_all(bytes)
    }

    /// Takes the frame at the front, or else a text without one.
    fn take(&self, bytes: &[u8]) -> io::Result<usize>
        requires { 0 < length bytes.now }
        ensures { IfOk result (λ count. (0 < count) × (count ≤ length bytes.now)) }
    {
        let Some(len) = frame_len(bytes) else {
            self.write_line(bytes)?;
            return Ok(bytes.len());
        };
        self.folder
            .take_message(bytes.split_at(len).0.split_at(HEAD_LEN).1)?;
        Ok(len)
    }

    /// The same, and the list has it.
    fn take_told(&mut self, bytes: &[u8]) -> io::Result<usize>
        requires { 0 < length bytes.now }
        ensures count { IfOk result (λ count. (0 < count) × (count ≤ length bytes.now)) }
        ensures put { IfOk result (λ count. self.new.put.list ≡ self.old.put.list ++ take count bytes.now) }
        ensures nothing { OnErr result (self.new.put ≡ self.old.put) }
        ensures faults { self.new.faults ≡ self.old.faults }
    {
        let count = self.take(bytes)?;
        self.put = taken(&self.put, bytes, count);
        Ok(count)
    }
}

impl<T: TakesMessages> Sink for FolderSink<'_, T> {
    ghost taken = { λ s. Some s.put.list };

    ghost faults = { λ s. s.faults };

    fn write(&mut self, bytes: &[u8]) -> Sent {
        match self.take_told(bytes) {
            Ok(count) => Sent::Took(count),
            Err(_) => {
                self.faults = self.faults.saturating_add(1);
                Sent::Failed
            }
        }
    }
}
