//! Commands that write files.

use crate::folder_sink::{BundleFolder, FolderSink};
use crate::folder_writer::{FolderWriter, Wanted};
use crate::keeper::{Keeper, next_wait};
use crate::saying::KeepLog;
use crate::ticking_link::TickingLink;
use crate::token_asks::TokenAsker;
use bundle_files::BundleKind;
use keep_log::KeepEvent;
use std::alloc::{AllocGlobal, Global};
use std::cell::RefCell;
use std::sync::Wait;
use std::thread::sleep;
use std::time::Duration;
use wl_control::status::{CLIENT_FAULT, DENIED, OUT_OF_MEMORY, READ_FAILED, WRITE_FAILED};
use wl_control::{keep, keep_bundles};
use wl_edge_real::{Address, DialedLink};
use wl_octets::{Memory, Octets, Row};

/// Which files are wanted, of which server, and with tokens for which audiences.
#[derive(Drop)]
pub struct Job {
    pub address: Address,
    pub wanted: Wanted,
    pub audiences: Row<Octets>,
}

/// What writes the files of a job.
fn keeper_of<'a>(
    rt: &HostRuntime,
    log: &'a KeepLog,
    address: &Address,
    wanted: Wanted,
    audiences: Row<Octets>,
    is_kept: bool,
) -> Result<Keeper<'a>, Memory> {
    let writer = FolderWriter::start(rt.clone()?, log, wanted, is_kept);
    let asker = TokenAsker::start(rt.clone()?, address.copy()?, audiences);
    Keeper::start(rt.clone()?, writer, asker, is_kept)
}

/// Whether there are tokens to renew.
fn has_audiences(keeper: &RefCell<Keeper<'_>>) -> bool {
    match keeper.try_borrow() {
        Ok(keeper) => keeper.has_audiences(),
        Err(_) => false,
    }
}

/// Makes one call of `keep` for so many messages, whose files this keeper writes.
fn call_once(
    rt: &HostRuntime,
    log: &KeepLog,
    address: &Address,
    keeper: &RefCell<Keeper<'_>>,
    count: u32,
    is_kept: bool,
) -> Result<u8, Memory> {
    let mut dialed = DialedLink::start_at(rt.clone()?, rt.alloc(), address.copy()?)?;
    let mut sink = FolderSink::start(rt.clone()?, log, keeper, is_kept);
    if !has_audiences(keeper) {
        return Ok(keep(rt.alloc(), count, &mut dialed, &mut sink));
    }
    let mut link = TickingLink::start(dialed, keeper);
    Ok(keep(rt.alloc(), count, &mut link, &mut sink))
}

/// Writes the files of one message.
pub fn write(rt: &HostRuntime, job: Job) -> Result<u8, Memory> {
    let Job {
        address,
        wanted,
        audiences,
    } = job;
    let log = KeepLog::start(rt.clone()?);
    let made = keeper_of(rt, &log, &address, wanted, audiences, false)?;
    let keeper = RefCell::new(made);
    let status = call_once(rt, &log, &address, &keeper, 1, false)?;
    match keeper.try_borrow() {
        Ok(keeper) => Ok(keeper.status().unwrap_or(status)),
        Err(_) => Ok(status),
    }
}

/// Writes the files of one message of bundles.
pub fn write_bundles(
    rt: &HostRuntime,
    address: Address,
    kind: BundleKind,
    wanted: Wanted,
) -> Result<u8, Memory> {
    let log = KeepLog::start(rt.clone()?);
    let writer = FolderWriter::start(rt.clone()?, &log, wanted, false);
    let folder = BundleFolder {
        kind,
        writer: RefCell::new(writer),
    };
    let mut link = DialedLink::start_at(rt.clone()?, rt.alloc(), address)?;
    let mut sink = FolderSink::start(rt.clone()?, &log, &folder, false);
    Ok(keep_bundles(rt.alloc(), kind, &mut link, &mut sink))
}

/// Why a call of `keep` ended, in words.
fn reason_of(status: u8) -> &'static str {
    match status {
        READ_FAILED => "the connection broke",
        WRITE_FAILED => "the agent can't be reached, or the files can't be written",
        OUT_OF_MEMORY => "out of memory",
        DENIED => "the agent refused",
        CLIENT_FAULT => "the agent's answer has a fault, or its connection ended",
        _ => "the call ended",
    }
}

/// That a call of `keep` ended with this status. The next one is made after so many seconds.
fn ended(alloc: Global, status: u8, wait: u64) -> Result<KeepEvent, Memory> {
    let reason = Octets::from_slice(alloc, reason_of(status).as_bytes())?;
    Ok(KeepEvent::Ended {
        status,
        wait,
        reason,
    })
}

/// How many sets were written, and whether a file that isn't its own stands in the way.
fn state_of(keeper: &RefCell<Keeper<'_>>) -> (u64, bool) {
    match keeper.try_borrow() {
        Ok(keeper) => (keeper.writer().written(), keeper.writer().is_refused()),
        Err(_) => (0, false),
    }
}

/// Forgets the message of a call that ended.
fn forget(keeper: &RefCell<Keeper<'_>>) {
    if let Ok(mut keeper) = keeper.try_borrow_mut() {
        keeper.forget();
    }
}

/// Writes the files of each message that comes, and connects again where that ends, for ever: it ends only where a file that
/// isn't its own stands in the way.
pub fn stay(waits: &impl Wait, rt: &HostRuntime, job: Job) -> Result<u8, Memory> {
    let Job {
        address,
        wanted,
        audiences,
    } = job;
    let log = KeepLog::start(rt.clone()?);
    let made = keeper_of(rt, &log, &address, wanted, audiences, true)?;
    let keeper = RefCell::new(made);
    let mut seconds: u64 = 1;
    'calls: for _ in waits.forever() {
        let (before, _) = state_of(&keeper);
        let status = call_once(rt, &log, &address, &keeper, u32::MAX, true).unwrap_or(
            OUT_OF_MEMORY,
        );
        let (written, is_refused) = state_of(&keeper);
        if is_refused {
            break 'calls;
        }
        forget(&keeper);
        if written > before {
            seconds = 1;
        }
        log.say(ended(rt.alloc(), status, seconds));
        sleep(rt, Duration::from_secs(seconds));
        seconds = next_wait(seconds);
    }
    Ok(WRITE_FAILED)
}
