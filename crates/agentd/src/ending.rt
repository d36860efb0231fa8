//! Why a command ended, in words.

use event_log::{Event, FaultLine};
use fault_lines::explain_text;
use log_output::Log;
use std::alloc::Global;
use wl_agent::status::{
    DENIED, DOCUMENT_FAULT, DONE, HOST_FAILED, NO_DOCUMENT, NO_SVID, OUT_OF_MEMORY, READ_FAILED,
    TOO_LONG, USAGE, WRITE_FAILED,
};

/// Why a command ended with this status, for a person; nothing where all was done, where `clap` explains the words, and where
/// the fault line has its own sentence.
fn sentence_of(status: u8) -> Option<&'static str> {
    match status {
        DONE | USAGE | DOCUMENT_FAULT => None,
        DENIED => Some("no entry is matched by these selectors"),
        NO_SVID => Some("an entry that these selectors match has no SVID in the document"),
        READ_FAILED => Some("the input could not be read"),
        WRITE_FAILED => Some("standard output could not be written"),
        OUT_OF_MEMORY => Some("memory ran out"),
        TOO_LONG => Some("the response is longer than 4,194,304 bytes"),
        NO_DOCUMENT => Some("no first document came"),
        _ => Some("a socket, a listener or the host failed"),
    }
}

/// Writes why a command ended with this status to standard error: one sentence. The fault line is the one that it wrote to
/// standard output. Where that fails nobody reads it.
pub(crate) fn explain_end(rt: &HostRuntime, alloc: Global, status: u8, fault: &[u8]) {
    if let Some(sentence) = sentence_of(status) {
        let _ = eprintln!(rt; "agentd: {sentence}");
    }
    if status != DOCUMENT_FAULT {
        return;
    }
    if let Ok(sentence) = explain_text(alloc, fault) {
        if let Ok(sentence) = str::from_utf8(sentence.as_slice()) {
            let _ = eprintln!(rt; "agentd: {sentence}");
        }
    }
}

/// Says the fault of the configuration, or that of the first document where sockets were prepared.
fn say_fault(log: &Log, alloc: Global, fault: &[u8], is_prepared: bool) {
    if let Ok(Some(fault)) = FaultLine::read(alloc, fault) {
        if is_prepared {
            log.say(&Event::FirstDocumentRefused(&fault));
        } else {
            log.say(&Event::ConfigurationRefused(&fault));
        }
    }
}

/// Says why `serve` ended with this status.
pub(crate) fn say_end(log: &Log, alloc: Global, status: u8, fault: &[u8], is_prepared: bool) {
    match status {
        DONE => {}
        DOCUMENT_FAULT => say_fault(log, alloc, fault, is_prepared),
        READ_FAILED => log.say(&Event::ConfigurationUnread),
        WRITE_FAILED => log.say(&Event::OutputFailed),
        OUT_OF_MEMORY => log.say(&Event::OutOfMemory),
        NO_DOCUMENT => log.say(&Event::NoFirstDocument),
        _ => log.say(&Event::HostFailed),
    }
    log.say(&Event::Stopping(status));
}
