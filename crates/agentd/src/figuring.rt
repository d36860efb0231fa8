//! What is known of a running agent.

use event_log::FaultLine;
use log_output::Log;
use std::alloc::Global;
use std::sync::Arc;
use wl_config::Config;
use wl_document::DocFault;
use wl_octets::Memory;
use wl_outlook::{FaultLines, Outlook};
use wl_replay::put_fault;

/// How the line of a document's fault begins.
const DOCUMENT_FAULT: &[u8] = b"fault document";

/// Writes the faults of documents as all commands do.
#[derive(Clone, Copy, Debug, Drop)]
pub struct DocumentFaults;

impl FaultLines for DocumentFaults {
    fn line_of(&self, alloc: Global, fault: DocFault) -> Result<Option<FaultLine>, Memory> {
        let mut line = Vec::new(alloc);
        line.extend_from_slice(DOCUMENT_FAULT)?;
        put_fault(&mut line, fault)?;
        FaultLine::read(alloc, line.as_slice())
    }
}

/// What is known of an agent that begins with this configuration and this log.
pub(crate) fn make_outlook(
    alloc: Global,
    config: &Config,
    log: Arc<Log>,
) -> Result<Arc<Outlook>, Memory> {
    let outlook = Outlook::start(alloc, log);
    for socket in config.sockets.as_slice() {
        outlook.add_socket(socket.place.name(), &socket.selectors)?;
    }
    Arc::new(alloc, outlook).map_err(|_| Memory)
}
