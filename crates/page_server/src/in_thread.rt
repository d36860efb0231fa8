//! The pages of an agent, in a thread.

use crate::server::Server;
use std::alloc::Global;
use std::sync::Arc;
use std::thread;
use std::thread::Threads;
use wl_edge::EdgeFault;
use wl_edge_real::{RealListener, Stop};
use wl_outlook::Outlook;

/// Serves the pages of what is known of an agent at this listener, in a thread of its own, for as long as the process runs. A request
/// for a stop asks for this one; without one, `/stop` is no page: whoever can reach the listener could end the agent.
pub fn serve_pages<W: Threads>(
    threads: &W,
    alloc: Global,
    listener: RealListener,
    outlook: Arc<Outlook>,
    stop: Option<Arc<Stop>>,
) -> Result<(), EdgeFault> {
    let Ok(own) = outlook.log().runtime().clone() else {
        return Err(EdgeFault::Memory);
    };
    let Ok(server) = Server::start(&own, alloc, listener, outlook, stop) else {
        return Err(EdgeFault::Failed);
    };
    match thread::spawn(threads, move || server.serve(&own)) {
        Ok(_) => Ok(()),
        Err(_) => Err(EdgeFault::Failed),
    }
}
