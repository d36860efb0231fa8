//! A gate at which the configuration is read again, and sockets are bound.

use crate::agent_sockets::AgentSockets;
use crate::rereading::Rereading;
use std::fs::{File, Files};
use std::net::{Net, TcpListener, TcpStream};
use std::rt::Clock;
use std::sync::Arc;
use wl_edge::{BEFORE_UPKEEP, Gate};
use wl_edge_real::Stop;
use wl_outlook::Outlook;

/// A gate that holds whom another holds. Before each pull the configuration is read again where its file changed, and each socket is
/// bound that peers don't find, until all is to stop.
#[derive(Drop)]
pub struct MendingGate<G, R> {
    inner: G,
    rt: R,
    outlook: Arc<Outlook>,
    sockets: Arc<AgentSockets>,
    rereading: Option<Rereading<R>>,
    stop: Arc<Stop>,
}

impl<G, R> MendingGate<G, R>
where
    G: Gate + Drop,
    R: Net<Listener = TcpListener, Stream = TcpStream> + Files<File = File> + Clock + Clone + Drop,
{
    /// The gate of an agent with these sockets, whose configuration is read again where it stands in a file.
    pub(crate) fn start(
        inner: G,
        rt: R,
        outlook: Arc<Outlook>,
        sockets: Arc<AgentSockets>,
        rereading: Option<Rereading<R>>,
        stop: Arc<Stop>,
    ) -> MendingGate<G, R> {
        MendingGate {
            inner,
            rt,
            outlook,
            sockets,
            rereading,
            stop,
        }
    }
}

impl<G, R> Gate for MendingGate<G, R>
where
    G: Gate + Drop,
    R: Net<Listener = TcpListener, Stream = TcpStream> + Files<File = File> + Clock + Clone + Drop,
{
    fn pass(&self, point: u32) {
        self.inner.pass(point);
        if point == BEFORE_UPKEEP && !self.stop.is_asked() {
            let log = self.outlook.log();
            let alloc = log.runtime().alloc();
            if let Some(rereading) = &self.rereading {
                rereading.look(&self.rt, alloc, &self.sockets);
            }
            self.sockets.mend(&self.rt, alloc, log);
        }
    }

    fn note_publication(&self, number: u64) {
        self.inner.note_publication(number);
    }
}
