//! Where documents come from, as a configuration says.

ghost use Rattle.std.specs.Prelude.{◌≡◌, None};

use crate::listening::text_of;
use crate::owners::copy_of;
use crate::targets::NextSource;
use event_log::PullCause;
use std::alloc::Global;
use std::fs::Files;
use std::net::Net;
use std::rt::Clock;
use std::sync::Arc;
use wl_config::DocumentSource;
use wl_edge::{EdgeFault, Upstream};
use wl_edge_real::{FileUpstream, RealUpstream};
use wl_octets::{Memory, Octets};
use wl_saying::PullFailures;

/// The socket of an authority, or a file.
#[derive(Drop)]
pub enum Source<R> {
    Socket(RealUpstream<R>),
    File(FileUpstream<R>),
}

/// Where documents come from by a configuration.
pub(crate) fn make_source<R: Net + Files + Clock + Clone + Drop>(
    rt: &R,
    alloc: Global,
    documents: &DocumentSource,
) -> Result<Source<R>, Memory> {
    let path = match documents {
        DocumentSource::Socket(path) | DocumentSource::File(path) => path,
    };
    let Ok(text) = text_of(alloc, path) else {
        return Err(Memory);
    };
    let rt = copy_of(rt)?;
    Ok(match documents {
        DocumentSource::Socket(_) => Source::Socket(RealUpstream::start(rt, alloc, text)),
        DocumentSource::File(_) => Source::File(FileUpstream::start(rt, alloc, text)),
    })
}

/// An upstream by either of them, and by another once that is wanted. It counts its faults and tells no content.
#[derive(Drop)]
pub struct AgentUpstream<R> {
    source: Source<R>,
    next: Arc<NextSource<R>>,
    faults: u64,
}

impl<R: Net + Files + Clock + Drop> AgentUpstream<R> {
    /// An upstream by this source, until there is a next one.
    pub fn start(source: Source<R>, next: Arc<NextSource<R>>) -> AgentUpstream<R>
        ensures { ⟦<AgentUpstream<R> as Upstream>⟧.faults result ≡ 0 }
    {
        AgentUpstream {
            source,
            next,
            faults: 0,
        }
    }
}

impl<R: Net + Files + Clock + Drop> Upstream for AgentUpstream<R> {
    ghost told = { λ u. None };

    ghost faults = { λ u. u.faults };

    fn pull(&mut self, into: &mut Octets) -> Result<(), EdgeFault> {
        if let Some(source) = self.next.take() {
            self.source = source;
        }
        let pulled = match &mut self.source {
            Source::Socket(upstream) => upstream.pull(into),
            Source::File(upstream) => upstream.pull(into),
        };
        if pulled == Err(EdgeFault::Failed) {
            self.faults = self.faults.saturating_add(1);
        }
        pulled
    }

    fn is_unchanged(&self) -> bool {
        if !self.next.is_empty() {
            return false;
        }
        match &self.source {
            Source::Socket(upstream) => upstream.is_unchanged(),
            Source::File(upstream) => upstream.is_unchanged(),
        }
    }
}

impl<R: Net + Files + Clock + Drop> PullFailures for AgentUpstream<R> {
    fn cause(&self) -> PullCause {
        match &self.source {
            Source::Socket(_) => PullCause::Socket,
            Source::File(_) => PullCause::File,
        }
    }
}
