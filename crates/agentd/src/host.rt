//! The real host: what a configuration names, over the operating system.

ghost use Rattle.std.specs.Prelude.{◌≡◌, ◌<◌, ◌≤◌, ⊤, [], IfOk, IfSome, IsErrOf, length};
ghost use Rattle.wl_edge.specs.Edge.{Rose};

use crate::agent_sockets::AgentSockets;
use crate::bells::SharedBell;
use crate::bound::Bound;
use crate::documents::{AgentUpstream, make_source};
use crate::doors::{discard_all, open_all};
use crate::figuring::{DocumentFaults, make_outlook};
use crate::listening::listen_for_readers;
use crate::mending::MendingGate;
use crate::owners::{copy_of, one_more};
use crate::rereading::{ConfigFile, Rereading};
use crate::seats::{HostAttestor, HostClock, HostListener, Seats};
use crate::settings::level_of;
use crate::signers::{AgentSigner, AgentVoucher, SignedBy};
use crate::targets::Targets;
use document_signer::{DocumentSigner, SharedIdentities, SharingUpstream, share_identities};
use log_output::Log;
use page_server::serve_pages;
use std::alloc::Global;
use std::fs::{File, Files};
use std::mem;
use std::net::{Net, TcpListener, TcpStream};
use std::rt::Clock;
use std::sync::atomic::AtomicBool;
use std::sync::{Arc, Wait};
use std::thread::Threads;
use wl_config::Config;
use wl_dealing::seat_count;
use wl_edge::{EdgeFault, Upstream};
use wl_edge_real::{RealClock, RealGate, RealReady, Stop, Unnamed};
use wl_octets::Memory;
use wl_outlook::Outlook;
use wl_saying::{SayingGate, SayingSigner, SayingUpstream};
use wl_serve::{Binder, Parts, Upkeep, make_seats};
use wl_signlink::SignLink;
use wl_telling::{TellingClock, TellingSigner, TellingUpstream};
use wl_worker::{AskHub, Signing};

/// The operating system as a host. It keeps its own copy of the runtime.
#[derive(Drop)]
pub struct RealHost<R> {
    rt: R,
    /// What it says of all that it prepares, and of what comes of it.
    log: Arc<Log>,
    /// What has all that it prepared end.
    stop: Arc<Stop>,
    /// The files of its sockets that have no names yet.
    unnamed: Vec<Unnamed>,
    /// Its sockets, once they were prepared.
    sockets: Option<Arc<AgentSockets>>,
    /// The configuration's file, until its sockets are prepared.
    file: Option<ConfigFile>,
    faults: u64,
}

/// A signer of the real host.
type HostSigner<R> = TellingSigner<SayingSigner<AgentSigner<R>>>;

/// Its upstream.
type HostUpstream<R> = TellingUpstream<
    SharingUpstream<SayingUpstream<AgentUpstream<R>, DocumentFaults>>,
>;

/// The identities of the documents, for the signers of a configuration that names none.
fn identities_of(alloc: Global, config: &Config) -> Result<Option<SharedIdentities>, Memory> {
    match &config.signer {
        Some(_) => Ok(None),
        None => Ok(Some(share_identities(alloc)?)),
    }
}

/// One more owner of the identities.
fn share(identities: &Option<SharedIdentities>) -> Result<Option<SharedIdentities>, Memory> {
    match identities {
        Some(identities) => match identities.clone() {
            Ok(identities) => Ok(Some(identities)),
            Err(_) => Err(Memory),
        },
        None => Ok(None),
    }
}

/// The upstream of a configuration, which shares the identities of its documents.
fn make_upstream<R: Net + Files + Clock + Clone + Drop>(
    rt: &R,
    alloc: Global,
    config: &Config,
    identities: &Option<SharedIdentities>,
    outlook: &Arc<Outlook>,
    targets: &Targets<R>,
) -> Result<HostUpstream<R>, EdgeFault>
    ensures faults { IfOk result (λ u. ⟦<HostUpstream<R> as Upstream>⟧.faults u ≡ 0) }
    ensures told { IfOk result (λ u. IfSome (⟦<HostUpstream<R> as Upstream>⟧.told u)
        (λ log. log ≡ record { calls = []; number = 0 })) }
{
    let source = make_source(rt, alloc, &config.documents)?;
    let upstream = SayingUpstream::start(
        alloc,
        AgentUpstream::start(source, one_more(&targets.source)?),
        one_more(outlook)?,
        DocumentFaults,
    )?;
    let sharing = SharingUpstream::start(upstream, alloc, share(identities)?);
    Ok(TellingUpstream::start(sharing))
}

/// A signer of a configuration: the one that it names, or its documents.
fn make_signer<R: Net + Clock + Clone + Drop>(
    rt: &R,
    alloc: Global,
    config: &Config,
    identities: &Option<SharedIdentities>,
    outlook: &Arc<Outlook>,
    targets: &Targets<R>,
    is_failing: Arc<AtomicBool>,
) -> Result<HostSigner<R>, Memory> {
    let by = match (&config.signer, share(identities)?) {
        (Some(path), _) => SignedBy::Link(SignLink::start(rt, alloc, path.as_slice())?),
        (None, Some(identities)) => SignedBy::Documents(DocumentSigner::start(alloc, identities)),
        (None, None) => SignedBy::Documents(DocumentSigner::start(alloc, share_identities(alloc)?)),
    };
    let signer = SayingSigner::start(
        alloc,
        AgentSigner::start(copy_of(rt)?, alloc, by, one_more(&targets.signer)?),
        one_more(outlook)?,
        is_failing,
    );
    Ok(TellingSigner::start(signer))
}

/// A signer of a configuration, with its clock.
type RealSigning<R> = Signing<HostSigner<R>, HostClock<R>>;

/// The signer of a configuration, over as many streams as it says.
fn make_signers<R: Net + Clock + Clone + Drop>(
    rt: &R,
    alloc: Global,
    config: &Config,
    identities: &Option<SharedIdentities>,
    outlook: &Arc<Outlook>,
    targets: &Targets<R>,
) -> Result<Vec<RealSigning<R>>, EdgeFault>
    ensures { IfOk result (λ s. 0 < length s.items) }
{
    let Ok(is_failing) = Arc::new(alloc, AtomicBool::new(false)) else {
        return Err(EdgeFault::Memory);
    };
    let mut signers = Vec::new(alloc);
    for _ in 0..config.signers {
        let signing = Signing {
            signer: make_signer(
                rt,
                alloc,
                config,
                identities,
                outlook,
                targets,
                one_more(&is_failing)?,
            )?,
            clock: TellingClock::start(RealClock::start(copy_of(rt)?)),
        };
        if signers.push(signing).is_err() {
            return Err(EdgeFault::Memory);
        }
    }
    if signers.is_empty() {
        return Err(EdgeFault::Memory);
    }
    Ok(signers)
}

/// The upstream and the signers of a configuration, which share the documents' identities where it names no signer, with their clocks.
fn make_upkeep<R: Net + Files + Clock + Clone + Drop>(
    rt: &R,
    alloc: Global,
    config: &Config,
    outlook: &Arc<Outlook>,
    targets: &Targets<R>,
) -> Result<Upkeep<HostUpstream<R>, HostSigner<R>, HostClock<R>>, EdgeFault>
    ensures faults { IfOk result (λ u. ⟦<HostUpstream<R> as Upstream>⟧.faults u.upstream ≡ 0) }
    ensures told { IfOk result (λ u. IfSome (⟦<HostUpstream<R> as Upstream>⟧.told u.upstream)
        (λ log. log ≡ record { calls = []; number = 0 })) }
    ensures signers { IfOk result (λ u. 0 < length u.signers.items) }
{
    let identities = identities_of(alloc, config)?;
    let upstream = make_upstream(rt, alloc, config, &identities, outlook, targets)?;
    Ok(Upkeep {
        upstream,
        puller: TellingClock::start(RealClock::start(copy_of(rt)?)),
        keeper: TellingClock::start(RealClock::start(copy_of(rt)?)),
        signers: make_signers(rt, alloc, config, &identities, outlook, targets)?,
    })
}

/// A gate of the real host.
type HostGate<R> = MendingGate<SayingGate<RealGate<R>>, R>;

/// The gate of a configuration with these sockets, which is read again where it stands in this file.
fn make_gate<
    R: Net<Listener = TcpListener, Stream = TcpStream> + Files<File = File> + Clock + Clone + Drop,
>(
    rt: &R,
    config: &Config,
    outlook: &Arc<Outlook>,
    stop: &Arc<Stop>,
    sockets: &Arc<AgentSockets>,
    targets: Targets<R>,
    file: Option<ConfigFile>,
) -> Result<HostGate<R>, Memory> {
    let gate = RealGate::start(copy_of(rt)?, one_more(&targets.pace)?, one_more(stop)?);
    let count = u32::try_from(config.sockets.len()).unwrap_or(u32::MAX);
    let gate = SayingGate::start(gate, one_more(outlook)?, count, one_more(stop)?);
    let rereading = match file {
        Some(file) => Some(Rereading::start(file, targets, one_more(outlook)?)),
        None => None,
    };
    Ok(MendingGate::start(
        gate,
        copy_of(rt)?,
        one_more(outlook)?,
        one_more(sockets)?,
        rereading,
        one_more(stop)?,
    ))
}

/// Serves the pages, where the configuration has a place for them, and gives what was bound. The log says why that can't be bound. Only
/// readers at a path can stop the agent: its file says who they are.
fn start_pages<R: Net<Listener = TcpListener, Stream = TcpStream> + Files<File = File>, W: Threads>(
    threads: &W,
    rt: &R,
    alloc: Global,
    config: &Config,
    outlook: &Arc<Outlook>,
    stop: &Arc<Stop>,
) -> Result<Bound, EdgeFault> {
    let mut bound = Bound::start(alloc)?;
    let Some(place) = &config.metrics else {
        return Ok(bound);
    };
    let (listener, door) = listen_for_readers(rt, alloc, place, outlook.log())?;
    let stop = match door {
        Some(door) => {
            bound.keep_pages(door);
            Some(one_more(stop)?)
        }
        None => None,
    };
    serve_pages(threads, alloc, listener, one_more(outlook)?, stop)?;
    Ok(bound)
}

/// Over which the seats of a configuration ask its signers.
fn make_hub(alloc: Global, config: &Config) -> Result<Arc<AskHub<AgentVoucher>>, Memory> {
    let sockets = config.sockets.as_slice();
    let seats = seat_count(config.threads, sockets) as usize;
    AskHub::start(alloc, seats, sockets.len(), config.signers)
}

impl<R: Files + Drop> RealHost<R> {
    /// A host over this runtime, with this log. A configuration that stands in this file is read again once it changes. Nothing is
    /// bound yet.
    pub(crate) fn start(
        rt: R,
        alloc: Global,
        log: Arc<Log>,
        file: Option<ConfigFile>,
    ) -> Result<RealHost<R>, Memory> {
        let Ok(stop) = Arc::new(alloc, Stop::start()) else {
            return Err(Memory);
        };
        Ok(RealHost {
            rt,
            log,
            stop,
            unnamed: Vec::new(alloc),
            sockets: None,
            file,
            faults: 0,
        })
    }

    /// Removes the files of its sockets, named or not, so that nobody else listens there. Other files are left as they are.
    pub fn remove_files(&mut self, alloc: Global) {
        let unnamed = mem::replace(&mut self.unnamed, Vec::new(alloc));
        discard_all(&self.rt, unnamed);
        if let Some(sockets) = &self.sockets {
            sockets.remove_files(&self.rt);
        }
    }
}

impl<R> RealHost<R> {
    /// What is known of an agent with this configuration, whose level the log has from now on.
    fn begin(&mut self, alloc: Global, config: &Config) -> Result<Arc<Outlook>, EdgeFault>
        ensures failed { IsErrOf result EdgeFault.Failed → Rose self.old.faults self.new.faults }
        ensures later { self.old.faults ≤ self.new.faults }
    {
        self.log.set_level(level_of(config));
        match make_outlook(alloc, config, one_more(&self.log)?) {
            Ok(outlook) => Ok(outlook),
            Err(Memory) => Err(EdgeFault::Memory),
        }
    }

    /// Keeps what was bound, and gives its sockets.
    fn keep(&mut self, alloc: Global, bound: Bound) -> Result<Arc<AgentSockets>, Memory>
        ensures { self.new.faults ≡ self.old.faults }
    {
        let (sockets, unnamed) = bound.part(alloc);
        self.unnamed = unnamed;
        let sockets = sockets?;
        self.sockets = Some(one_more(&sockets)?);
        Ok(sockets)
    }

    /// Counts a fault, except out of memory.
    fn count(&mut self, fault: EdgeFault) -> EdgeFault
        ensures same { result ≡ fault }
        ensures failed { fault ≡ EdgeFault.Failed → Rose self.old.faults self.new.faults }
        ensures later { self.old.faults ≤ self.new.faults }
    {
        if fault == EdgeFault::Failed {
            self.faults = self.faults.saturating_add(1);
        }
        fault
    }
}

impl<
    R: Net<Listener = TcpListener, Stream = TcpStream>
        + Files<File = File>
        + Clock
        + Clone
        + Drop
        + Send
        + Sync,
> Binder for RealHost<R> {
    type Up = HostUpstream<R>;

    type Listen = HostListener;

    type Sign = HostSigner<R>;

    type Att = HostAttestor;

    type Time = HostClock<R>;

    type Poll = RealReady<R>;

    type Door = HostGate<R>;

    type Ring = SharedBell;

    ghost tells = { ⊤ };

    ghost faults = { λ h. h.faults };

    fn prepare<W: Threads + Wait + Sync>(
        &mut self,
        threads: &W,
        alloc: Global,
        config: &Config,
    ) -> Result<Parts<RealHost<R>>, EdgeFault> {
        let outlook = self.begin(alloc, config)?;
        let targets = Targets::start(alloc, config.poll_seconds)?;
        let upkeep = match make_upkeep(&self.rt, alloc, config, &outlook, &targets) {
            Ok(upkeep) => upkeep,
            Err(fault) => return Err(self.count(fault)),
        };
        let hub = make_hub(alloc, config)?;
        let bound = match start_pages(threads, &self.rt, alloc, config, &outlook, &self.stop) {
            Ok(bound) => bound,
            Err(fault) => return Err(self.count(fault)),
        };
        let mut maker = Seats {
            rt: &self.rt,
            hub: &hub,
            outlook: &outlook,
            stop: &self.stop,
            limits: config.limits,
            bound,
        };
        let sockets = config.sockets.as_slice();
        let (seats, bells) = match make_seats(alloc, &mut maker, config.threads, sockets) {
            Ok(both) => both,
            Err(fault) => {
                let Seats { bound, .. } = maker;
                bound.discard(&self.rt);
                return Err(self.count(fault));
            }
        };
        let Seats { bound, .. } = maker;
        let sockets = self.keep(alloc, bound)?;
        let file = self.file.take();
        let (rt, stop) = (&self.rt, &self.stop);
        let gate = make_gate(rt, config, &outlook, stop, &sockets, targets, file)?;
        Ok(Parts {
            upkeep,
            gate,
            hub,
            seats,
            bells,
        })
    }

    fn open(&mut self, alloc: Global) -> Result<(), EdgeFault> {
        let unnamed = mem::replace(&mut self.unnamed, Vec::new(alloc));
        if let Err(fault) = open_all(&self.rt, alloc, unnamed, &self.log) {
            return Err(self.count(fault));
        }
        if let Some(sockets) = &self.sockets {
            sockets.say_open_to_all(alloc, &self.log);
        }
        Ok(())
    }
}
