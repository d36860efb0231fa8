//! The configuration is read again while the agent runs.

use crate::agent_sockets::AgentSockets;
use crate::documents::make_source;
use crate::settings::level_of;
use crate::targets::Targets;
use event_log::{Event, FaultLine, RestartMember};
use log_output::Log;
use std::alloc::Global;
use std::fs::{File, Files};
use std::io::ErrorKind;
use std::net::{Net, TcpListener, TcpStream};
use std::os::unix::fs::MetadataExt;
use std::rt::Clock;
use std::string::String;
use std::sync::{Arc, Mutex};
use std::{fs, io};
use wl_agent::line_of_config_fault;
use wl_config::{
    CONFIG_LIMIT, Config, ConfigFault, ConnectionLimits, DocumentSource, MetricsPlace, SocketFact,
    read_config,
};
use wl_edge::{ReadFault, RealSource, read_all};
use wl_octets::{Memory, Octets, Row};
use wl_outlook::Outlook;

/// What tells that a file is another than before, or has other bytes.
#[derive(Clone, Copy, Debug, Drop, PartialEq, Eq)]
pub struct FileMark {
    device: u64,
    inode: u64,
    size: u64,
    /// When it was changed last: Unix seconds, and nanoseconds.
    changed: (i64, i64),
}

impl FileMark {
    /// Of the file that stands at this path.
    pub(crate) fn at(rt: &impl Files, path: &str) -> io::Result<FileMark> {
        let found = fs::metadata(rt, path)?;
        Ok(FileMark {
            device: found.dev(),
            inode: found.ino(),
            size: found.size(),
            changed: (found.ctime(), found.ctime_nsec()),
        })
    }
}

/// What takes effect only as the agent starts.
#[derive(Drop, PartialEq)]
struct Fixed {
    signers: u32,
    metrics: Option<MetricsPlace>,
    threads: u32,
    limits: ConnectionLimits,
}

/// What the agent has taken of its configuration.
#[derive(Drop)]
struct Taken {
    /// The file as it was read last; none where it is to be read whatever it is.
    mark: Option<FileMark>,
    /// What the agent started with.
    fixed: Fixed,
    documents: DocumentSource,
    signer: Option<Octets>,
    /// The sockets that it is to serve, until it does.
    wanted: Option<Row<SocketFact>>,
}

/// The configuration's file, and what the agent has taken of it.
#[derive(Drop)]
pub(crate) struct ConfigFile {
    path: String,
    taken: Taken,
}

/// The parts of a configuration: what takes effect only at a start, and what is taken while the agent runs.
fn parts_of(config: Config) -> (Fixed, DocumentSource, Option<Octets>, Row<SocketFact>) {
    let Config {
        documents,
        signer,
        signers,
        metrics,
        threads,
        limits,
        sockets,
        ..
    } = config;
    let fixed = Fixed {
        signers,
        metrics,
        threads,
        limits,
    };
    (fixed, documents, signer, sockets)
}

impl ConfigFile {
    /// The file at this path, which was like this before this text was read of it. None where the text has a fault: serving names it.
    pub(crate) fn start(
        alloc: Global,
        path: &str,
        mark: Option<FileMark>,
        text: &[u8],
    ) -> Result<Option<ConfigFile>, Memory> {
        let config = match read_config(alloc, text) {
            Ok(config) => config,
            Err(ConfigFault::Memory) => return Err(Memory),
            Err(_) => return Ok(None),
        };
        let (fixed, documents, signer, _) = parts_of(config);
        let Ok(path) = String::from_str(alloc, path) else {
            return Err(Memory);
        };
        let taken = Taken {
            mark,
            fixed,
            documents,
            signer,
            wanted: None,
        };
        Ok(Some(ConfigFile { path, taken }))
    }
}

/// Reads the configuration again where its file changed, and has the agent do as it says.
#[derive(Drop)]
pub struct Rereading<R> {
    path: String,
    taken: Mutex<Taken>,
    targets: Targets<R>,
    outlook: Arc<Outlook>,
}

/// Opens a plain file. Opening a pipe could wait for ever.
fn open_file<R: Files<File = File>>(rt: &R, path: &str) -> io::Result<File> {
    if !fs::metadata(rt, path)?.is_file() {
        return Err(io::Error::from(ErrorKind::InvalidInput));
    }
    File::open(rt, path)
}

/// Reads the file at this path.
fn read_text<R: Files<File = File>>(
    rt: &R,
    alloc: Global,
    path: &str,
) -> Result<Vec<u8>, ReadFault> {
    let Ok(file) = open_file(rt, path) else {
        return Err(ReadFault::Failed);
    };
    // One byte more than a configuration may have tells that it is too long.
    read_all(
        alloc,
        &mut RealSource::start(file),
        CONFIG_LIMIT.saturating_add(1),
    )
}

/// Says the fault of a configuration, of which nothing is taken.
fn say_refused(log: &Log, alloc: Global, fault: ConfigFault) -> Result<(), Memory> {
    let line = line_of_config_fault(alloc, fault)?;
    let Some((_end_of_line, text)) = line.as_slice().split_last() else {
        return Ok(());
    };
    if let Some(fault) = FaultLine::read(alloc, text)? {
        log.say(&Event::LaterConfigurationRefused(&fault));
    }
    Ok(())
}

/// Says which members differ from those with which the agent started.
fn say_restarts(log: &Log, started: &Fixed, now: &Fixed) {
    let (old, new) = (started.limits, now.limits);
    let members = [
        (RestartMember::Threads, started.threads != now.threads),
        (RestartMember::Signers, started.signers != now.signers),
        (RestartMember::Metrics, started.metrics != now.metrics),
        (
            RestartMember::StallSeconds,
            old.stall_seconds != new.stall_seconds,
        ),
        (
            RestartMember::OpeningSeconds,
            old.opening_seconds != new.opening_seconds,
        ),
        (RestartMember::MemoryMib, old.memory_mib != new.memory_mib),
    ];
    for (member, differs) in members {
        if differs {
            log.say(&Event::RestartWanted(member));
        }
    }
}

impl<R> Rereading<R>
where
    R: Net<Listener = TcpListener, Stream = TcpStream> + Files<File = File> + Clock + Clone + Drop,
{
    /// Of this file, which these follow.
    pub(crate) fn start(
        file: ConfigFile,
        targets: Targets<R>,
        outlook: Arc<Outlook>,
    ) -> Rereading<R> {
        let ConfigFile { path, taken } = file;
        Rereading {
            path,
            taken: Mutex::new(taken),
            targets,
            outlook,
        }
    }

    /// Has documents come from there, where that is another place than before.
    fn follow_documents(
        &self,
        rt: &R,
        alloc: Global,
        taken: &mut Taken,
        documents: DocumentSource,
    ) -> Result<(), Memory> {
        if documents == taken.documents {
            return Ok(());
        }
        if !self.targets.source.put(make_source(rt, alloc, &documents)?) {
            return Err(Memory);
        }
        taken.documents = documents;
        Ok(())
    }

    /// Has signers ask at another socket. That there is a signer, or none, takes effect only at a start.
    fn follow_signer(
        &self,
        alloc: Global,
        taken: &mut Taken,
        signer: Option<Octets>,
    ) -> Result<(), Memory> {
        if signer == taken.signer {
            return Ok(());
        }
        match (&taken.signer, &signer) {
            (Some(_), Some(path)) => {
                if !self.targets.signer.put(path.copy(alloc)?) {
                    return Err(Memory);
                }
                taken.signer = signer;
            }
            _ => self
                .outlook
                .log()
                .say(&Event::RestartWanted(RestartMember::Signer)),
        }
        Ok(())
    }

    /// Takes a configuration.
    fn take(&self, rt: &R, alloc: Global, taken: &mut Taken, config: Config) -> Result<(), Memory> {
        let log = self.outlook.log();
        log.set_level(level_of(&config));
        self.targets.pace.set(config.poll_seconds);
        let (fixed, documents, signer, sockets) = parts_of(config);
        say_restarts(log, &taken.fixed, &fixed);
        self.follow_documents(rt, alloc, taken, documents)?;
        self.follow_signer(alloc, taken, signer)?;
        taken.wanted = Some(sockets);
        Ok(())
    }

    /// Reads the file, and takes what it says, unless it has a fault.
    fn read(&self, rt: &R, alloc: Global, taken: &mut Taken) -> Result<(), Memory> {
        let text = match read_text(rt, alloc, self.path.as_str()) {
            Ok(text) => text,
            Err(ReadFault::Memory) => return Err(Memory),
            Err(ReadFault::Failed) => {
                self.outlook.log().say(&Event::ConfigurationUnread);
                return Ok(());
            }
        };
        match read_config(alloc, text.as_slice()) {
            Ok(config) => self.take(rt, alloc, taken, config),
            Err(ConfigFault::Memory) => Err(Memory),
            Err(fault) => say_refused(self.outlook.log(), alloc, fault),
        }
    }

    /// Has the agent serve the sockets that it is to serve. Where memory ran out it goes on with that later.
    fn serve(&self, rt: &R, alloc: Global, taken: &mut Taken, sockets: &AgentSockets) {
        let Some(wanted) = taken.wanted.take() else {
            return;
        };
        let log = self.outlook.log();
        match sockets.serve(rt, alloc, &self.outlook, wanted.as_slice()) {
            Some(Ok(changes)) => log.say(&Event::ConfigurationTaken(changes)),
            Some(Err(Memory)) => {
                log.say(&Event::OutOfMemory);
                taken.wanted = Some(wanted);
            }
            None => taken.wanted = Some(wanted),
        }
    }

    /// Looks whether the file changed, and has the agent do as it says. Of a file with a fault nothing is taken, and the log has the
    /// fault once.
    pub(crate) fn look(&self, rt: &R, alloc: Global, sockets: &AgentSockets) {
        let Some(mut taken) = self.taken.try_lock() else {
            return;
        };
        let mark = FileMark::at(rt, self.path.as_str()).ok();
        if mark != taken.mark {
            taken.mark = mark;
            if self.read(rt, alloc, &mut taken).is_err() {
                self.outlook.log().say(&Event::OutOfMemory);
                // it is read again at the next look
                taken.mark = None;
            }
        }
        self.serve(rt, alloc, &mut taken, sockets);
    }
}
