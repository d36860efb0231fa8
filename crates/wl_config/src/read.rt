//! A configuration, read.

ghost use Rattle.std.specs.Prelude.{◌≡◌, ℕ, ◌<◌, ◌≤◌, length, IfOk, IfSome};
ghost use Rattle.serde_json.specs.View.{view};
ghost use Rattle.json_members.specs.Members.{or_fault};
ghost use Rattle.json_members.specs.Texts.{value_of};
ghost use Rattle.wl_config.specs.Checks.{Gives};
ghost use Rattle.wl_config.specs.declared.limits.TheConstants.{MAX_SOCKETS, MAX_POLL_SECONDS, MAX_SIGNERS, MAX_THREADS, MAX_LIMIT_SECONDS, MIN_MEMORY_MIB, MAX_MEMORY_MIB};
ghost use Rattle.wl_config.specs.Sockets.{SocketsWithin};
ghost use Rattle.wl_config.specs.Configs.{MetricsWithin, LimitsWithin, threads_of, stall_seconds_of, opening_seconds_of, memory_mib_of, limits_of, path_in, version_of, source_of, signer_of, suppliers_of, poll_seconds_of, signers_of, level_of, level_at, log_of, metrics_by, metrics_at, metrics_of, manner_of, config_sockets_of, config_of, configuration_of};
ghost use Rattle.wl_config.specs.declared.fault.ConfigFault.TheVariants.{NotJson};

use crate::config::{Config, ConnectionLimits, DocumentSource, LogLevel, MetricsPlace, SocketFact};
use crate::fault::ConfigFault;
use crate::limits::{
    CONFIG_LIMIT, DEFAULT_MEMORY_MIB, DEFAULT_OPENING_SECONDS, DEFAULT_POLL_SECONDS,
    DEFAULT_SIGNERS, DEFAULT_STALL_SECONDS, DEFAULT_THREADS, MAX_LIMIT_SECONDS, MAX_MEMORY_MIB,
    MAX_POLL_SECONDS, MAX_SIGNERS, MAX_SOCKET_ITEMS, MAX_THREADS, MIN_MEMORY_MIB,
};
use crate::loopbacks::loopback;
use crate::members::{list_of, number_or, path_at};
use crate::places::top_place;
use crate::sockets::sockets;
use json_members::{json_value, number_at, object_at, required, text_at};
use serde_json::Value;
use std::alloc::Global;
use wl_octets::{Octets, Row};

/// The version, which is 1.
#[tactic(auto, unfolding(crate::specs::Configs::version_of))]
fn version(value: &Value) -> Result<u64, ConfigFault>
    ensures { Gives (λ n. n) result (version_of (view value.now)) }
{
    let place = top_place(1);
    let member = required(ConfigFault::Missing(place), "version", value)?;
    let version = number_at(ConfigFault::Kind(place), member)?;
    if version == 1 {
        Ok(version)
    } else {
        Err(ConfigFault::Version)
    }
}

/// The JSON value of a configuration.
fn value(alloc: Global, bytes: &[u8]) -> Result<Value, ConfigFault>
    ensures { Gives view result (or_fault NotJson (value_of bytes.now)) }
{
    match json_value(alloc, bytes)? {
        Some(value) => Ok(value),
        None => Err(ConfigFault::NotJson),
    }
}

/// The sockets.
#[tactic(auto, unfolding(crate::specs::Configs::config_sockets_of))]
fn config_sockets(alloc: Global, value: &Value) -> Result<Vec<SocketFact>, ConfigFault>
    ensures value { Gives (λ v. v.items) result (config_sockets_of (view value.now)) }
    ensures some { IfOk result (λ v. 0 < length v.items) }
    ensures at_most { IfOk result (λ v. length v.items ≤ MAX_SOCKETS) }
    ensures within { IfOk result (λ v. SocketsWithin v.items) }
{
    sockets(
        alloc,
        list_of(MAX_SOCKET_ITEMS, top_place(5), "sockets", value)?,
    )
}

/// Where documents come from: exactly one of a socket and a file.
#[tactic(auto, unfolding(crate::specs::Configs::source_of))]
fn documents(alloc: Global, value: &Value) -> Result<DocumentSource, ConfigFault>
    ensures value { Gives (λ s. s) result (source_of (view value.now)) }
    ensures some { IfOk result (λ s. 0 < length (path_in s)) }
{
    let place = top_place(2);
    match (value.get("upstream"), value.get("document")) {
        (Some(socket), None) => Ok(DocumentSource::Socket(path_at(alloc, place, socket)?)),
        (None, Some(file)) => Ok(DocumentSource::File(path_at(alloc, place, file)?)),
        _ => Err(ConfigFault::Missing(place)),
    }
}

/// The path of the signer's socket, where it is given.
#[tactic(auto, unfolding(crate::specs::Configs::signer_of))]
fn signer(alloc: Global, value: &Value) -> Result<Option<Octets>, ConfigFault>
    ensures value { Gives (λ s. s) result (signer_of (view value.now)) }
    ensures some { IfOk result (λ s. IfSome s (λ path. 0 < length path)) }
{
    match value.get("signer") {
        Some(member) => Ok(Some(path_at(alloc, top_place(3), member)?)),
        None => Ok(None),
    }
}

/// Where documents and identities come from.
#[derive(Drop)]
struct Suppliers {
    documents: DocumentSource,
    signer: Option<Octets>,
}

/// The first members of the top: the version, and where documents and identities come from.
#[tactic(auto, unfolding(crate::specs::Configs::suppliers_of))]
fn first_members(alloc: Global, value: &Value) -> Result<Suppliers, ConfigFault>
    ensures value { Gives (λ s. record { documents = s.documents; signer = s.signer }) result (suppliers_of (view value.now)) }
    ensures documents { IfOk result (λ s. 0 < length (path_in s.documents)) }
    ensures signer { IfOk result (λ s. IfSome s.signer (λ path. 0 < length path)) }
{
    object_at(ConfigFault::Kind(top_place(0)), value)?;
    version(value)?;
    let documents = documents(alloc, value)?;
    let signer = signer(alloc, value)?;
    Ok(Suppliers { documents, signer })
}

/// How many seconds lie between two rounds of upkeep.
#[tactic(auto, unfolding(crate::specs::Configs::poll_seconds_of))]
fn poll_seconds(value: &Value) -> Result<u32, ConfigFault>
    ensures value { Gives (λ n. n) result (poll_seconds_of (view value.now)) }
    ensures some { IfOk result (λ n. 0 < n) }
    ensures at_most { IfOk result (λ n. n ≤ MAX_POLL_SECONDS) }
{
    number_or(
        DEFAULT_POLL_SECONDS,
        1,
        MAX_POLL_SECONDS,
        top_place(4),
        "poll_seconds",
        value,
    )
}

/// How many asks of the signer are under way at once.
#[tactic(auto, unfolding(crate::specs::Configs::signers_of))]
fn signers(value: &Value) -> Result<u32, ConfigFault>
    ensures value { Gives (λ n. n) result (signers_of (view value.now)) }
    ensures some { IfOk result (λ n. 0 < n) }
    ensures at_most { IfOk result (λ n. n ≤ MAX_SIGNERS) }
{
    number_or(
        DEFAULT_SIGNERS,
        1,
        MAX_SIGNERS,
        top_place(6),
        "signers",
        value,
    )
}

/// The level of this name.
#[tactic(auto, unfolding(crate::specs::Configs::level_of))]
fn level(name: &[u8]) -> Option<LogLevel>
    ensures { result ≡ level_of name.now }
{
    if name == b"error".as_slice() {
        Some(LogLevel::Error)
    } else if name == b"warn".as_slice() {
        Some(LogLevel::Warn)
    } else if name == b"info".as_slice() {
        Some(LogLevel::Info)
    } else if name == b"debug".as_slice() {
        Some(LogLevel::Debug)
    } else {
        None
    }
}

/// The level that a value names.
#[tactic(auto, unfolding(crate::specs::Configs::level_at))]
fn level_at(value: &Value) -> Result<LogLevel, ConfigFault>
    ensures { Gives (λ l. l) result (level_at (view value.now)) }
{
    let fault = ConfigFault::Kind(top_place(7));
    match level(text_at(fault, value)?.as_bytes()) {
        Some(level) => Ok(level),
        None => Err(fault),
    }
}

/// Which events the log has.
#[tactic(auto, unfolding(crate::specs::Configs::log_of))]
fn log(value: &Value) -> Result<LogLevel, ConfigFault>
    ensures { Gives (λ l. l) result (log_of (view value.now)) }
{
    match value.get("log") {
        Some(member) => level_at(member),
        None => Ok(LogLevel::Info),
    }
}

/// Where figures can be read: a text that begins with `/` is a path, any other has to be a loopback address with a port.
#[tactic(auto, unfolding(crate::specs::Configs::metrics_by))]
fn metrics_by(text: Octets) -> Option<MetricsPlace>
    ensures value { result ≡ metrics_by text }
    ensures within { IfSome result MetricsWithin }
{
    if text.as_slice().starts_with(b"/") {
        return Some(MetricsPlace::Path(text));
    }
    Some(MetricsPlace::Loopback(loopback(text.as_slice())?))
}

/// Where figures can be read, as this member says.
#[tactic(auto, unfolding(crate::specs::Configs::metrics_at))]
fn metrics_at(alloc: Global, value: &Value) -> Result<MetricsPlace, ConfigFault>
    ensures value { Gives (λ m. m) result (metrics_at (view value.now)) }
    ensures within { IfOk result MetricsWithin }
{
    let place = top_place(8);
    match metrics_by(path_at(alloc, place, value)?) {
        Some(found) => Ok(found),
        None => Err(ConfigFault::Kind(place)),
    }
}

/// Where the agent's figures can be read, where it is given.
#[tactic(auto, unfolding(crate::specs::Configs::metrics_of))]
fn metrics(alloc: Global, value: &Value) -> Result<Option<MetricsPlace>, ConfigFault>
    ensures value { Gives (λ m. m) result (metrics_of (view value.now)) }
    ensures within { IfOk result (λ m. IfSome m MetricsWithin) }
{
    match value.get("metrics") {
        Some(member) => Ok(Some(metrics_at(alloc, member)?)),
        None => Ok(None),
    }
}

/// How many threads serve the sockets.
#[tactic(auto, unfolding(crate::specs::Configs::threads_of))]
fn threads(value: &Value) -> Result<u32, ConfigFault>
    ensures value { Gives (λ n. n) result (threads_of (view value.now)) }
    ensures some { IfOk result (λ n. 0 < n) }
    ensures at_most { IfOk result (λ n. n ≤ MAX_THREADS) }
{
    number_or(
        DEFAULT_THREADS,
        1,
        MAX_THREADS,
        top_place(9),
        "threads",
        value,
    )
}

/// For how many seconds a connection may take none of the bytes that wait for it.
#[tactic(auto, unfolding(crate::specs::Configs::stall_seconds_of))]
fn stall_seconds(value: &Value) -> Result<u32, ConfigFault>
    ensures value { Gives (λ n. n) result (stall_seconds_of (view value.now)) }
    ensures some { IfOk result (λ n. 0 < n) }
    ensures at_most { IfOk result (λ n. n ≤ MAX_LIMIT_SECONDS) }
{
    number_or(
        DEFAULT_STALL_SECONDS,
        1,
        MAX_LIMIT_SECONDS,
        top_place(10),
        "stall_seconds",
        value,
    )
}

/// For how many seconds a connection may stay without a call.
#[tactic(auto, unfolding(crate::specs::Configs::opening_seconds_of))]
fn opening_seconds(value: &Value) -> Result<u32, ConfigFault>
    ensures value { Gives (λ n. n) result (opening_seconds_of (view value.now)) }
    ensures some { IfOk result (λ n. 0 < n) }
    ensures at_most { IfOk result (λ n. n ≤ MAX_LIMIT_SECONDS) }
{
    number_or(
        DEFAULT_OPENING_SECONDS,
        1,
        MAX_LIMIT_SECONDS,
        top_place(11),
        "opening_seconds",
        value,
    )
}

/// How many MiB the connections of a thread hold together at most.
#[tactic(auto, unfolding(crate::specs::Configs::memory_mib_of))]
fn memory_mib(value: &Value) -> Result<u32, ConfigFault>
    ensures value { Gives (λ n. n) result (memory_mib_of (view value.now)) }
    ensures at_least { IfOk result (λ n. MIN_MEMORY_MIB ≤ n) }
    ensures at_most { IfOk result (λ n. n ≤ MAX_MEMORY_MIB) }
{
    number_or(
        DEFAULT_MEMORY_MIB,
        MIN_MEMORY_MIB,
        MAX_MEMORY_MIB,
        top_place(12),
        "memory_mib",
        value,
    )
}

/// For how long a connection is kept that stalls or does nothing, and how much connections hold.
#[tactic(auto, unfolding(crate::specs::Configs::limits_of))]
fn limits(value: &Value) -> Result<ConnectionLimits, ConfigFault>
    ensures value { Gives (λ l. l) result (limits_of (view value.now)) }
    ensures within { IfOk result LimitsWithin }
{
    let stall_seconds = stall_seconds(value)?;
    let opening_seconds = opening_seconds(value)?;
    let memory_mib = memory_mib(value)?;
    Ok(ConnectionLimits {
        stall_seconds,
        opening_seconds,
        memory_mib,
    })
}

/// How the agent runs.
#[derive(Drop)]
struct Manner {
    poll_seconds: u32,
    signers: u32,
    log: LogLevel,
    metrics: Option<MetricsPlace>,
    threads: u32,
    limits: ConnectionLimits,
}

/// The other members of the top, without the sockets: how the agent runs.
#[tactic(auto, unfolding(crate::specs::Configs::manner_of))]
fn other_members(alloc: Global, value: &Value) -> Result<Manner, ConfigFault>
    ensures value { Gives (λ m. record { poll_seconds = m.poll_seconds; signers = m.signers; log = m.log; metrics = m.metrics; threads = m.threads; limits = m.limits }) result (manner_of (view value.now)) }
    ensures some_seconds { IfOk result (λ m. 0 < m.poll_seconds) }
    ensures few_seconds { IfOk result (λ m. m.poll_seconds ≤ MAX_POLL_SECONDS) }
    ensures some_signers { IfOk result (λ m. 0 < m.signers) }
    ensures few_signers { IfOk result (λ m. m.signers ≤ MAX_SIGNERS) }
    ensures metrics { IfOk result (λ m. IfSome m.metrics MetricsWithin) }
    ensures some_threads { IfOk result (λ m. 0 < m.threads) }
    ensures few_threads { IfOk result (λ m. m.threads ≤ MAX_THREADS) }
    ensures limits { IfOk result (λ m. LimitsWithin m.limits) }
{
    let poll_seconds = poll_seconds(value)?;
    let signers = signers(value)?;
    let log = log(value)?;
    let metrics = metrics(alloc, value)?;
    let threads = threads(value)?;
    let limits = limits(value)?;
    Ok(Manner {
        poll_seconds,
        signers,
        log,
        metrics,
        threads,
        limits,
    })
}

/// The configuration that a value's members name.
#[tactic(auto, unfolding(crate::specs::Configs::config_of))]
fn config(alloc: Global, value: &Value) -> Result<Config, ConfigFault>
    ensures { Gives (λ c. c) result (config_of (view value.now)) }
{
    let suppliers = first_members(alloc, value)?;
    let manner = other_members(alloc, value)?;
    let sockets = config_sockets(alloc, value)?;
    Ok(Config {
        documents: suppliers.documents,
        signer: suppliers.signer,
        poll_seconds: manner.poll_seconds,
        signers: manner.signers,
        log: manner.log,
        metrics: manner.metrics,
        threads: manner.threads,
        limits: manner.limits,
        sockets: Row::from_vec(sockets),
    })
}

/// Reads a configuration. The first check that fails is the fault.
#[tactic(auto, unfolding(crate::specs::Configs::configuration_of))]
pub fn read_config(alloc: Global, bytes: &[u8]) -> Result<Config, ConfigFault>
    ensures { Gives (λ c. c) result (configuration_of bytes.now) }
{
    if bytes.len() > CONFIG_LIMIT {
        return Err(ConfigFault::TooLong(bytes.len()));
    }
    let value = value(alloc, bytes)?;
    config(alloc, &value)
}
