//! A signer behind a Unix socket.

ghost use Rattle.std.specs.Prelude.{◌≡◌, ◌≤◌, ◌<◌, ◌+◌, ◌⊎◌, true, None, Some, IfOk, IfSome, IsOk, IsErr};
ghost use Rattle.wl_edge.specs.Calls.{Answers};
ghost use Rattle.wl_edge.specs.Edge.{Rose};
ghost use Rattle.wl_edge.specs.declared.fault.EdgeFault.{EdgeFault};
ghost use Rattle.wl_edge.specs.declared.signer.SignerCall.{SignerCall};
ghost use Rattle.wl_selector.specs.Selectors.{sorted_texts};
ghost use Rattle.wl_signlink.specs.LinkStates.{NumbersOn};
ghost use Rattle.wl_signlink.specs.Requests.{are_texts, is_text_ask};
ghost use Rattle.wl_signlink.specs.Vouched.{RepliedSigned, RepliedToken};

use crate::asks::{Answer, ask_jwt, ask_x509};
use crate::limits::EXCHANGE_SECONDS;
use crate::texts::{are_texts, is_text_ask};
use crate::vouching::ReplyVoucher;
use std::alloc::Global;
use std::io;
use std::io::{ErrorKind, Read};
use std::marker::Model;
use std::net::Net;
use std::os::unix::net::UnixStream;
use std::rt::Clock;
use std::time::{Duration, Instant};
use timed_stream::{Spare, TimedStream, deadline_after, time_left};
use wl_edge::{EdgeFault, RealSink, RealSource, Signer};
use wl_entry::{Ask, JwtToken, Signed};
use wl_octets::{Memory, Octets};

/// A stream on which each ask so far was answered, and nothing else came.
#[derive(Drop)]
struct OpenStream {
    stream: UnixStream,
    /// The number of the next ask, counted from 1.
    next: u64,
}

/// Why an ask failed.
#[derive(Clone, Copy, Debug, Drop, PartialEq, Eq)]
pub enum AskFault {
    /// No stream could be opened.
    NotReached,
    /// No answer had come when the exchange had to end.
    TimedOut,
    /// The stream was closed, or what came is no answer to the ask.
    NotAnAnswer,
}

/// A signer that answers over the stream of a Unix socket, which is opened at the first ask and after each fault. It
/// counts its faults and tells no calls. It holds back one descriptor, which it gives up for a stream where none is left.
#[derive(Drop)]
pub struct SignLink<R> {
    rt: R,
    alloc: Global,
    path: Octets,
    /// How long an exchange may take, from connecting to the last byte of the reply's line.
    limit: Duration,
    open: Option<OpenStream>,
    /// What is given up for a stream that finds no descriptor.
    spare: Spare,
    /// Why the last ask that failed did.
    fault: Option<AskFault>,
    faults: u64,
}

impl<R> Model for SignLink<R> {
    ghost use Rattle.std.specs.Prelude.{◌<◌, IfSome, option_map};
    ghost use Rattle.wl_signlink.specs.LinkStates.{LinkState};

    ghost Value = { LinkState };

    ghost view = { λ s. record { faults = s.faults; next = option_map (λ o. o.next) s.open } };

    ghost invariant = { λ s. IfSome s.open (λ o. 0 < o.next) };
}

/// Opens a stream, without waiting for the signer.
fn open(net: &impl Net, spare: &mut Spare, path: &[u8]) -> io::Result<OpenStream>
    ensures { IfOk result (λ o. o.next ≡ 1) }
{
    match str::from_utf8(path) {
        Ok(path) => Ok(OpenStream {
            stream: spare.connect(net, path)?,
            next: 1,
        }),
        Err(_) => Err(io::Error::from(ErrorKind::InvalidInput)),
    }
}

/// Whether the stream is open and nothing came on it that was not asked for.
fn is_quiet(stream: &UnixStream) -> bool {
    if stream.set_nonblocking(true).is_err() {
        return false;
    }
    let mut reader = stream;
    let quiet = match reader.read(&mut [0u8; 1]) {
        Ok(_) => false,
        Err(fault) => fault.kind() == ErrorKind::WouldBlock,
    };
    quiet && stream.set_nonblocking(false).is_ok()
}

/// The stream for the ask after the one that was answered. None where its numbers are used up.
fn after_ask(asked: OpenStream) -> Option<OpenStream>
    ensures { IfSome result (λ o. o.next ≡ asked.next + 1) }
{
    let next = asked.next.checked_add(1)?;
    Some(OpenStream {
        stream: asked.stream,
        next,
    })
}

/// One ask for an identity over a stream, by this deadline.
fn x509_over<R: Clock>(
    rt: &R,
    alloc: Global,
    asked: &OpenStream,
    deadline: Instant,
    ask: &Ask,
) -> Result<Option<Answer<Signed>>, Memory>
    requires text { is_text_ask ask.now ≡ true }
    requires counted { 0 < asked.now.next }
    ensures { IfOk result (λ r. IfSome r (λ a. RepliedSigned ask.now a.value)) }
{
    let mut output = RealSink::start(TimedStream::start(rt, &asked.stream, deadline));
    let mut input = RealSource::start(TimedStream::start(rt, &asked.stream, deadline));
    ask_x509(alloc, &mut output, &mut input, asked.next, ask)
}

/// The same of a token for these audiences.
fn jwt_over<R: Clock>(
    rt: &R,
    alloc: Global,
    asked: &OpenStream,
    deadline: Instant,
    ask: &Ask,
    audience: &[Octets],
) -> Result<Option<Answer<JwtToken>>, Memory>
    requires text { is_text_ask ask.now ≡ true }
    requires texts { are_texts audience.now ≡ true }
    requires counted { 0 < asked.now.next }
    ensures { IfOk result (λ r. IfSome r (λ a. RepliedToken ask.now (sorted_texts audience.now) a.value)) }
{
    let mut output = RealSink::start(TimedStream::start(rt, &asked.stream, deadline));
    let mut input = RealSource::start(TimedStream::start(rt, &asked.stream, deadline));
    ask_jwt(alloc, &mut output, &mut input, asked.next, ask, audience)
}

impl<R: Net + Clock + Clone + Drop> SignLink<R> {
    /// A signer behind the socket at this path. Nothing is opened yet.
    pub fn start(rt: &R, alloc: Global, path: &[u8]) -> Result<SignLink<R>, Memory>
        ensures { IfOk result (λ s. (s.faults ≡ 0) × (s.next ≡ None)) }
    {
        SignLink::start_within(rt, alloc, path, Duration::from_secs(EXCHANGE_SECONDS))
    }

    /// The same, where an exchange may take so long.
    pub fn start_within(
        rt: &R,
        alloc: Global,
        path: &[u8],
        limit: Duration,
    ) -> Result<SignLink<R>, Memory>
        ensures { IfOk result (λ s. (s.faults ≡ 0) × (s.next ≡ None)) }
    {
        let path = Octets::from_slice(alloc, path)?;
        let rt = rt.clone()?;
        let spare = Spare::hold(&rt);
        Ok(SignLink {
            rt,
            alloc,
            path,
            limit,
            open: None,
            spare,
            fault: None,
            faults: 0,
        })
    }

    /// Why the last ask that failed did.
    pub fn last_fault(&self) -> Option<AskFault> {
        self.fault
    }

    /// Why an exchange failed that had to end by this deadline.
    fn fault_of(&self, deadline: Instant) -> AskFault {
        match Instant::now(&self.rt) {
            Ok(now) if time_left(deadline, now).is_none() => AskFault::TimedOut,
            _ => AskFault::NotAnAnswer,
        }
    }

    /// The stream that is open, or a new one, with the moment by which the exchange ends that begins now. The link has
    /// no stream until the ask on it was answered.
    fn begin(&mut self) -> Option<(OpenStream, Instant)>
        ensures faults { self.new.faults ≡ self.old.faults }
        ensures closed { self.new.next ≡ None }
        ensures counted { IfSome result (λ b. 0 < b.0.next) }
        ensures number { IfSome result (λ b. (b.0.next ≡ 1) ⊎ (self.old.next ≡ Some b.0.next)) }
    {
        let kept = self.open.take();
        let deadline = deadline_after(&self.rt, self.limit).ok()?;
        if let Some(open) = kept {
            if is_quiet(&open.stream) {
                return Some((open, deadline));
            }
        }
        let open = open(&self.rt, &mut self.spare, self.path.as_slice()).ok()?;
        Some((open, deadline))
    }

    /// Keeps the stream for the next ask where this one was answered and nothing came after the answer. After anything
    /// else it is dropped: what may still come on it isn't an answer to another ask.
    fn settle<T: Drop>(
        &mut self,
        asked: OpenStream,
        deadline: Instant,
        answer: Option<Answer<T>>,
    ) -> Result<T, EdgeFault>
        requires closed { self.old.next ≡ None }
        ensures answered { IfSome answer (λ a. (result ≡ Ok a.value) × (self.new.faults ≡ self.old.faults)) }
        ensures number { IfSome self.new.next (λ n. n ≡ asked.next + 1) }
        ensures failed { answer ≡ None → (result ≡ Err EdgeFault.Failed) × Rose self.old.faults self.new.faults }
        ensures closed { IsErr result → self.new.next ≡ None }
        ensures later { self.old.faults ≤ self.new.faults }
    {
        match answer {
            Some(answer) => {
                if answer.is_last {
                    self.open = after_ask(asked);
                }
                Ok(answer.value)
            }
            None => {
                drop(asked);
                let fault = self.fault_of(deadline);
                Err(self.failed(fault))
            }
        }
    }

    /// Counts a fault, after which no stream is open.
    fn failed(&mut self, fault: AskFault) -> EdgeFault
        ensures fault { result ≡ EdgeFault.Failed }
        ensures counted { Rose self.old.faults self.new.faults }
        ensures later { self.old.faults ≤ self.new.faults }
        ensures closed { self.new.next ≡ None }
    {
        self.open = None;
        self.fault = Some(fault);
        self.spare.hold_again(&self.rt);
        self.faults = self.faults.saturating_add(1);
        EdgeFault::Failed
    }
}

impl<R: Net + Clock + Clone + Drop> Signer for SignLink<R> {
    type V = ReplyVoucher;

    ghost calls = { λ s. None };

    ghost faults = { λ s. s.faults };

    fn sign_x509(&mut self, ask: &Ask) -> Result<Signed, EdgeFault>
        ensures told { Answers (⟦<SignLink<R> as Signer>⟧.calls self.old) (⟦<SignLink<R> as Signer>⟧.calls self.new)
            (⟦<SignLink<R> as Signer>⟧.faults self.old) (⟦<SignLink<R> as Signer>⟧.faults self.new)
            (SignerCall.X509 ask.now) result }
        ensures vouched { IfOk result (RepliedSigned ask.now) }
        ensures closed { IsErr result → self.new.next ≡ None }
        ensures numbers { IsOk result → NumbersOn self.old.next self.new.next }
    {
        if !is_text_ask(ask) {
            return Err(self.failed(AskFault::NotAnAnswer));
        }
        let Some((asked, deadline)) = self.begin() else {
            return Err(self.failed(AskFault::NotReached));
        };
        let answer = x509_over(&self.rt, self.alloc, &asked, deadline, ask)?;
        self.settle(asked, deadline, answer)
    }

    fn sign_jwt(&mut self, ask: &Ask, audience: &[Octets]) -> Result<JwtToken, EdgeFault>
        ensures told { Answers (⟦<SignLink<R> as Signer>⟧.calls self.old) (⟦<SignLink<R> as Signer>⟧.calls self.new)
            (⟦<SignLink<R> as Signer>⟧.faults self.old) (⟦<SignLink<R> as Signer>⟧.faults self.new)
            (SignerCall.Jwt ask.now audience.now) result }
        ensures vouched { IfOk result (RepliedToken ask.now (sorted_texts audience.now)) }
        ensures closed { IsErr result → self.new.next ≡ None }
        ensures numbers { IsOk result → NumbersOn self.old.next self.new.next }
    {
        if !is_text_ask(ask) || !are_texts(audience) {
            return Err(self.failed(AskFault::NotAnAnswer));
        }
        let Some((asked, deadline)) = self.begin() else {
            return Err(self.failed(AskFault::NotReached));
        };
        let answer = jwt_over(&self.rt, self.alloc, &asked, deadline, ask, audience)?;
        self.settle(asked, deadline, answer)
    }
}
