//! The one call.

ghost use Rattle.std.specs.Prelude.{◌≡◌, ◌<◌, ◌≤◌, ◌+◌, ◌*◌, ◌-◌, List, [], length, map, string_bytes, Some, None, IfOk};
ghost use Rattle.wl_edge.specs.declared.link.Heard.{Heard as Answer};
ghost use Rattle.wl_control.specs.declared.request.Request.{Request};
ghost use Rattle.wl_control.specs.declared.request.Request.TheVariants.{Keep, KeepBundles};
ghost use Rattle.wl_control.specs.declared.asked.Verdict.TheVariants.{Faulted};
ghost use Rattle.wl_control.specs.Words.{request_of, IsFit};
ghost use Rattle.wl_control.specs.Ends.{Moment, moment, Delivers, EndsWith, StatusExplains};
ghost use Rattle.wl_control.specs.Runs.{or_fault, is_endless, read_limit, patience_of, limit_fault};
ghost use Rattle.wl_control.specs.Standings.{reply_to, run_on, verdict_on, GoesOn, Starts, Standing, StepEnds};

use crate::asked::{Asked, Verdict};
use crate::call::{asked_of, message_of, method_of};
use crate::limits::{ENDLESS_IDLES, ENDLESS_READ_LIMIT, MAX_IDLES, READ_LIMIT};
use crate::request::Request;
use crate::sending::{Turn, deliver, send_all};
use crate::status::{OUT_OF_MEMORY, READ_FAILED, USAGE, WRITE_FAILED};
use crate::words::{MAX_COUNT, NoRequest, read_request};
use bundle_files::BundleKind;
use std::alloc::Global;
use std::string::String;
use wl_client::{Client, ClientFault};
use wl_edge::{Link, Received, Sink};
use wl_octets::{Memory, Octets, Row};

/// How many bytes one receive asks for at most.
const PIECE_LEN: usize = 65_536;

/// A call, what is asked for still, how many bytes may be read still, how often in a row nothing came, and how often that
/// may be.
#[derive(Drop)]
pub(crate) struct Call {
    alloc: Global,
    client: Client,
    asked: Asked,
    left: usize,
    idles: u32,
    patience: u32,
}

/// Whether a call has no end: it asks for more messages than may be counted.
fn is_endless(request: &Request) -> bool
    ensures { result ≡ is_endless request.now }
{
    asked_of(request).left > MAX_COUNT
}

/// How many bytes are read at most.
#[tactic(auto, unfolding(crate::specs::Runs::read_limit))]
fn read_limit(request: &Request) -> usize
    ensures { result ≡ read_limit request.now }
{
    if is_endless(request) {
        ENDLESS_READ_LIMIT
    } else {
        READ_LIMIT
    }
}

/// How often in a row nothing may come.
#[tactic(auto, unfolding(crate::specs::Runs::patience_of))]
fn patience_of(request: &Request) -> u32
    ensures { result ≡ patience_of request.now }
{
    if is_endless(request) {
        ENDLESS_IDLES
    } else {
        MAX_IDLES
    }
}

/// What came of a piece: how the call was decided, or the fault in the bytes, if any.
fn verdict_of(decided: Option<Verdict>, fault: Option<ClientFault>) -> Option<Verdict>
    ensures { result ≡ or_fault decided fault }
{
    match (decided, fault) {
        (Some(verdict), _) => Some(verdict),
        (None, Some(fault)) => Some(Verdict::Faulted(fault)),
        (None, None) => None,
    }
}

impl Call {
    /// The call that a request makes.
    fn start(alloc: Global, request: &Request) -> Result<Call, Memory>
        requires { IsFit request.now }
        ensures { IfOk result (λ call. Starts request.now call) }
    {
        let message = message_of(alloc, request)?;
        Ok(Call {
            alloc,
            client: Client::start(alloc, method_of(request), message.as_slice())?,
            asked: asked_of(request),
            left: read_limit(request),
            idles: 0,
            patience: patience_of(request),
        })
    }

    /// Hears what a piece of the server's bytes says: what is due for it.
    fn hear(&mut self, piece: &[u8]) -> Result<Turn, Memory>
        ensures sent { IfOk result (λ turn. turn.sent ≡ (reply_to self.old piece.now).bytes) }
        ensures text { IfOk result (λ turn. turn.text.items ≡ (run_on self.old piece.now).lines) }
        ensures verdict { IfOk result (λ turn. turn.verdict ≡ verdict_on self.old piece.now) }
        ensures goes_on { IfOk result (λ turn. turn.verdict ≡ None → GoesOn self.old piece.now self.new) }
        ensures left { self.new.left ≡ self.old.left }
        ensures idles { self.new.idles ≡ self.old.idles }
        ensures patience { self.new.patience ≡ self.old.patience }
    {
        let mut sent = Octets::empty(self.alloc);
        let mut told = Row::empty(self.alloc);
        let fault = match self.client.feed(piece, &mut sent, &mut told) {
            Ok(()) => None,
            Err(ClientFault::Memory) => return Err(Memory),
            Err(fault) => Some(fault),
        };
        let mut text = Vec::new(self.alloc);
        let decided = self.asked.take_all(self.alloc, told.as_slice(), &mut text)?;
        Ok(Turn {
            sent,
            text,
            verdict: verdict_of(decided, fault),
        })
    }

    /// Takes a piece of the server's bytes: sends and writes what is due for it. The status, where the call is over.
    fn take<L: Link, K: Sink>(
        &mut self,
        piece: &[u8],
        link: &mut L,
        sink: &mut K,
    ) -> Result<Option<u8>, Memory>
        requires { length piece.now ≤ self.old.left }
        ensures delivers { Delivers (reply_to self.old piece.now).bytes (run_on self.old piece.now).lines (verdict_on self.old piece.now)
            (moment (L.told link.old) (K.taken sink.old) (L.failed_receives link.old) (L.failed_sends link.old) (K.faults sink.old))
            (moment (L.told link.new) (K.taken sink.new) (L.failed_receives link.new) (L.failed_sends link.new) (K.faults sink.new)) result }
        ensures goes_on { IfOk result (λ status. status ≡ None → GoesOn self.old piece.now self.new) }
        ensures left { self.new.left + length piece.now ≡ self.old.left }
        ensures idles { self.new.idles ≡ 0 }
        ensures patience { self.new.patience ≡ self.old.patience }
    {
        self.left -= piece.len();
        self.idles = 0;
        let turn = self.hear(piece)?;
        deliver(turn, link, sink)
    }

    /// The end of a call whose link has this fault.
    fn fail<L: Link, K: Sink>(
        &self,
        fault: ClientFault,
        link: &mut L,
        sink: &mut K,
    ) -> Result<Option<u8>, Memory>
        ensures over { IfOk result (λ status. status ≡ None → ⊥) }
        ensures delivers { Delivers [] [] (Some (Faulted fault))
            (moment (L.told link.old) (K.taken sink.old) (L.failed_receives link.old) (L.failed_sends link.old) (K.faults sink.old))
            (moment (L.told link.new) (K.taken sink.new) (L.failed_receives link.new) (L.failed_sends link.new) (K.faults sink.new)) result }
    {
        let turn = Turn {
            sent: Octets::empty(self.alloc),
            text: Vec::new(self.alloc),
            verdict: Some(Verdict::Faulted(fault)),
        };
        deliver(turn, link, sink)
    }

    /// The fault of a call that may read no more, or to which nothing came for too long.
    fn limit_fault(&self) -> Option<ClientFault>
        ensures { result ≡ limit_fault self.now.patience self.now.left self.now.idles }
    {
        if self.left == 0 {
            Some(ClientFault::TooMuch)
        } else if self.idles >= self.patience {
            Some(ClientFault::Idle)
        } else {
            None
        }
    }

    /// Receives once into the room. The status, where the call is over.
    fn receive<L: Link, K: Sink>(
        &mut self,
        room: &mut [u8],
        link: &mut L,
        sink: &mut K,
    ) -> Result<Option<u8>, Memory>
        requires room { 0 < length room.old }
        requires within { length room.old ≤ self.old.left }
        requires idles { self.old.idles < self.old.patience }
        ensures steps { (q : Request) (start : Moment) (answers : List Answer) → Standing q start
            (moment (L.told link.old) (K.taken sink.old) (L.failed_receives link.old) (L.failed_sends link.old) (K.faults sink.old)) self.old answers → StepEnds q start
            (moment (L.told link.new) (K.taken sink.new) (L.failed_receives link.new) (L.failed_sends link.new) (K.faults sink.new)) self.new result }
        ensures smaller { IfOk result (λ status. status ≡ None →
            self.new.left * 4294967296 + (self.new.patience - self.new.idles) < self.old.left * 4294967296 + (self.old.patience - self.old.idles)) }
    {
        match link.receive(room) {
            Received::Got(count) => self.take(room.split_at(count).0, link, sink),
            Received::Idle => {
                self.idles += 1;
                Ok(None)
            }
            Received::End => {
                let rest = self.client.rest() as u64;
                self.fail(ClientFault::Cut(rest), link, sink)
            }
            Received::Failed => Ok(Some(READ_FAILED)),
        }
    }

    /// Receives once more, if it may. The status, where the call is over.
    fn go_on<L: Link, K: Sink>(
        &mut self,
        room: &mut [u8],
        link: &mut L,
        sink: &mut K,
    ) -> Result<Option<u8>, Memory>
        requires { 0 < length room.old }
        ensures steps { (q : Request) (start : Moment) (answers : List Answer) → Standing q start
            (moment (L.told link.old) (K.taken sink.old) (L.failed_receives link.old) (L.failed_sends link.old) (K.faults sink.old)) self.old answers → StepEnds q start
            (moment (L.told link.new) (K.taken sink.new) (L.failed_receives link.new) (L.failed_sends link.new) (K.faults sink.new)) self.new result }
        ensures smaller { IfOk result (λ status. status ≡ None →
            self.new.left * 4294967296 + (self.new.patience - self.new.idles) < self.old.left * 4294967296 + (self.old.patience - self.old.idles)) }
    {
        match self.limit_fault() {
            Some(fault) => self.fail(fault, link, sink),
            None => {
                let len = room.len().min(self.left);
                self.receive(&mut room[..len], link, sink)
            }
        }
    }
}

/// Hears what the server sends, until the call is over.
fn talk<L: Link, K: Sink>(
    call: &mut Call,
    room: &mut [u8],
    link: &mut L,
    sink: &mut K,
) -> Result<u8, Memory>
    requires { 0 < length room.old }
    ensures { (q : Request) (start : Moment) (answers : List Answer) → Standing q start
        (moment (L.told link.old) (K.taken sink.old) (L.failed_receives link.old) (L.failed_sends link.old) (K.faults sink.old)) call.old answers → EndsWith q start
        (moment (L.told link.new) (K.taken sink.new) (L.failed_receives link.new) (L.failed_sends link.new) (K.faults sink.new)) result }
{
    'receives: loop {
        match call.go_on(room, link, sink) {
            Ok(Some(status)) => return Ok(status),
            Ok(None) => {}
            Err(Memory) => return Err(Memory),
        }
    }
}

/// Makes the call that a request asks for.
fn make_call<L: Link, K: Sink>(
    alloc: Global,
    request: &Request,
    link: &mut L,
    sink: &mut K,
) -> Result<u8, Memory>
    requires { IsFit request.now }
    ensures { EndsWith request.now
        (moment (L.told link.old) (K.taken sink.old) (L.failed_receives link.old) (L.failed_sends link.old) (K.faults sink.old))
        (moment (L.told link.new) (K.taken sink.new) (L.failed_receives link.new) (L.failed_sends link.new) (K.faults sink.new)) result }
{
    let mut call = Call::start(alloc, request)?;
    let mut room = Vec::from_elem(alloc, 0, PIECE_LEN)?;
    if !send_all(link, call.client.opening()) {
        return Ok(WRITE_FAILED);
    }
    talk(&mut call, room.as_mut_slice(), link, sink)
}

/// Fetches so many messages of FetchX509SVID, as they come, and writes each as a frame of gRPC: a byte 0, the message's
/// length in four bytes, and the message. One that has no files (`svid_files`) is a fault. The statuses, the lines of another
/// status and of a fault, and the bounds are those of [`control`]: those of `watch` without a count for more than 1,000
/// messages.
pub fn keep<L: Link, K: Sink>(alloc: Global, count: u32, link: &mut L, sink: &mut K) -> u8
    ensures { StatusExplains (Some (Keep count))
        (moment (L.told link.old) (K.taken sink.old) (L.failed_receives link.old) (L.failed_sends link.old) (K.faults sink.old))
        (moment (L.told link.new) (K.taken sink.new) (L.failed_receives link.new) (L.failed_sends link.new) (K.faults sink.new)) result }
{
    match make_call(alloc, &Request::Keep(count), link, sink) {
        Ok(status) => status,
        Err(Memory) => OUT_OF_MEMORY,
    }
}

/// Fetches one message of FetchX509Bundles or FetchJWTBundles, and writes it as a frame of gRPC, as [`keep`] does. One that has no
/// files (`bundle_files`) is a fault. The statuses, the lines and the bounds are those of [`control`].
pub fn keep_bundles<L: Link, K: Sink>(
    alloc: Global,
    kind: BundleKind,
    link: &mut L,
    sink: &mut K,
) -> u8
    ensures { StatusExplains (Some (KeepBundles kind))
        (moment (L.told link.old) (K.taken sink.old) (L.failed_receives link.old) (L.failed_sends link.old) (K.faults sink.old))
        (moment (L.told link.new) (K.taken sink.new) (L.failed_receives link.new) (L.failed_sends link.new) (K.faults sink.new)) result }
{
    match make_call(alloc, &Request::KeepBundles(kind), link, sink) {
        Ok(status) => status,
        Err(Memory) => OUT_OF_MEMORY,
    }
}

/// Makes the call that the words ask for over the link, and writes a line for each SVID, token or state that comes:
/// `fetch x509`, `fetch bundles`, `fetch jwt AUDIENCE..`, `watch`, `watch COUNT`, `health`, `health SERVICE` and
/// `health-watch COUNT`.
///
/// The status is one of [`crate::status`]: `DONE` where all that was asked for was had and written; `USAGE` where the
/// words fit nothing, and then nothing is sent or written; `DENIED` where the server answered another status than was
/// awaited, and `CLIENT_FAULT` where its bytes or the link's answers have a fault, each with its line; `READ_FAILED`
/// where a receive and `WRITE_FAILED` where a sending or a write failed; `OUT_OF_MEMORY`.
///
/// At most 67,108,864 bytes are read, and the 600th receive in a row that is idle ends the call. `watch` without a count
/// asks for 4,294,967,295 messages, reads at most 2^63-1 bytes, and the 4,294,967,295th such receive ends it.
///
/// The runtime's handle is not needed yet.
pub fn control<R, L: Link, K: Sink>(
    _rt: &R,
    alloc: Global,
    words: &[String],
    link: &mut L,
    sink: &mut K,
) -> u8
    // Each status has its cause, and what was sent and written goes with it.
    ensures ends { StatusExplains (request_of (map string_bytes words.now))
        (moment (L.told link.old) (K.taken sink.old) (L.failed_receives link.old) (L.failed_sends link.old) (K.faults sink.old))
        (moment (L.told link.new) (K.taken sink.new) (L.failed_receives link.new) (L.failed_sends link.new) (K.faults sink.new)) result }
    // Where the words fit nothing, nothing is sent and nothing written.
    ensures unfit { request_of (map string_bytes words.now) ≡ None → (link.new ≡ link.old) × (sink.new ≡ sink.old) }
{
    match read_request(alloc, words) {
        Ok(request) => match make_call(alloc, &request, link, sink) {
            Ok(status) => status,
            Err(Memory) => OUT_OF_MEMORY,
        },
        Err(NoRequest::Unfit(_)) => USAGE,
        Err(NoRequest::Memory) => OUT_OF_MEMORY,
    }
}
