//! What happens to the store.

ghost use Rattle.std.specs.Prelude.{◌≡◌, ◌≢◌, ◌==◌, true, if◌then◌else◌, ◌∷◌, [], ◌++◌, List, map, option_map, Some, IfOk, IfErr, IsOkAnd, OnOk, OnErr};
ghost use Rattle.wl_document.specs.Checks.{Faults};
ghost use Rattle.wl_document.specs.Documents.{document_state};
ghost use Rattle.wl_snapshot.specs.Untouched.{SameBut};
ghost use Rattle.jwt_cache.specs.Rings.{StandsFor};
ghost use Rattle.jwt_cache.specs.declared.rings.CachedToken.{CachedToken};
ghost use Rattle.wl_store.specs.Flights.{flight_of, flights_of};
ghost use Rattle.wl_store.specs.declared.tickets.Flight.{Flight};
ghost use Rattle.wl_store.specs.Stores.{after_claim, after_signed, has_ticket, install};
ghost use Rattle.wl_store.specs.Steps.{stored_after, after_sync};
ghost use Rattle.wl_manager.specs.Tokens.{history_after};
ghost use Rattle.wl_core.specs.Moments.{after_document, history_after_document, after_identity, after_no_identity, flight_in, flight_as};
ghost use Rattle.wl_core.specs.Lines.{document_lines, claim_lines, identity_lines, no_identity_lines, installed_line, ticket_line};

use crate::lines::{Line, one_line};
use std::alloc::Global;
use svid_cache::Installed;
use wl_document::DocFault;
use wl_entry::{Free, Signed};
use wl_manager::{Adopted, Manager, Ticket, abandon_all};
use wl_octets::{Memory, Octets, Row};

/// The manager of a world, in which everything is vouched for.
type Keeper = Manager<Free>;

/// What came of an event.
#[derive(Drop)]
pub struct Stepped {
    pub lines: Row<Line>,
    /// The ids of the entries of which the entry or the SVID may be another than in the publication before.
    pub touched: Row<Octets>,
}

impl Stepped {
    /// Of an event that makes no publication.
    pub fn quiet(alloc: Global, lines: Row<Line>) -> Stepped
        ensures lines { result.lines ≡ lines }
        ensures touched { result.touched ≡ [] }
    {
        Stepped {
            lines,
            touched: Row::empty(alloc),
        }
    }
}

/// The number of the last publication.
fn number_of(manager: &Keeper) -> u64
    ensures { result ≡ manager.now.stored.published.number }
{
    manager.snapshot().part().number
}

/// Takes the entries and bundles of a document, and tells the ids of the entries that this touched. Where it has a fault
/// nothing changes.
fn read(alloc: Global, manager: &mut Keeper, document: &[u8]) -> Result<Row<Octets>, DocFault>
    ensures ok { OnOk result
        (IsOkAnd (document_state (Some manager.old.stored.published.domain) document.now)
        (λ d. manager.new.stored ≡ stored_after (after_sync d manager.old.stored) manager.old.stored)) }
    ensures history { (history : List CachedToken) → StandsFor manager.old.tokens history
        → OnOk result
        (StandsFor manager.new.tokens
        (history_after manager.old.stored.store.entries manager.new.stored.store.entries history)) }
    ensures touched { IfOk result (λ ids. SameBut ids manager.old.stored.published manager.new.stored.published) }
    ensures fault { IfErr result
        (λ e. Faults e (document_state (Some manager.old.stored.published.domain) document.now)) }
    ensures err { OnErr result (manager.new ≡ manager.old) }
{
    match manager.prepare_sync(alloc, document) {
        Ok(prepared) => {
            let Adopted {
                change: _,
                tickets,
                installed: _,
                touched,
            } = manager.adopt(prepared);
            abandon_all(tickets);
            Ok(touched)
        }
        Err(fault) => Err(fault),
    }
}

/// The upstream authority gives a document.
#[tactic(auto, using(crate::proofs::StoreSteps::read_stored, crate::proofs::StoreSteps::read_history, crate::proofs::StoreSteps::read_said, crate::proofs::StoreSteps::fault_is, crate::proofs::StoreSteps::refused_stored, crate::proofs::StoreSteps::refused_history, crate::proofs::StoreSteps::refused_said, crate::proofs::StoreSteps::untouched))]
pub fn sync(alloc: Global, manager: &mut Keeper, document: &[u8]) -> Result<Stepped, Memory>
    ensures stored { OnOk result (manager.new.stored ≡ after_document document.now manager.old.stored) }
    ensures history { (history : List CachedToken) → StandsFor manager.old.tokens history
        → OnOk result (StandsFor manager.new.tokens (history_after_document document.now manager.old.stored history)) }
    ensures lines { IfOk result (λ s. s.lines ≡ document_lines document.now manager.old.stored) }
    ensures touched { IfOk result (λ s. SameBut s.touched manager.old.stored.published manager.new.stored.published) }
{
    let before = number_of(manager);
    match read(alloc, manager, document) {
        Ok(touched) => {
            let lines = reading_lines(alloc, before, number_of(manager))?;
            Ok(Stepped { lines, touched })
        }
        Err(fault) => {
            let lines = refused_lines(alloc, fault)?;
            Ok(Stepped::quiet(alloc, lines))
        }
    }
}

/// That a document was refused; out of memory isn't a fault of its own.
fn refused_lines(alloc: Global, fault: DocFault) -> Result<Row<Line>, Memory>
    ensures named { IfOk result (λ l. fault ≢ DocFault.Memory) }
    ensures lines { IfOk result (λ l. l ≡ Line.Refused fault ∷ []) }
{
    match fault {
        DocFault::Memory => Err(Memory),
        fault => one_line(alloc, Line::Refused(fault)),
    }
}

/// Whether a publication was made of a document that was read.
fn reading_lines(alloc: Global, before: u64, after: u64) -> Result<Row<Line>, Memory>
    ensures { IfOk result
        (λ l. l ≡ (if before == after then Line.Same ∷ [] else Line.Published after ∷ [])) }
{
    if before == after {
        one_line(alloc, Line::Same)
    } else {
        one_line(alloc, Line::Published(after))
    }
}

/// The publication that was made since the one of this number.
fn say_published(lines: &mut Row<Line>, before: u64, after: u64) -> Result<(), Memory>
    ensures { OnOk result
        (lines.new ≡ lines.old ++ (if before == after then [] else Line.Published after ∷ [])) }
{
    if before != after {
        lines.push(Line::Published(after))?;
    }
    Ok(())
}

/// The tickets.
fn say_tickets(alloc: Global, lines: &mut Row<Line>, tickets: &[Ticket]) -> Result<(), Memory>
    ensures { OnOk result (lines.new ≡ lines.old ++ map ticket_line (flights_of tickets.now)) }
{
    for ticket in tickets {
        lines.push(Line::Ticket {
            number: ticket.number,
            entry_id: ticket.ask.entry_id.copy(alloc)?,
        })?;
    }
    Ok(())
}

/// What has expired is let go, and tickets are given for what is due.
pub fn claim(alloc: Global, manager: &mut Keeper, now: u64) -> Result<Stepped, Memory>
    ensures stored { OnOk result
        (manager.new.stored ≡ stored_after (after_claim now manager.old.stored.store) manager.old.stored) }
    ensures tokens { OnOk result (manager.new.tokens ≡ manager.old.tokens) }
    ensures lines { IfOk result (λ s. s.lines ≡ claim_lines now manager.old.stored) }
    ensures touched { IfOk result (λ s. SameBut s.touched manager.old.stored.published manager.new.stored.published) }
{
    let before = number_of(manager);
    let prepared = manager.prepare_claim(alloc, now)?;
    let Adopted {
        change: _,
        tickets,
        installed: _,
        touched,
    } = manager.adopt(prepared);
    let lines = claim_lines(alloc, before, number_of(manager), tickets.as_slice());
    abandon_all(tickets);
    let lines = lines?;
    Ok(Stepped { lines, touched })
}

/// The publication and the tickets of a claim.
fn claim_lines(
    alloc: Global,
    before: u64,
    after: u64,
    tickets: &[Ticket],
) -> Result<Row<Line>, Memory>
    ensures { IfOk result (λ l. l
        ≡ (if before == after then [] else Line.Published after ∷ []) ++ map ticket_line (flights_of tickets.now)) }
{
    let mut lines = Row::empty(alloc);
    say_published(&mut lines, before, after)?;
    say_tickets(alloc, &mut lines, tickets)?;
    Ok(lines)
}

/// What became of a signed identity.
fn installed_line(installed: Installed) -> Line
    ensures { result ≡ installed_line installed }
{
    match installed {
        Installed::Kept => Line::Kept,
        Installed::NoSuchAsk => Line::UnknownAsk,
        Installed::Unfit(unfit) => Line::Unfit(unfit),
        Installed::Older(ends) => Line::Older(ends),
        Installed::Spent => Line::Spent,
    }
}

/// The ticket in flight of this number, made anew.
fn ticket_of(alloc: Global, manager: &Keeper, number: u64) -> Result<Option<Ticket>, Memory>
    ensures { IfOk result (λ t. option_map flight_of t ≡ option_map (flight_as number) (flight_in number manager.now.stored)) }
{
    match manager.flight(number) {
        None => Ok(None),
        Some(flight) => Ok(Some(Ticket {
            number,
            ask: flight.ask.part().copy(alloc)?,
        })),
    }
}

/// A ticket that is in flight comes back with a signed identity: what became of it, and the ids of the entries that this
/// touched.
fn install(
    alloc: Global,
    manager: &mut Keeper,
    ticket: Ticket,
    signed: &Signed,
    now: u64,
) -> Result<(Installed, Row<Octets>), Memory>
    requires { has_ticket ticket.number ticket.ask manager.old.stored.store.in_flight ≡ true }
    ensures stored { OnOk result
        (manager.new.stored ≡ stored_after (after_signed now ticket.number ticket.ask signed.now manager.old.stored.store) manager.old.stored) }
    ensures tokens { OnOk result (manager.new.tokens ≡ manager.old.tokens) }
    ensures installed { IfOk result (λ r. r.0 ≡ install now ticket.ask signed.now manager.old.stored.store) }
    ensures touched { IfOk result (λ r. SameBut r.1 manager.old.stored.published manager.new.stored.published) }
{
    let prepared = manager.prepare_signed(alloc, &ticket, signed, now);
    // out of memory the world has failed for good, and nothing looks at what is in flight
    ticket.abandon();
    let prepared = prepared?;
    let Adopted {
        change: _,
        tickets,
        installed,
        touched,
    } = manager.adopt(prepared);
    abandon_all(tickets);
    Ok((installed.unwrap_or(Installed::Spent), touched))
}

/// A ticket comes back with a signed identity.
#[tactic(auto, using(crate::proofs::StoreSteps::flies, crate::proofs::StoreSteps::identity_stored, crate::proofs::StoreSteps::identity_said, crate::proofs::StoreSteps::spent_stored, crate::proofs::StoreSteps::spent_said, crate::proofs::StoreSteps::untouched))]
pub fn signed(
    alloc: Global,
    manager: &mut Keeper,
    number: u64,
    signed: Signed,
    now: u64,
) -> Result<Stepped, Memory>
    ensures stored { OnOk result (manager.new.stored ≡ after_identity number signed now manager.old.stored) }
    ensures tokens { OnOk result (manager.new.tokens ≡ manager.old.tokens) }
    ensures lines { IfOk result (λ s. s.lines ≡ identity_lines number signed now manager.old.stored) }
    ensures touched { IfOk result (λ s. SameBut s.touched manager.old.stored.published manager.new.stored.published) }
{
    let before = number_of(manager);
    match ticket_of(alloc, manager, number)? {
        None => {
            let lines = one_line(alloc, Line::Spent)?;
            Ok(Stepped::quiet(alloc, lines))
        }
        Some(ticket) => {
            let (installed, touched) = install(alloc, manager, ticket, &signed, now)?;
            let mut lines = one_line(alloc, installed_line(installed))?;
            say_published(&mut lines, before, number_of(manager))?;
            Ok(Stepped { lines, touched })
        }
    }
}

/// A ticket comes back without one.
#[tactic(auto, using(crate::proofs::StoreSteps::flies, crate::proofs::StoreSteps::failed_stored, crate::proofs::StoreSteps::failed_said, crate::proofs::StoreSteps::none_stored, crate::proofs::StoreSteps::none_said))]
pub fn failed(alloc: Global, manager: &mut Keeper, number: u64) -> Result<Row<Line>, Memory>
    ensures stored { OnOk result (manager.new.stored ≡ after_no_identity number manager.old.stored) }
    ensures tokens { OnOk result (manager.new.tokens ≡ manager.old.tokens) }
    ensures lines { IfOk result (λ l. l ≡ no_identity_lines (flight_in number manager.old.stored)) }
{
    match ticket_of(alloc, manager, number)? {
        None => {
            let lines = one_line(alloc, Line::Spent)?;
            Ok(lines)
        }
        Some(ticket) => {
            manager.failed(ticket);
            let lines = one_line(alloc, Line::Failed)?;
            Ok(lines)
        }
    }
}
