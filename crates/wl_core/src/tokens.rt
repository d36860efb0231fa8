//! What an ask for a token gets.

ghost use Rattle.std.specs.Prelude.{◌≡◌, ◌<◌, List, IfOk, OnOk, length};
ghost use Rattle.jwt_cache.specs.Rings.{StandsFor};
ghost use Rattle.jwt_cache.specs.declared.rings.CachedToken.{CachedToken};
ghost use Rattle.wl_store.specs.Stores.{asks_of};
ghost use Rattle.wl_session.specs.Sessions.{asks_in};
ghost use Rattle.wl_core.specs.Tokens.{tokens_of, kept_token, outcome_by, outcome_of, history_after_token};
ghost use Rattle.wl_core.specs.Seats.{seat_at};
ghost use Rattle.wl_core.specs.Moments.{token_seat, with_told, ask_of_seat, history_answered};
ghost use Rattle.wl_core.specs.Lines.{ask_lines, token_lines};
ghost use Rattle.wl_entry.specs.Fitness.{token_unfit};
ghost use Rattle.std.specs.Prelude.{None, Some};

use crate::lines::{Line, idle_lines, one_line, session_lines};
use crate::seats::{Seat, Seats};
use output_parts::Output;
use std::alloc::Global;
use wl_entry::{Free, JwtToken};
use wl_manager::Manager;
use wl_octets::{Memory, Row};
use wl_session::{JwtAsk, JwtOutcome};

/// The manager of a world, in which everything is vouched for.
type Keeper = Manager<Free>;

/// A token that was given for an ask is offered to the manager, and goes to the ask where it is fit.
#[tactic(auto, using(crate::proofs::TokenKeeps::keeps_by))]
fn offer(
    alloc: Global,
    manager: &mut Keeper,
    ask: &JwtAsk,
    token: JwtToken,
    now: u64,
) -> Result<JwtOutcome, Memory>
    ensures value { IfOk result (λ o. o ≡ outcome_by (token_unfit now token) token) }
    ensures stored { OnOk result (manager.new.stored ≡ manager.old.stored) }
    ensures history { (history : List CachedToken) → StandsFor manager.old.tokens history
        → OnOk result (StandsFor manager.new.tokens (history_after_token (asks_of manager.old.stored.store.entries) ask.now now None (Some token) history)) }
{
    let copy = token.copy(alloc)?;
    manager.keep_token(alloc, &ask.ask, ask.audience.as_slice(), copy, now)?;
    match token.unfit(now) {
        None => Ok(JwtOutcome::Token(token)),
        Some(unfit) => Ok(JwtOutcome::Unfit(unfit)),
    }
}

/// The kept token of an ask, or else the one that is given.
#[tactic(auto, using(crate::proofs::TokenKeeps::outcome_kept, crate::proofs::TokenKeeps::outcome_failed, crate::proofs::TokenKeeps::outcome_given, crate::proofs::TokenKeeps::history_found))]
fn outcome_of(
    alloc: Global,
    manager: &mut Keeper,
    ask: &JwtAsk,
    now: u64,
    given: Option<JwtToken>,
) -> Result<JwtOutcome, Memory>
    ensures value { (history : List CachedToken) → StandsFor manager.old.tokens history
        → IfOk result (λ o. o ≡ outcome_of (kept_token (tokens_of manager.old.stored history) ask.now now) given now) }
    ensures stored { OnOk result (manager.new.stored ≡ manager.old.stored) }
    ensures history { (history : List CachedToken) → StandsFor manager.old.tokens history
        → OnOk result (StandsFor manager.new.tokens (history_after_token (asks_of manager.old.stored.store.entries) ask.now now (kept_token (tokens_of manager.old.stored history) ask.now now) given history)) }
{
    match manager.token(alloc, &ask.ask, ask.audience.as_slice(), now)? {
        Some(kept) => Ok(JwtOutcome::Token(kept)),
        None => match given {
            None => Ok(JwtOutcome::Failed),
            Some(token) => {
                let outcome = offer(alloc, manager, ask, token, now)?;
                Ok(outcome)
            }
        },
    }
}

/// The first waiting ask of a session gets a token, or none.
#[tactic(auto, using(crate::proofs::TokenKeeps::none_told, crate::proofs::TokenKeeps::none_said, crate::proofs::TokenKeeps::some_told, crate::proofs::TokenKeeps::some_said, crate::proofs::TokenKeeps::answers_found))]
fn answer(
    alloc: Global,
    manager: &mut Keeper,
    seat: &mut Seat,
    conn: u32,
    now: u64,
    given: Option<JwtToken>,
) -> Result<Row<Line>, Memory>
    ensures after { (history : List CachedToken) → StandsFor manager.old.tokens history
        → OnOk result (seat.new.session ≡ (token_seat (tokens_of manager.old.stored history) now given seat.old).after) }
    ensures caller { seat.new.caller ≡ seat.old.caller }
    ensures lines { (history : List CachedToken) → StandsFor manager.old.tokens history
        → IfOk result (λ l. l ≡ ask_lines conn seat.old.session (asks_in seat.old.session) (token_seat (tokens_of manager.old.stored history) now given seat.old)) }
    ensures stored { OnOk result (manager.new.stored ≡ manager.old.stored) }
    ensures history { (history : List CachedToken) → StandsFor manager.old.tokens history
        → OnOk result (StandsFor manager.new.tokens (history_answered (asks_in seat.old.session) manager.old.stored now given history)) }
{
    match seat.session.asks() {
        None => {
            let lines = idle_lines(alloc, conn, seat.session.failure())?;
            Ok(lines)
        }
        Some(ask) => {
            let outcome = outcome_of(alloc, manager, ask, now, given)?;
            let mut out = Output::empty(alloc);
            seat.give(outcome, &mut out)?;
            let lines = session_lines(alloc, conn, out, seat.session.failure())?;
            Ok(lines)
        }
    }
}

/// The signer answers the first waiting ask of a connection with a token, or with none.
#[tactic(auto, using(crate::proofs::CallAnswers::told_set, crate::proofs::CallAnswers::none_set, crate::proofs::TokenKeeps::token_lines_of, crate::proofs::TokenKeeps::token_history_of))]
pub fn token(
    alloc: Global,
    manager: &mut Keeper,
    seats: &mut Seats,
    conn: u32,
    now: u64,
    given: Option<JwtToken>,
) -> Result<Row<Line>, Memory>
    requires { conn < length seats.old.seats.items }
    ensures seats { (history : List CachedToken) → StandsFor manager.old.tokens history
        → OnOk result (seats.new.seats.items ≡ with_told conn (token_seat (tokens_of manager.old.stored history) now given) seats.old.seats.items) }
    ensures lines { (history : List CachedToken) → StandsFor manager.old.tokens history
        → IfOk result (λ l. l ≡ token_lines conn (token_seat (tokens_of manager.old.stored history) now given) (seat_at seats.old.seats.items conn)) }
    ensures begun { seats.new.begun_before ≡ seats.old.begun_before }
    ensures stored { OnOk result (manager.new.stored ≡ manager.old.stored) }
    ensures history { (history : List CachedToken) → StandsFor manager.old.tokens history
        → OnOk result (StandsFor manager.new.tokens (history_answered (ask_of_seat (seat_at seats.old.seats.items conn)) manager.old.stored now given history)) }
{
    match seats.take(conn) {
        None => {
            let lines = one_line(alloc, Line::Absent(conn))?;
            Ok(lines)
        }
        Some(seat) => {
            let mut seat = seat;
            let lines = answer(alloc, manager, &mut seat, conn, now, given)?;
            seats.put(conn, seat);
            Ok(lines)
        }
    }
}
