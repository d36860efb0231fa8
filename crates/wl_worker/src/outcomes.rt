//! What becomes of an ask for a token.

ghost use Rattle.std.specs.Prelude.{◌≡◌, ◌⊎◌, None, true, false, Ok, IfOk, IfSome, OnOk, IsSome};
ghost use Rattle.wl_selector.specs.Selectors.{sorted_texts};
ghost use Rattle.wl_entry.specs.Fitness.{is_still_fresh};
ghost use Rattle.wl_session.specs.Sessions.{asks_in};
ghost use Rattle.wl_worker.specs.Outcomes.{asker};
ghost use Rattle.wl_worker.specs.Stepping.{Gives, IsGiven, OutcomeTells, SignedTells};

use crate::outside::Caller;
use ask_mail::{NoAnswer, TokenAsks};
use output_parts::Output;
use std::sync::Wait;
use wl_edge::Clock;
use wl_entry::{JwtToken, Voucher};
use wl_octets::Memory;
use wl_session::{JwtAsk, JwtOutcome, Session};

/// A kept token of the ask that is fresh at this time. Of what a lock guards only its type's facts are
/// known, so whether the token is fresh is tested here once more.
fn kept<V: Voucher, R: Wait>(
    caller: &Caller<V, R>,
    ask: &JwtAsk,
    now: u64,
) -> Result<Option<JwtToken>, Memory>
    ensures vouched { IfOk result (λ t. IfSome t (V.token ask.now.ask (sorted_texts ask.now.audience))) }
    ensures fresh { IfOk result (λ t. IfSome t (λ t. is_still_fresh now t ≡ true)) }
{
    match caller
        .desk
        .lock(caller.rt)
        .token(caller.alloc, &ask.ask, ask.audience.as_slice(), now)?
    {
        Some(token) if token.is_fresh(now) => Ok(Some(token)),
        _ => Ok(None),
    }
}

/// A token is offered to those that are kept. Where it cannot be kept it is not.
fn offer<V: Voucher, R: Wait>(caller: &Caller<V, R>, ask: &JwtAsk, token: &JwtToken, now: u64)
    requires { V.token ask.now.ask (sorted_texts ask.now.audience) token.now }
{
    let Ok(copy) = token.copy(caller.alloc) else {
        return
    };
    match caller
        .desk
        .lock(caller.rt)
        .keep_token(caller.alloc, &ask.ask, ask.audience.as_slice(), copy, now)
    {
        Ok(_) | Err(Memory) => {}
    }
}

/// What came for the ask; none where it waits on. A fit token is offered to those that are kept.
fn came<T: TokenAsks, R: Wait>(
    caller: &Caller<T::V, R>,
    ask: &JwtAsk,
    socket: u32,
    asks: &mut T,
    now: u64,
) -> Result<Option<JwtOutcome>, Memory>
    ensures tells { SignedTells (asker caller.now.connection T.V.token) ask.now now (T.taken asks.old)
        (T.taken asks.new) (T.faults asks.old) (T.faults asks.new) result }
    ensures waits { result ≡ Ok None → T.holds asks.new caller.now.connection }
{
    let audience = ask.audience.as_slice();
    let token = match asks.look(caller.rt, caller.connection, socket, &ask.ask, audience) {
        Ok(token) => token,
        Err(NoAnswer::Waits) => return Ok(None),
        Err(NoAnswer::Failed) => return Ok(Some(JwtOutcome::Failed)),
        Err(NoAnswer::Memory) => return Err(Memory),
    };
    match token.unfit(now) {
        Some(unfit) => Ok(Some(JwtOutcome::Unfit(unfit))),
        None => {
            offer(caller, ask, &token, now);
            Ok(Some(JwtOutcome::Token(token)))
        }
    }
}

/// What becomes of an ask: a kept token, or else what came for it.
fn outcome<T: TokenAsks, C: Clock, R: Wait>(
    caller: &Caller<T::V, R>,
    ask: &JwtAsk,
    socket: u32,
    asks: &mut T,
    clock: &mut C,
) -> Result<Option<JwtOutcome>, Memory>
    ensures tells { OutcomeTells (asker caller.now.connection T.V.token) ask.now (T.taken asks.old)
        (T.taken asks.new) (T.faults asks.old) (T.faults asks.new) (C.answers clock.old) (C.answers clock.new) result }
    ensures waits { result ≡ Ok None → T.holds asks.new caller.now.connection }
{
    let now = clock.now();
    match kept(caller, ask, now)? {
        Some(token) => Ok(Some(JwtOutcome::Token(token))),
        None => came(caller, ask, socket, asks, now),
    }
}

/// The first ask that waits gets its outcome, where it came. False where it waits on.
fn answer_one<T: TokenAsks, C: Clock, R: Wait>(
    caller: &Caller<T::V, R>,
    socket: u32,
    asks: &mut T,
    clock: &mut C,
    session: &mut Session,
    out: &mut Output,
) -> Result<bool, Memory>
    requires { IsSome (asks_in session.old) }
    ensures gives { Gives (asker caller.now.connection T.V.token) session.old session.new out.old out.new
        (T.taken asks.old) (T.taken asks.new) (T.faults asks.old) (T.faults asks.new)
        (C.answers clock.old) (C.answers clock.new) result }
    ensures given { result ≡ Ok true → IsGiven session.old session.new out.old out.new }
    ensures waits { result ≡ Ok false → T.holds asks.new caller.now.connection }
{
    let outcome = match session.asks() {
        Some(ask) => outcome(caller, ask, socket, asks, clock)?,
        None => unreachable!(),
    };
    match outcome {
        Some(outcome) => match session.given(outcome, out) {
            Ok(()) => Ok(true),
            Err(_) => Err(Memory),
        },
        None => Ok(false),
    }
}

/// Each ask does, the first one first, while an outcome has come. The first one that has none waits on, with those after
/// it. Out of memory some may be left.
pub fn answer_ready<T: TokenAsks, C: Clock, R: Wait>(
    caller: &Caller<T::V, R>,
    socket: u32,
    asks: &mut T,
    clock: &mut C,
    session: &mut Session,
    out: &mut Output,
) -> Result<(), Memory>
    ensures gives { Gives (asker caller.now.connection T.V.token) session.old session.new out.old out.new
        (T.taken asks.old) (T.taken asks.new) (T.faults asks.old) (T.faults asks.new)
        (C.answers clock.old) (C.answers clock.new) result }
    ensures all { OnOk result ((asks_in session.new ≡ None) ⊎ T.holds asks.new caller.now.connection) }
{
    'waiting: while session.asks().is_some() {
        if !answer_one(caller, socket, asks, clock, session, out)? {
            return Ok(());
        }
    }
    // what may still come is of an ask that is gone
    asks.forget(caller.rt, caller.connection);
    Ok(())
}
