//! The lines of a script as events. Each reader takes the line's number and the words after its first.

ghost use Rattle.std.specs.Prelude.{◌≡◌, map, IfOk};
ghost use Rattle.wl_core.specs.Events.{IsWithin};
ghost use Rattle.wl_replay.specs.Checks.{Gives};
ghost use Rattle.wl_replay.specs.Words.{words_of};
ghost use Rattle.wl_replay.specs.Events.{sync_of, claim_of, identity_at, signed_of, failed_of, join_of, name_of, namefail_of, feed_of, turn_of, token_at, token_of, tokenfail_of, close_of, event_by, event_in};

use crate::fault::ScriptFault;
use crate::kinds::{EventKind, kind_of};
use crate::words::{conn, hex, number, selectors, words_of};
use std::alloc::Global;
use wl_core::Event;
use wl_entry::{JwtToken, Signed};

#[tactic(auto, unfolding(crate::specs::Events::sync_of))]
fn sync(alloc: Global, at: usize, words: &[&[u8]]) -> Result<Event, ScriptFault>
    ensures value { Gives result (sync_of at (map (λ w. w.now) words.now)) }
    ensures within { IfOk result IsWithin }
{
    let [document] = words else {
        return Err(ScriptFault::Line(at));
    };
    let document = hex(alloc, at, document)?;
    Ok(Event::Sync { document })
}

#[tactic(auto, unfolding(crate::specs::Events::claim_of))]
fn claim(at: usize, words: &[&[u8]]) -> Result<Event, ScriptFault>
    ensures value { Gives result (claim_of at (map (λ w. w.now) words.now)) }
    ensures within { IfOk result IsWithin }
{
    let [now] = words else {
        return Err(ScriptFault::Line(at));
    };
    let now = number(at, now)?;
    Ok(Event::Claim { now })
}

/// A signed identity, by its four words.
#[tactic(auto, unfolding(crate::specs::Events::identity_at))]
fn identity(
    alloc: Global,
    at: usize,
    chain: &[u8],
    key: &[u8],
    not_before: &[u8],
    not_after: &[u8],
) -> Result<Signed, ScriptFault>
    ensures { Gives result (identity_at at chain.now key.now not_before.now not_after.now) }
{
    let chain = hex(alloc, at, chain)?;
    let key = hex(alloc, at, key)?;
    let not_before = number(at, not_before)?;
    let not_after = number(at, not_after)?;
    Ok(Signed {
        chain,
        key,
        not_before,
        not_after,
    })
}

#[tactic(auto, unfolding(crate::specs::Events::signed_of))]
fn signed(alloc: Global, at: usize, words: &[&[u8]]) -> Result<Event, ScriptFault>
    ensures value { Gives result (signed_of at (map (λ w. w.now) words.now)) }
    ensures within { IfOk result IsWithin }
{
    let [ticket, chain, key, not_before, not_after, now] = words else {
        return Err(ScriptFault::Line(at));
    };
    let ticket = number(at, ticket)?;
    let signed = identity(alloc, at, chain, key, not_before, not_after)?;
    let now = number(at, now)?;
    Ok(Event::Signed {
        ticket,
        signed,
        now,
    })
}

#[tactic(auto, unfolding(crate::specs::Events::failed_of))]
fn failed(at: usize, words: &[&[u8]]) -> Result<Event, ScriptFault>
    ensures value { Gives result (failed_of at (map (λ w. w.now) words.now)) }
    ensures within { IfOk result IsWithin }
{
    let [ticket] = words else {
        return Err(ScriptFault::Line(at));
    };
    let ticket = number(at, ticket)?;
    Ok(Event::Failed { ticket })
}

#[tactic(auto, unfolding(crate::specs::Events::join_of))]
fn join(alloc: Global, at: usize, words: &[&[u8]]) -> Result<Event, ScriptFault>
    ensures value { Gives result (join_of at (map (λ w. w.now) words.now)) }
    ensures within { IfOk result IsWithin }
{
    let [first, texts @ ..] = words else {
        return Err(ScriptFault::Line(at));
    };
    if texts.is_empty() {
        return Err(ScriptFault::Line(at));
    }
    let conn = conn(at, first)?;
    let selectors = selectors(alloc, at, texts)?;
    Ok(Event::Join { conn, selectors })
}

#[tactic(auto, unfolding(crate::specs::Events::name_of))]
fn name(alloc: Global, at: usize, words: &[&[u8]]) -> Result<Event, ScriptFault>
    ensures value { Gives result (name_of at (map (λ w. w.now) words.now)) }
    ensures within { IfOk result IsWithin }
{
    let [first, texts @ ..] = words else {
        return Err(ScriptFault::Line(at));
    };
    if texts.is_empty() {
        return Err(ScriptFault::Line(at));
    }
    let conn = conn(at, first)?;
    let selectors = selectors(alloc, at, texts)?;
    Ok(Event::Name {
        conn,
        selectors: Some(selectors),
    })
}

#[tactic(auto, unfolding(crate::specs::Events::namefail_of))]
fn name_fail(at: usize, words: &[&[u8]]) -> Result<Event, ScriptFault>
    ensures value { Gives result (namefail_of at (map (λ w. w.now) words.now)) }
    ensures within { IfOk result IsWithin }
{
    let [first] = words else {
        return Err(ScriptFault::Line(at));
    };
    let conn = conn(at, first)?;
    Ok(Event::Name {
        conn,
        selectors: None,
    })
}

#[tactic(auto, unfolding(crate::specs::Events::feed_of))]
fn feed(alloc: Global, at: usize, words: &[&[u8]]) -> Result<Event, ScriptFault>
    ensures value { Gives result (feed_of at (map (λ w. w.now) words.now)) }
    ensures within { IfOk result IsWithin }
{
    let [first, bytes] = words else {
        return Err(ScriptFault::Line(at));
    };
    let conn = conn(at, first)?;
    let piece = hex(alloc, at, bytes)?;
    Ok(Event::Feed { conn, piece })
}

#[tactic(auto, unfolding(crate::specs::Events::turn_of))]
fn turn(at: usize, words: &[&[u8]]) -> Result<Event, ScriptFault>
    ensures value { Gives result (turn_of at (map (λ w. w.now) words.now)) }
    ensures within { IfOk result IsWithin }
{
    let [first] = words else {
        return Err(ScriptFault::Line(at));
    };
    let conn = conn(at, first)?;
    Ok(Event::Turn { conn })
}

/// A token, by its three words.
#[tactic(auto, unfolding(crate::specs::Events::token_at))]
fn signed_token(
    alloc: Global,
    at: usize,
    token: &[u8],
    issued_at: &[u8],
    expires_at: &[u8],
) -> Result<JwtToken, ScriptFault>
    ensures { Gives result (token_at at token.now issued_at.now expires_at.now) }
{
    let token = hex(alloc, at, token)?;
    let issued_at = number(at, issued_at)?;
    let expires_at = number(at, expires_at)?;
    Ok(JwtToken {
        token,
        issued_at,
        expires_at,
    })
}

#[tactic(auto, unfolding(crate::specs::Events::token_of))]
fn token(alloc: Global, at: usize, words: &[&[u8]]) -> Result<Event, ScriptFault>
    ensures value { Gives result (token_of at (map (λ w. w.now) words.now)) }
    ensures within { IfOk result IsWithin }
{
    let [first, now, bytes, issued_at, expires_at] = words else {
        return Err(ScriptFault::Line(at));
    };
    let conn = conn(at, first)?;
    let now = number(at, now)?;
    let token = signed_token(alloc, at, bytes, issued_at, expires_at)?;
    Ok(Event::Token {
        conn,
        now,
        signed: Some(token),
    })
}

#[tactic(auto, unfolding(crate::specs::Events::tokenfail_of))]
fn token_fail(at: usize, words: &[&[u8]]) -> Result<Event, ScriptFault>
    ensures value { Gives result (tokenfail_of at (map (λ w. w.now) words.now)) }
    ensures within { IfOk result IsWithin }
{
    let [first, now] = words else {
        return Err(ScriptFault::Line(at));
    };
    let conn = conn(at, first)?;
    let now = number(at, now)?;
    Ok(Event::Token {
        conn,
        now,
        signed: None,
    })
}

#[tactic(auto, unfolding(crate::specs::Events::close_of))]
fn close(at: usize, words: &[&[u8]]) -> Result<Event, ScriptFault>
    ensures value { Gives result (close_of at (map (λ w. w.now) words.now)) }
    ensures within { IfOk result IsWithin }
{
    let [first] = words else {
        return Err(ScriptFault::Line(at));
    };
    let conn = conn(at, first)?;
    Ok(Event::Close { conn })
}

#[tactic(auto, unfolding(crate::specs::Events::event_by))]
fn event_by(
    alloc: Global,
    kind: EventKind,
    at: usize,
    words: &[&[u8]],
) -> Result<Event, ScriptFault>
    ensures value { Gives result (event_by kind at (map (λ w. w.now) words.now)) }
    ensures within { IfOk result IsWithin }
{
    match kind {
        EventKind::Sync => sync(alloc, at, words),
        EventKind::Strict => Err(ScriptFault::Line(at)),
        EventKind::Claim => claim(at, words),
        EventKind::Signed => signed(alloc, at, words),
        EventKind::Failed => failed(at, words),
        EventKind::Join => join(alloc, at, words),
        EventKind::Name => name(alloc, at, words),
        EventKind::NameFail => name_fail(at, words),
        EventKind::Feed => feed(alloc, at, words),
        EventKind::Turn => turn(at, words),
        EventKind::Token => token(alloc, at, words),
        EventKind::TokenFail => token_fail(at, words),
        EventKind::Close => close(at, words),
    }
}

#[tactic(auto, unfolding(crate::specs::Events::event_in))]
fn event_in(alloc: Global, at: usize, words: &[&[u8]]) -> Result<Event, ScriptFault>
    ensures value { Gives result (event_in at (map (λ w. w.now) words.now)) }
    ensures within { IfOk result IsWithin }
{
    let [first, rest @ ..] = words else {
        return Err(ScriptFault::Kind(at));
    };
    match kind_of(first) {
        Some(kind) => event_by(alloc, kind, at, rest),
        None => Err(ScriptFault::Kind(at)),
    }
}

/// The event that a line says.
pub(crate) fn event(alloc: Global, at: usize, line: &[u8]) -> Result<Event, ScriptFault>
    ensures value { Gives result (event_in at (words_of line.now)) }
    ensures within { IfOk result IsWithin }
{
    let words = words_of(alloc, line)?;
    event_in(alloc, at, words.as_slice())
}
