//! Scripts in words: a canonical spelling of their lines, parted by semicolons.

use std::alloc::Global;
use std::test::Fail;
use wl_core::Event;
use wl_entry::{JwtToken, Signed};
use wl_replay::{Script, ScriptFault, put_hex};
use wl_selector::Selectors;

/// A fault, in words.
pub fn fault_words(alloc: Global, fault: ScriptFault) -> Result<String, Fail> {
    Ok(match fault {
        ScriptFault::Line(line) => format!(in alloc; "line {line}")?,
        ScriptFault::Kind(line) => format!(in alloc; "kind {line}")?,
        ScriptFault::Conn(line) => format!(in alloc; "conn {line}")?,
        ScriptFault::Hex(line) => format!(in alloc; "hex {line}")?,
        ScriptFault::TooLong(count) => format!(in alloc; "long {count}")?,
        ScriptFault::Memory => return Err(Fail::from("no memory")),
    })
}

fn hex(alloc: Global, bytes: &[u8]) -> Result<String, Fail> {
    if bytes.is_empty() {
        return Ok(String::from_str(alloc, "-")?);
    }
    let mut text = Vec::new(alloc);
    put_hex(&mut text, bytes)?;
    match str::from_utf8(text.as_slice()) {
        Ok(text) => Ok(String::from_str(alloc, text)?),
        Err(_) => Err(Fail::from("no text")),
    }
}

fn selectors(alloc: Global, selectors: &Selectors) -> Result<String, Fail> {
    let mut text = String::new(alloc);
    for selector in selectors.as_slice() {
        match str::from_utf8(selector.as_bytes()) {
            Ok(one) => {
                text.push_str(" ")?;
                text.push_str(one)?;
            }
            Err(_) => return Err(Fail::from("no text")),
        }
    }
    Ok(text)
}

fn named(alloc: Global, conn: u32, caller: &Option<Selectors>) -> Result<String, Fail> {
    match caller {
        Some(caller) => {
            let caller = selectors(alloc, caller)?;
            Ok(format!(in alloc; "name {conn}{caller}")?)
        }
        None => Ok(format!(in alloc; "namefail {conn}")?),
    }
}

fn identity(alloc: Global, ticket: u64, signed: &Signed, now: u64) -> Result<String, Fail> {
    let chain = hex(alloc, signed.chain.as_slice())?;
    let key = hex(alloc, signed.key.as_slice())?;
    let (before, after) = (signed.not_before, signed.not_after);
    Ok(format!(in alloc; "signed {ticket} {chain} {key} {before} {after} {now}")?)
}

fn token(alloc: Global, conn: u32, now: u64, token: &Option<JwtToken>) -> Result<String, Fail> {
    match token {
        Some(token) => {
            let bytes = hex(alloc, token.token.as_slice())?;
            let (issued, expires) = (token.issued_at, token.expires_at);
            Ok(format!(in alloc; "token {conn} {now} {bytes} {issued} {expires}")?)
        }
        None => Ok(format!(in alloc; "tokenfail {conn} {now}")?),
    }
}

fn event_words(alloc: Global, event: &Event) -> Result<String, Fail> {
    Ok(match event {
        Event::Sync { document } => {
            let document = hex(alloc, document.as_slice())?;
            format!(in alloc; "sync {document}")?
        }
        Event::Claim { now } => format!(in alloc; "claim {now}")?,
        Event::Signed {
            ticket,
            signed,
            now,
        } => identity(alloc, *ticket, signed, *now)?,
        Event::Failed { ticket } => format!(in alloc; "failed {ticket}")?,
        Event::Join {
            conn,
            selectors: caller,
        } => {
            let caller = selectors(alloc, caller)?;
            format!(in alloc; "join {conn}{caller}")?
        }
        Event::Name {
            conn,
            selectors: caller,
        } => named(alloc, *conn, caller)?,
        Event::Feed { conn, piece } => {
            let piece = hex(alloc, piece.as_slice())?;
            format!(in alloc; "feed {conn} {piece}")?
        }
        Event::Turn { conn } => format!(in alloc; "turn {conn}")?,
        Event::Token { conn, now, signed } => token(alloc, *conn, *now, signed)?,
        Event::Close { conn } => format!(in alloc; "close {conn}")?,
    })
}

/// A script, in words.
pub fn script_words(alloc: Global, script: &Script) -> Result<String, Fail> {
    let mut text = String::from_str(alloc, if script.strict { "strict " } else { "sync " })?;
    text.push_str(hex(alloc, script.document.as_slice())?.as_str())?;
    for event in script.events.as_slice() {
        text.push_str(";")?;
        text.push_str(event_words(alloc, event)?.as_str())?;
    }
    Ok(text)
}
