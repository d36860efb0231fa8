//! What can happen.

ghost use Rattle.std.specs.Prelude.{◌≡◌, true};
ghost use Rattle.wl_core.specs.Events.{IsWithin};

use wl_entry::{JwtToken, Signed};
use wl_octets::Octets;
use wl_selector::Selectors;

/// How many connections there may be: they are numbered from 0.
pub const CONNS: u32 = 32;

/// One step of the world. Times are Unix seconds; a connection is below [`CONNS`].
#[derive(Drop)]
pub enum Event {
    /// The upstream authority gives a document.
    Sync {
        document: Octets,
    },
    /// What has expired is let go, and tickets are given for what is due.
    Claim {
        now: u64,
    },
    /// A ticket comes back with a signed identity.
    Signed {
        ticket: u64,
        signed: Signed,
        now: u64,
    },
    /// A ticket comes back without one.
    Failed {
        ticket: u64,
    },
    /// A caller with these selectors connects.
    Join {
        conn: u32,
        selectors: Selectors,
    },
    /// From now on a call that becomes ready is attested with these selectors, or can't be.
    Name {
        conn: u32,
        selectors: Option<Selectors>,
    },
    /// Bytes come from the caller.
    Feed {
        conn: u32,
        piece: Octets,
    },
    /// The caller's calls are answered from the last publication.
    Turn {
        conn: u32,
    },
    /// The signer answers the first waiting ask with a token, or with none.
    Token {
        conn: u32,
        now: u64,
        signed: Option<JwtToken>,
    },
    /// The caller's connection ends.
    Close {
        conn: u32,
    },
}

impl Event {
    /// Whether the connection that the event names, if it names one, is below [`CONNS`].
    pub fn is_within(&self) -> bool
        ensures within { result ≡ true → IsWithin self.now }
        ensures each { IsWithin self.now → result ≡ true }
    {
        match self {
            Event::Sync { document: _ } => true,
            Event::Claim { now: _ } => true,
            Event::Signed {
                ticket: _,
                signed: _,
                now: _,
            } => true,
            Event::Failed { ticket: _ } => true,
            Event::Join { conn, selectors: _ } => *conn < CONNS,
            Event::Name { conn, selectors: _ } => *conn < CONNS,
            Event::Feed { conn, piece: _ } => *conn < CONNS,
            Event::Turn { conn } => *conn < CONNS,
            Event::Token {
                conn,
                now: _,
                signed: _,
            } => *conn < CONNS,
            Event::Close { conn } => *conn < CONNS,
        }
    }
}
