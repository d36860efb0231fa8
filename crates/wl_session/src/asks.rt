//! What a session asks for, what it is given, and how it fails.

use h2_conn::ConnFault;
use wl_entry::{Ask, JwtToken, JwtUnfit};
use wl_octets::{Octets, Row};

/// A token that a FetchJWTSVID call waits for: on its stream, for this ask and these audiences, with the hint of its entry.
#[derive(Drop, PartialEq)]
pub struct JwtAsk {
    pub stream: u32,
    pub ask: Ask,
    pub audience: Row<Octets>,
    pub hint: Octets,
}

/// What became of an ask.
#[derive(Drop)]
pub enum JwtOutcome {
    /// A token for the ask and its audiences, which is fit.
    Token(JwtToken),
    /// The signer gave none.
    Failed,
    /// The signer gave one that is of no use.
    Unfit(JwtUnfit),
}

/// Why a session fails, for good.
#[derive(Clone, Copy, Debug, PartialEq, Eq)]
pub enum SessionFault {
    /// The peer broke the rules of the connection; the GOAWAY that says so was written.
    Protocol(ConnFault),
    /// Memory ran out.
    Memory,
}
