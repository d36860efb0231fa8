//! Tokens.

ghost use Rattle.std.specs.Prelude.{◌≡◌, not, position, IfOk};
ghost use Rattle.wl_entry.specs.Fitness.{is_token_byte, token_unfit, is_still_fresh};

use crate::unfit::JwtUnfit;
use std::alloc::Global;
use wl_octets::{Memory, Octets};

/// The most bytes of a token.
const TOKEN_LIMIT: usize = 8192;

/// A JWT-SVID in its compact form. Times are Unix seconds.
#[derive(PartialEq, Drop)]
pub struct JwtToken {
    pub token: Octets,
    pub issued_at: u64,
    pub expires_at: u64,
}

fn in_token(byte: u8) -> bool
    ensures { result ≡ is_token_byte byte }
{
    byte.is_ascii_alphanumeric() || byte == b'-' || byte == b'_' || byte == b'.'
}

/// The first byte that may not stand in a token.
fn wrong_in_token(token: &[u8]) -> Option<usize>
    ensures { result ≡ position (λ b. not (is_token_byte b)) token.now }
{
    token.iter().position(|byte| !in_token(*byte))
}

impl JwtToken {
    /// The first reason for which it is of no use at this time.
    #[tactic(auto, unfolding(crate::specs::Fitness::token_unfit))]
    pub fn unfit(&self, now: u64) -> Option<JwtUnfit>
        ensures { result ≡ token_unfit now self.now }
    {
        if self.expires_at <= self.issued_at {
            return Some(JwtUnfit::Times);
        }
        if self.expires_at <= now {
            return Some(JwtUnfit::Expired);
        }
        if self.token.len() == 0 {
            return Some(JwtUnfit::Empty);
        }
        match wrong_in_token(self.token.as_slice()) {
            Some(at) => Some(JwtUnfit::TokenByte(at)),
            None if self.token.len() > TOKEN_LIMIT => Some(JwtUnfit::TooLong(self.token.len())),
            None => None,
        }
    }

    /// Whether it was issued at this time at the latest, and less than half of its time has passed.
    pub fn is_fresh(&self, now: u64) -> bool
        ensures { result ≡ is_still_fresh now self.now }
    {
        self.issued_at <= now
            && (2 * now as u128) < self.issued_at as u128 + self.expires_at as u128
    }

    /// A copy of the token.
    pub fn copy(&self, alloc: Global) -> Result<JwtToken, Memory>
        ensures { IfOk result (λ t. t ≡ self.now) }
    {
        Ok(JwtToken {
            token: self.token.copy(alloc)?,
            issued_at: self.issued_at,
            expires_at: self.expires_at,
        })
    }
}
