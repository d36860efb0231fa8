//! Asks that are answered at once.

ghost use Rattle.std.specs.Prelude.{None};

use crate::mail::{NoAnswer, TokenAsks};
use std::sync::Wait;
use wl_edge::{EdgeFault, Signer};
use wl_entry::{Ask, JwtToken};
use wl_octets::Octets;

/// Asks a signer while its caller looks, so that no ask ever waits. It is for who serves one connection in a thread.
#[derive(Drop)]
pub struct DirectAsks<S> {
    pub signer: S,
}

impl<S: Signer> TokenAsks for DirectAsks<S> {
    type V = S::V;

    ghost taken = { λ d. None };

    ghost faults = { λ d. S.faults d.signer };

    ghost holds = { λ d connection. ⊥ };

    fn look<R: Wait>(
        &mut self,
        _rt: &R,
        _connection: u64,
        _socket: u32,
        ask: &Ask,
        audience: &[Octets],
    ) -> Result<JwtToken, NoAnswer> {
        match self.signer.sign_jwt(ask, audience) {
            Ok(token) => Ok(token),
            Err(EdgeFault::Failed) => Err(NoAnswer::Failed),
            Err(EdgeFault::Memory) => Err(NoAnswer::Memory),
        }
    }

    fn forget<R: Wait>(&self, _rt: &R, _connection: u64) {}
}
