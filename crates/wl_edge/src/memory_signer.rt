//! A signer in memory.

ghost use Rattle.std.specs.Prelude.{◌≡◌, [], Some, IfOk};
ghost use Rattle.wl_edge.specs.Calls.{Answers};
ghost use Rattle.wl_edge.specs.Scripts.{Follows, due_answer};

use crate::fault::EdgeFault;
use crate::recording::counted;
use crate::script::Script;
use crate::signer::{Signer, SignerCall};
use std::alloc::Global;
use wl_entry::{Ask, Free, JwtToken, Signed};
use wl_octets::{Memory, Octets, Row, clone_all};

/// A signer that answers what its scripts say, whatever it is asked, and tells its calls. Everything is vouched for.
#[derive(Drop)]
pub struct MemorySigner {
    alloc: Global,
    /// What its calls for an identity answer.
    pub identities: Script<Signed>,
    /// What its calls for a token answer.
    pub tokens: Script<JwtToken>,
    pub(crate) calls: Row<SignerCall>,
    pub(crate) faults: u64,
}

/// A copy of the identity that is due.
fn identity(alloc: Global, script: &Script<Signed>) -> Result<Option<Signed>, Memory>
    ensures { IfOk result (λ copy. copy ≡ due_answer script.now) }
{
    match script.due() {
        Some(signed) => Ok(Some(signed.copy(alloc)?)),
        None => Ok(None),
    }
}

/// A copy of the token that is due.
fn token(alloc: Global, script: &Script<JwtToken>) -> Result<Option<JwtToken>, Memory>
    ensures { IfOk result (λ copy. copy ≡ due_answer script.now) }
{
    match script.due() {
        Some(token) => Ok(Some(token.copy(alloc)?)),
        None => Ok(None),
    }
}

/// The call for an identity, as it is recorded.
fn identity_call(alloc: Global, ask: &Ask, script: &Script<Signed>) -> Result<SignerCall, Memory>
    ensures { IfOk result (λ call. call ≡ SignerCall.X509 ask.now (due_answer script.now)) }
{
    Ok(SignerCall::X509(ask.copy(alloc)?, identity(alloc, script)?))
}

/// The call for a token, as it is recorded.
fn token_call(
    alloc: Global,
    ask: &Ask,
    audience: &[Octets],
    script: &Script<JwtToken>,
) -> Result<SignerCall, Memory>
    ensures { IfOk result (λ call. call ≡ SignerCall.Jwt ask.now audience.now (due_answer script.now)) }
{
    let audience = clone_all(alloc, audience)?;
    Ok(SignerCall::Jwt(ask.copy(alloc)?, audience, token(alloc, script)?))
}

impl MemorySigner {
    /// A signer that was not called yet.
    pub fn start(
        alloc: Global,
        identities: Script<Signed>,
        tokens: Script<JwtToken>,
    ) -> MemorySigner
        ensures identities { result.identities ≡ identities }
        ensures tokens { result.tokens ≡ tokens }
        ensures empty { ⟦<MemorySigner as Signer>⟧.calls result ≡ Some [] }
        ensures fresh { ⟦<MemorySigner as Signer>⟧.faults result ≡ 0 }
    {
        MemorySigner {
            alloc,
            identities,
            tokens,
            calls: Row::empty(alloc),
            faults: 0,
        }
    }

    /// Its calls.
    pub fn calls(&self) -> &[SignerCall]
        ensures { ⟦<MemorySigner as Signer>⟧.calls self.now ≡ Some result.now }
    {
        self.calls.as_slice()
    }
}

impl Signer for MemorySigner {
    type V = Free;

    ghost calls = { λ s. Some s.calls };

    ghost faults = { λ s. s.faults };

    fn sign_x509(&mut self, ask: &Ask) -> Result<Signed, EdgeFault>
        ensures told { Answers (⟦<MemorySigner as Signer>⟧.calls self.old) (⟦<MemorySigner as Signer>⟧.calls self.new)
            (⟦<MemorySigner as Signer>⟧.faults self.old) (⟦<MemorySigner as Signer>⟧.faults self.new)
            (SignerCall.X509 ask.now) result }
        ensures answer { Follows self.old.identities self.new.identities result }
        ensures tokens { self.new.tokens ≡ self.old.tokens }
    {
        let answer = identity(self.alloc, &self.identities)?;
        let call = identity_call(self.alloc, ask, &self.identities)?;
        self.calls.push(call)?;
        self.identities.pass();
        counted(answer, &mut self.faults)
    }

    fn sign_jwt(&mut self, ask: &Ask, audience: &[Octets]) -> Result<JwtToken, EdgeFault>
        ensures told { Answers (⟦<MemorySigner as Signer>⟧.calls self.old) (⟦<MemorySigner as Signer>⟧.calls self.new)
            (⟦<MemorySigner as Signer>⟧.faults self.old) (⟦<MemorySigner as Signer>⟧.faults self.new)
            (SignerCall.Jwt ask.now audience.now) result }
        ensures answer { Follows self.old.tokens self.new.tokens result }
        ensures identities { self.new.identities ≡ self.old.identities }
    {
        let answer = token(self.alloc, &self.tokens)?;
        let call = token_call(self.alloc, ask, audience, &self.tokens)?;
        self.calls.push(call)?;
        self.tokens.pass();
        counted(answer, &mut self.faults)
    }
}
