//! A signer whose asks are counted and said.

ghost use Rattle.std.specs.Prelude.{◌≡◌};

use crate::fitness::unfit_reason;
use crate::memory::MemorySaid;
use crate::repeats::Repeats;
use event_log::{Event, SignCause, Slot, UnfitCause};
use figures::{SigningKind, SigningResult};
use std::alloc::Global;
use std::sync::Arc;
use std::sync::atomic::{AtomicBool, Ordering};
use wl_edge::{EdgeFault, MemorySigner, Signer};
use wl_entry::{Ask, JwtToken, Signed};
use wl_octets::{Memory, Octets};
use wl_outlook::Outlook;

/// A signer that knows why an ask of it failed.
pub trait AskFailures {
    /// Why the last ask that failed did.
    fn cause(&self) -> SignCause;
}

impl AskFailures for MemorySigner {
    fn cause(&self) -> SignCause {
        SignCause::NotAnAnswer
    }
}

/// Says what comes of the asks of a signer.
#[derive(Drop)]
struct AsksSaid {
    alloc: Global,
    outlook: Arc<Outlook>,
    /// Whether the last ask failed of the signers at one socket, which share this.
    is_failing: Arc<AtomicBool>,
    identities: Repeats,
    early: Repeats,
    tokens: Repeats,
    back: Slot,
    memory: MemorySaid,
}

impl AsksSaid {
    /// Nothing was asked yet.
    fn start(alloc: Global, outlook: Arc<Outlook>, is_failing: Arc<AtomicBool>) -> AsksSaid {
        AsksSaid {
            alloc,
            outlook,
            is_failing,
            identities: Repeats::start(alloc),
            early: Repeats::start(alloc),
            tokens: Repeats::start(alloc),
            back: Slot::empty(),
            memory: MemorySaid::start(),
        }
    }

    /// Notes that an ask failed. A signer that has nothing for one entry, or nothing that is fit, may have it for another, so that it
    /// never fails as a whole.
    fn note_failure(&self, cause: SignCause) {
        match cause {
            SignCause::NotInDocument | SignCause::Unfit(_) => {}
            SignCause::NotReached | SignCause::TimedOut | SignCause::NotAnAnswer => {
                self.is_failing.store(true, Ordering::SeqCst);
            }
        }
    }

    /// Says that the signer answered after an ask that failed.
    fn note_answer(&mut self) {
        if !self.is_failing.swap(false, Ordering::SeqCst) {
            return;
        }
        let now = self.outlook.log().now();
        if let Some(held) = self.back.admit(now) {
            self.outlook.log().say_after(now, &Event::SignerBack, held);
        }
    }

    /// Says that an identity was signed, and that it isn't valid yet.
    fn note_signed(&mut self, ask: &Ask, signed: &Signed, now: u64) {
        let log = self.outlook.log();
        log.say(&Event::Signed(ask, signed.not_after));
        self.outlook.note_signed(ask, signed);
        if signed.not_before <= now {
            return;
        }
        if let Some(held) = self.early.admit(&ask.entry_id, now) {
            log.say_after(
                now,
                &Event::IdentityNotYetValid(ask, signed.not_before),
                held,
            );
        }
    }

    /// Says that no identity was signed for an ask that is of use.
    fn say_unsigned(&mut self, ask: &Ask, cause: SignCause, now: u64) {
        self.note_failure(cause);
        if let Some(held) = self.identities.admit(&ask.entry_id, now) {
            let event = Event::SigningFailed(ask, cause);
            self.outlook.log().say_after(now, &event, held);
        }
    }

    /// Counts an ask, which began when the process had run so many milliseconds.
    fn count(&self, kind: SigningKind, is_signed: bool, began: u64) {
        let outcome = if is_signed {
            SigningResult::Signed
        } else {
            SigningResult::Failed
        };
        self.outlook.note_ask(kind, outcome, began);
    }

    /// Says what came of an ask for an identity, and whether that is one that is of use. This is why, where the ask failed.
    fn note_identity(
        &mut self,
        ask: &Ask,
        answer: &Result<Signed, EdgeFault>,
        cause: SignCause,
    ) -> bool {
        let now = self.outlook.log().now();
        match answer {
            Ok(signed) => {
                self.note_answer();
                self.judge(ask, signed, now)
            }
            Err(EdgeFault::Failed) => {
                self.say_unsigned(ask, cause, now);
                false
            }
            Err(EdgeFault::Memory) => {
                self.memory.say(self.outlook.log());
                false
            }
        }
    }

    /// Says what a signer gave, and whether it is of use.
    fn judge(&mut self, ask: &Ask, signed: &Signed, now: u64) -> bool {
        match unfit_reason(self.alloc, ask, signed, now) {
            Ok(None) => {
                self.note_signed(ask, signed, now);
                true
            }
            Ok(Some(reason)) => {
                let cause = SignCause::Unfit(UnfitCause::of_reason(&reason));
                self.say_unsigned(ask, cause, now);
                false
            }
            Err(Memory) => {
                self.memory.say(self.outlook.log());
                false
            }
        }
    }

    /// Says that no token came for an ask that is of use.
    fn say_no_token(&mut self, ask: &Ask, cause: SignCause, now: u64) {
        self.note_failure(cause);
        if let Some(held) = self.tokens.admit(&ask.entry_id, now) {
            let event = Event::TokenFailed(ask, cause);
            self.outlook.log().say_after(now, &event, held);
        }
    }

    /// Says what came of an ask for a token, and whether that is one that is of use. This is why, where the ask failed.
    fn note_token(
        &mut self,
        ask: &Ask,
        answer: &Result<JwtToken, EdgeFault>,
        cause: SignCause,
    ) -> bool {
        let now = self.outlook.log().now();
        match answer {
            Ok(token) => {
                self.note_answer();
                let Some(reason) = token.unfit(now) else {
                    return true;
                };
                self.say_no_token(ask, SignCause::Unfit(UnfitCause::of_token(reason)), now);
                false
            }
            Err(EdgeFault::Failed) => {
                self.say_no_token(ask, cause, now);
                false
            }
            Err(EdgeFault::Memory) => {
                self.memory.say(self.outlook.log());
                false
            }
        }
    }
}

/// A signer whose asks are counted, with the time that they took. The log has its identities, those that are unfit, and the asks that
/// fail. It is the other in all that contracts see.
#[derive(Drop)]
pub struct SayingSigner<S> {
    inner: S,
    said: AsksSaid,
}

impl<S: Signer + AskFailures + Drop> SayingSigner<S> {
    /// Over this signer. Signers at one socket share whether the last ask failed, so that the
    /// first answer of any of them says that the signer is back.
    pub fn start(
        alloc: Global,
        inner: S,
        outlook: Arc<Outlook>,
        is_failing: Arc<AtomicBool>,
    ) -> SayingSigner<S>
        ensures calls { ⟦<SayingSigner<S> as Signer>⟧.calls result ≡ S.calls inner }
        ensures faults { ⟦<SayingSigner<S> as Signer>⟧.faults result ≡ S.faults inner }
    {
        SayingSigner {
            inner,
            said: AsksSaid::start(alloc, outlook, is_failing),
        }
    }
}

impl<S: Signer + AskFailures + Drop> Signer for SayingSigner<S> {
    type V = S::V;

    ghost calls = { λ s. S.calls s.inner };

    ghost faults = { λ s. S.faults s.inner };

    fn sign_x509(&mut self, ask: &Ask) -> Result<Signed, EdgeFault> {
        let began = self.said.outlook.milliseconds();
        let asked = self.said.outlook.note_asked(ask);
        let answer = self.inner.sign_x509(ask);
        let is_signed = self.said.note_identity(ask, &answer, self.inner.cause());
        asked.end();
        self.said.count(SigningKind::X509, is_signed, began);
        answer
    }

    fn sign_jwt(&mut self, ask: &Ask, audience: &[Octets]) -> Result<JwtToken, EdgeFault> {
        let began = self.said.outlook.milliseconds();
        let answer = self.inner.sign_jwt(ask, audience);
        let is_signed = self.said.note_token(ask, &answer, self.inner.cause());
        self.said.count(SigningKind::Jwt, is_signed, began);
        answer
    }
}
