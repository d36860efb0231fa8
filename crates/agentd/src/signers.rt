//! Who signs, as a configuration says.

ghost use Rattle.std.specs.Prelude.{◌≡◌, None};

use crate::targets::NextSigner;
use document_signer::{DocumentSigner, DocumentVoucher};
use event_log::SignCause;
use std::alloc::Global;
use std::net::Net;
use std::rt::Clock;
use std::sync::Arc;
use wl_edge::{EdgeFault, Signer};
use wl_entry::{Ask, JwtToken, Signed, Voucher};
use wl_octets::Octets;
use wl_saying::AskFailures;
use wl_signlink::{AskFault, ReplyVoucher, SignLink};

/// Vouches for what a signer replied to the ask, and for an identity that a document has for the entry of the ask.
#[derive(Clone, Copy, Debug, PartialEq, Eq)]
pub struct AgentVoucher;

impl Voucher for AgentVoucher {
    ghost use Rattle.std.specs.Prelude.{◌⊎◌};

    ghost signed = { λ ask signed. ⟦<ReplyVoucher as Voucher>⟧.signed ask signed ⊎ ⟦<DocumentVoucher as Voucher>⟧.signed ask signed };

    ghost token = { λ ask audience token. ⟦<ReplyVoucher as Voucher>⟧.token ask audience token };
}

/// A signer at a socket, or the documents.
#[derive(Drop)]
pub enum SignedBy<R> {
    Link(SignLink<R>),
    Documents(DocumentSigner),
}

/// A signer by either of them, and at another socket once that is wanted. It counts its faults and tells no calls.
#[derive(Drop)]
pub struct AgentSigner<R> {
    rt: R,
    alloc: Global,
    by: SignedBy<R>,
    next: Arc<NextSigner>,
    /// Of how many changes of the socket it knows.
    known: u64,
    faults: u64,
}

impl<R: Net + Clock + Clone + Drop> AgentSigner<R> {
    /// A signer by either of them, until it is at another socket.
    pub fn start(rt: R, alloc: Global, by: SignedBy<R>, next: Arc<NextSigner>) -> AgentSigner<R>
        ensures { ⟦<AgentSigner<R> as Signer>⟧.faults result ≡ 0 }
    {
        AgentSigner {
            rt,
            alloc,
            by,
            next,
            known: 0,
            faults: 0,
        }
    }

    /// Asks at another socket from now on, where that is wanted. Out of memory it does so later.
    fn follow(&mut self)
        ensures { self.new.faults ≡ self.old.faults }
    {
        let Some((path, changes)) = self.next.after(self.alloc, self.known) else {
            return;
        };
        if let Ok(signer) = SignLink::start(&self.rt, self.alloc, path.as_slice()) {
            self.by = SignedBy::Link(signer);
            self.known = changes;
        }
    }
}

impl<R: Net + Clock + Clone + Drop> Signer for AgentSigner<R> {
    type V = AgentVoucher;

    ghost calls = { λ s. None };

    ghost faults = { λ s. s.faults };

    fn sign_x509(&mut self, ask: &Ask) -> Result<Signed, EdgeFault> {
        self.follow();
        let signed = match &mut self.by {
            SignedBy::Link(signer) => signer.sign_x509(ask),
            SignedBy::Documents(signer) => signer.sign_x509(ask),
        };
        if let Err(EdgeFault::Failed) = &signed {
            self.faults = self.faults.saturating_add(1);
        }
        signed
    }

    fn sign_jwt(&mut self, ask: &Ask, audience: &[Octets]) -> Result<JwtToken, EdgeFault> {
        self.follow();
        let token = match &mut self.by {
            SignedBy::Link(signer) => signer.sign_jwt(ask, audience),
            SignedBy::Documents(signer) => signer.sign_jwt(ask, audience),
        };
        if let Err(EdgeFault::Failed) = &token {
            self.faults = self.faults.saturating_add(1);
        }
        token
    }
}

/// Why an ask of the signer's socket failed.
fn cause_of(fault: Option<AskFault>) -> SignCause {
    match fault {
        Some(AskFault::NotReached) => SignCause::NotReached,
        Some(AskFault::TimedOut) => SignCause::TimedOut,
        Some(AskFault::NotAnAnswer) | None => SignCause::NotAnAnswer,
    }
}

impl<R: Net + Clock + Clone + Drop> AskFailures for AgentSigner<R> {
    fn cause(&self) -> SignCause {
        match &self.by {
            SignedBy::Link(signer) => cause_of(signer.last_fault()),
            SignedBy::Documents(_) => SignCause::NotInDocument,
        }
    }
}
