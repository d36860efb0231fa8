//! An identity is asked for.

ghost use Rattle.std.specs.Prelude.{◌≡◌, Some, IfOk, IfSome};
ghost use Rattle.wl_worker.specs.Upkeep.{Asks, IsShown, rest_after};
ghost use Rattle.wl_edge.specs.declared.signer.SignerCall.TheVariants.{X509};

use std::alloc::Global;
use std::sync::{Mutex, Wait};
use svid_cache::Installed;
use wl_desk::Desk;
use wl_edge::{Clock, EdgeFault, Signer};
use wl_entry::{Signed, Voucher};
use wl_octets::Memory;
use wl_publish::Note;
use wl_store::Ticket;

/// A signer, and the clock by which its answers are judged.
#[derive(Drop)]
pub struct Signing<S, C> {
    pub signer: S,
    pub clock: C,
}

/// What became of one ask.
pub enum Asked<V: Voucher> {
    /// An identity came and was kept; the note's last publication shows it. Its ask is not to be made again for so many
    /// seconds: 0 unless it is due again at once.
    Kept(Note<V>, u64),
    /// An identity came and was not kept.
    Refused,
    /// The signer failed. The ticket is still in flight.
    Failed(Ticket),
    /// Memory ran out before the signer was asked, and the ticket is still in flight.
    Starved(Ticket),
    /// Memory ran out after the signer had answered, and the ticket went back.
    Memory,
}

/// Asks the signer for one identity, and hands its answer to the desk. The desk is not locked while the signer is asked.
pub fn sign_once<S: Signer, C: Clock, R: Wait>(
    rt: &R,
    alloc: Global,
    desk: &Mutex<Desk<S::V>>,
    signer: &mut S,
    clock: &mut C,
    ticket: Ticket,
) -> Asked<S::V>
    ensures { Asks ticket.ask (S.calls signer.old) (S.calls signer.new)
        (S.faults signer.old) (S.faults signer.new) result }
{
    match signer.sign_x509(&ticket.ask) {
        Ok(signed) => {
            let now = clock.now();
            let mut held = desk.lock(rt);
            let rest = rest_of(&signed, held.renew_before(), now);
            match install(rt, alloc, &mut held, ticket, signed, now) {
                Ok(Some(note)) => Asked::Kept(note, rest),
                Ok(None) => Asked::Refused,
                Err(Memory) => Asked::Memory,
            }
        }
        Err(EdgeFault::Failed) => Asked::Failed(ticket),
        Err(EdgeFault::Memory) => Asked::Starved(ticket),
    }
}

/// For how many seconds an identity that was kept at this time is not asked for again. It is due again at once where its
/// signer dates it before `renew_before`, after now, or back by half of its time or more: then for a quarter of what is left
/// of it, at least a second.
fn rest_of(signed: &Signed, renew_before: u64, now: u64) -> u64
    ensures { result ≡ rest_after renew_before now signed.now }
{
    if signed.is_wanted(renew_before, now) && !signed.is_due(now) {
        return 0;
    }
    (signed.not_after.saturating_sub(now) / 4).max(1)
}

/// Gives the desk an identity with its ticket. There is a note where it was kept.
fn install<V: Voucher, R: Wait>(
    rt: &R,
    alloc: Global,
    desk: &mut Desk<V>,
    ticket: Ticket,
    signed: Signed,
    now: u64,
) -> Result<Option<Note<V>>, Memory>
    requires { V.signed ticket.ask signed }
    ensures { IfOk result (λ note. IfSome note (λ n. IsShown n.list (X509 ticket.ask (Some signed)))) }
{
    match desk.signed(rt, alloc, ticket, signed, now)? {
        (Installed::Kept, note) => Ok(note),
        _ => Ok(None),
    }
}
