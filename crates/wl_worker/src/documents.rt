//! The present document is taken.

ghost use Rattle.std.specs.Prelude.{◌≡◌, true, Some};
ghost use Rattle.wl_document.specs.Checks.{Gives};
ghost use Rattle.wl_document.specs.Documents.{document_state};
ghost use Rattle.wl_worker.specs.Upkeep.{Syncs, SyncsUnlessAtRest, TakeGives, NewGives};

use spiffe_id::TrustDomain;
use std::alloc::Global;
use std::sync::{Mutex, Wait};
use wl_desk::Desk;
use wl_document::{AuthorityState, DocFault, read_state};
use wl_edge::{EdgeFault, Upstream};
use wl_entry::Voucher;
use wl_octets::{Memory, Octets};
use wl_publish::Note;

/// What became of the present document. A note ends with the last publication at that moment.
#[derive(Drop)]
pub enum Synced<V: Voucher> {
    /// It was taken, and the note's last publication shows its entries and bundles.
    Done(Note<V>),
    /// It is the one that was taken last, and nothing has changed.
    Same,
    /// It has this fault, and nothing has changed.
    Refused(DocFault, Note<V>),
    /// The upstream gave none.
    Failed,
    /// Memory ran out, and nothing has changed.
    Memory,
}

impl<V: Voucher> Synced<V> {
    /// Whether the document that came is in use.
    pub(crate) fn is_in_use(&self) -> bool {
        matches!(self, Synced::Done(_) | Synced::Same)
    }
}

/// Pulls once, and takes the document that came, unless it is `last`, the one that was taken last; a note is made under
/// the same lock. The document's own domain has to be that of the publications so far. So an authority that has nothing
/// new costs a comparison of bytes, and the desk isn't locked for it; nor is it while a document is read.
pub fn sync_once<V: Voucher, U: Upstream, R: Wait>(
    rt: &R,
    alloc: Global,
    desk: &Mutex<Desk<V>>,
    upstream: &mut U,
    last: &mut Option<Octets>,
) -> Synced<V>
    ensures { Syncs (U.told upstream.old) (U.told upstream.new)
        (U.faults upstream.old) (U.faults upstream.new) last.old last.new result }
{
    let mut document = Octets::empty(alloc);
    match upstream.pull(&mut document) {
        Ok(()) => take_new(rt, alloc, desk, document, last),
        Err(EdgeFault::Failed) => Synced::Failed,
        Err(EdgeFault::Memory) => Synced::Memory,
    }
}

/// The same; but where the document that came last is in use, and the upstream says that nothing has changed since, it is not asked.
/// So a document at rest costs no look at its bytes.
pub(crate) fn sync_if_changed<V: Voucher, U: Upstream, R: Wait>(
    rt: &R,
    alloc: Global,
    desk: &Mutex<Desk<V>>,
    upstream: &mut U,
    last: &mut Option<Octets>,
    is_in_use: bool,
) -> Synced<V>
    ensures { SyncsUnlessAtRest is_in_use (U.told upstream.old) (U.told upstream.new)
        (U.faults upstream.old) (U.faults upstream.new) last.old last.new result }
{
    if is_in_use && upstream.is_unchanged() {
        return Synced::Same;
    }
    sync_once(rt, alloc, desk, upstream, last)
}

/// Whether the document is the one that was taken last.
fn is_last(last: &Option<Octets>, document: &Octets) -> bool
    ensures { result ≡ true → last.now ≡ Some document.now }
{
    match last {
        Some(last) => *last == *document,
        None => false,
    }
}

/// Takes a document that isn't the last one.
fn take_new<V: Voucher, R: Wait>(
    rt: &R,
    alloc: Global,
    desk: &Mutex<Desk<V>>,
    document: Octets,
    last: &mut Option<Octets>,
) -> Synced<V>
    ensures { NewGives document last.old last.new result }
{
    if is_last(last, &document) {
        return Synced::Same;
    }
    let synced = read_and_take(rt, alloc, desk, document.as_slice());
    if let Synced::Done(_) = &synced {
        *last = Some(document);
    }
    synced
}

/// Reads a document while the desk is free, with the domain that the desk had just before as the own one, and takes it
/// under the desk's lock.
fn read_and_take<V: Voucher, R: Wait>(
    rt: &R,
    alloc: Global,
    desk: &Mutex<Desk<V>>,
    document: &[u8],
) -> Synced<V>
    ensures { TakeGives document.now result }
{
    let domain = own_domain(alloc, &desk.lock(rt));
    let Ok(domain) = domain else {
        return Synced::Memory;
    };
    let read = read_state(alloc, document, Some(&domain));
    take_document(rt, alloc, &mut desk.lock(rt), document, &domain, read)
}

/// A copy of the desk's own domain.
fn own_domain<V: Voucher>(alloc: Global, desk: &Desk<V>) -> Result<TrustDomain, Memory> {
    desk.domain().copy(alloc)
}

/// What a document says with the desk's domain as the own one: what was read, where this domain is the desk's, and else
/// it is read again.
fn read_for<V: Voucher>(
    alloc: Global,
    desk: &Desk<V>,
    document: &[u8],
    domain: &TrustDomain,
    read: Result<AuthorityState, DocFault>,
) -> Result<AuthorityState, DocFault>
    requires { Gives (λ s. s) read (document_state (Some domain.now) document.now) }
    ensures { Gives (λ s. s) result
        (document_state (Some desk.now.managed.stored.published.domain) document.now) }
{
    if *desk.domain() == *domain {
        return read;
    }
    read_state(alloc, document, Some(desk.domain()))
}

/// The desk takes a document that was read with this domain as the own one, and makes a note of all publications so far.
fn take_document<V: Voucher, R: Wait>(
    rt: &R,
    alloc: Global,
    desk: &mut Desk<V>,
    document: &[u8],
    domain: &TrustDomain,
    read: Result<AuthorityState, DocFault>,
) -> Synced<V>
    requires { Gives (λ s. s) read (document_state (Some domain.now) document.now) }
    ensures { TakeGives document.now result }
{
    match read_for(alloc, desk, document, domain, read) {
        Ok(state) => match desk.sync_state(rt, alloc, state) {
            Ok(published) => {
                drop(published);
                match desk.note(rt) {
                    Ok(note) => Synced::Done(note),
                    Err(Memory) => Synced::Memory,
                }
            }
            Err(Memory) => Synced::Memory,
        },
        Err(fault) => match fault {
            DocFault::Memory => Synced::Memory,
            fault => match desk.note(rt) {
                Ok(note) => Synced::Refused(fault, note),
                Err(Memory) => Synced::Memory,
            },
        },
    }
}
