//! The page of figures, as text.

ghost use Rattle.std.specs.Prelude.{◌≡◌, ◌++◌, OnOk, IfOk};
ghost use Rattle.figures.specs.Page.{documents_part, age_part, publication_part, end_part, identities_part, signing_line, kind_lines, signings_part, bucket, buckets, in_seconds, sum_line, count_line, seconds_part, open_lines, accepted_lines, sockets_part, fault_line, failed_lines, closed_lines, faults_part, traffic_part, links_part, document_part, process_part, page};

use crate::call_text::put_calls;
use crate::family::Family;
use crate::figures::{
    Documents, Figures, Identities, LinkFaults, Seconds, Signings, SocketFigures, Traffic,
};
use crate::labels::{
    Bound, Direction, DocumentResult, FaultCause, IdentityState, LateCause, LinkCause,
    RefusedCause, SigningKind, SigningResult,
};
use crate::lines::{
    put_head, put_label_end, put_number_end, put_sample, put_single, put_socket_line,
};
use crate::sample::Counted;
use std::alloc::Global;
use std::string::ToString;
use wl_octets::{Memory, Octets};

/// How many milliseconds a second has.
const SECOND: u64 = 1_000;

#[tactic(auto, unfolding(crate::specs::Page::documents_part))]
fn put_documents(alloc: Global, out: &mut Octets, documents: Documents) -> Result<(), Memory>
    ensures { OnOk result (out.new ≡ out.old ++ documents_part documents) }
{
    put_head(out, Family::Documents)?;
    put_sample(
        alloc,
        out,
        Counted::Document(DocumentResult::Taken),
        documents.taken,
    )?;
    put_sample(
        alloc,
        out,
        Counted::Document(DocumentResult::Refused),
        documents.refused,
    )?;
    put_sample(
        alloc,
        out,
        Counted::Document(DocumentResult::Failed),
        documents.failed,
    )
}

#[tactic(auto, unfolding(crate::specs::Page::age_part))]
fn put_age(alloc: Global, out: &mut Octets, age: Option<u64>) -> Result<(), Memory>
    ensures { OnOk result (out.new ≡ out.old ++ age_part age) }
{
    match age {
        Some(seconds) => put_single(alloc, out, Family::DocumentAge, seconds),
        None => Ok(()),
    }
}

#[tactic(auto, unfolding(crate::specs::Page::publication_part))]
fn put_publication(alloc: Global, out: &mut Octets, publication: Option<u64>) -> Result<(), Memory>
    ensures { OnOk result (out.new ≡ out.old ++ publication_part publication) }
{
    match publication {
        Some(number) => put_single(alloc, out, Family::Publication, number),
        None => Ok(()),
    }
}

#[tactic(auto, unfolding(crate::specs::Page::document_part))]
fn put_document_part(alloc: Global, out: &mut Octets, figures: &Figures) -> Result<(), Memory>
    ensures { OnOk result (out.new ≡ out.old ++ document_part figures.now) }
{
    put_documents(alloc, out, figures.documents)?;
    put_age(alloc, out, figures.document_age)?;
    put_publication(alloc, out, figures.publication)?;
    put_single(alloc, out, Family::Entries, figures.entries)?;
    put_single(alloc, out, Family::Bundles, figures.bundles)
}

#[tactic(auto, unfolding(crate::specs::Page::end_part))]
fn put_end(alloc: Global, out: &mut Octets, next_end: Option<u64>) -> Result<(), Memory>
    ensures { OnOk result (out.new ≡ out.old ++ end_part next_end) }
{
    match next_end {
        Some(seconds) => put_single(alloc, out, Family::NextEnd, seconds),
        None => Ok(()),
    }
}

#[tactic(auto, unfolding(crate::specs::Page::identities_part))]
fn put_identities(alloc: Global, out: &mut Octets, identities: Identities) -> Result<(), Memory>
    ensures { OnOk result (out.new ≡ out.old ++ identities_part identities) }
{
    put_head(out, Family::Identities)?;
    put_sample(
        alloc,
        out,
        Counted::Identity(IdentityState::Kept),
        identities.kept,
    )?;
    put_sample(
        alloc,
        out,
        Counted::Identity(IdentityState::Due),
        identities.due,
    )?;
    put_sample(
        alloc,
        out,
        Counted::Identity(IdentityState::InFlight),
        identities.in_flight,
    )?;
    put_sample(
        alloc,
        out,
        Counted::Identity(IdentityState::Missing),
        identities.missing,
    )?;
    put_end(alloc, out, identities.next_end)
}

#[tactic(auto, unfolding(crate::specs::Page::signing_line))]
fn put_signing_line(
    alloc: Global,
    out: &mut Octets,
    kind: SigningKind,
    outcome: SigningResult,
    number: u64,
) -> Result<(), Memory>
    ensures { OnOk result (out.new ≡ out.old ++ signing_line kind outcome number) }
{
    out.push_slice(Family::Signings.name())?;
    out.push_slice(b"{kind=\"")?;
    out.push_slice(kind.name())?;
    out.push_slice(b"\",result=\"")?;
    out.push_slice(outcome.name())?;
    out.push_slice(b"\"}")?;
    put_number_end(alloc, out, number)
}

#[tactic(auto, unfolding(crate::specs::Page::kind_lines))]
fn put_kind_lines(
    alloc: Global,
    out: &mut Octets,
    kind: SigningKind,
    signings: Signings,
) -> Result<(), Memory>
    ensures { OnOk result (out.new ≡ out.old ++ kind_lines kind signings) }
{
    put_signing_line(alloc, out, kind, SigningResult::Signed, signings.signed)?;
    put_signing_line(alloc, out, kind, SigningResult::Failed, signings.failed)
}

#[tactic(auto, unfolding(crate::specs::Page::signings_part))]
fn put_signings(
    alloc: Global,
    out: &mut Octets,
    x509: Signings,
    jwt: Signings,
) -> Result<(), Memory>
    ensures { OnOk result (out.new ≡ out.old ++ signings_part x509 jwt) }
{
    put_head(out, Family::Signings)?;
    put_kind_lines(alloc, out, SigningKind::X509, x509)?;
    put_kind_lines(alloc, out, SigningKind::Jwt, jwt)
}

#[tactic(auto, unfolding(crate::specs::Page::bucket))]
fn put_bucket(alloc: Global, out: &mut Octets, bound: Bound, number: u64) -> Result<(), Memory>
    ensures { OnOk result (out.new ≡ out.old ++ bucket bound number) }
{
    out.push_slice(Family::SigningSeconds.name())?;
    out.push_slice(b"_bucket")?;
    put_label_end(alloc, out, b"le", bound.name(), number)
}

#[tactic(auto, unfolding(crate::specs::Page::buckets))]
fn put_buckets(alloc: Global, out: &mut Octets, seconds: &Seconds) -> Result<(), Memory>
    ensures { OnOk result (out.new ≡ out.old ++ buckets seconds.now) }
{
    put_bucket(
        alloc,
        out,
        Bound::TenMilliseconds,
        seconds.at_most_10_milliseconds,
    )?;
    put_bucket(
        alloc,
        out,
        Bound::HundredMilliseconds,
        seconds.at_most_100_milliseconds,
    )?;
    put_bucket(alloc, out, Bound::OneSecond, seconds.at_most_1_second)?;
    put_bucket(alloc, out, Bound::FiveSeconds, seconds.at_most_5_seconds)?;
    put_bucket(alloc, out, Bound::TenSeconds, seconds.at_most_10_seconds)?;
    put_bucket(alloc, out, Bound::NoBound, seconds.count)
}

/// Writes milliseconds as seconds.
#[tactic(auto, unfolding(crate::specs::Page::in_seconds))]
fn put_in_seconds(alloc: Global, out: &mut Octets, number: u64) -> Result<(), Memory>
    ensures { OnOk result (out.new ≡ out.old ++ in_seconds number) }
{
    let whole = (number / SECOND).to_string(alloc)?;
    out.push_slice(whole.as_bytes())?;
    out.push_slice(b".")?;
    out.push_slice(&[b'0' + (number / 100 % 10) as u8])?;
    out.push_slice(&[b'0' + (number / 10 % 10) as u8])?;
    out.push_slice(&[b'0' + (number % 10) as u8])
}

#[tactic(auto, unfolding(crate::specs::Page::sum_line))]
fn put_sum_line(alloc: Global, out: &mut Octets, milliseconds: u64) -> Result<(), Memory>
    ensures { OnOk result (out.new ≡ out.old ++ sum_line milliseconds) }
{
    out.push_slice(Family::SigningSeconds.name())?;
    out.push_slice(b"_sum ")?;
    put_in_seconds(alloc, out, milliseconds)?;
    out.push_slice(b"\n")
}

#[tactic(auto, unfolding(crate::specs::Page::count_line))]
fn put_count_line(alloc: Global, out: &mut Octets, count: u64) -> Result<(), Memory>
    ensures { OnOk result (out.new ≡ out.old ++ count_line count) }
{
    out.push_slice(Family::SigningSeconds.name())?;
    out.push_slice(b"_count")?;
    put_number_end(alloc, out, count)
}

#[tactic(auto, unfolding(crate::specs::Page::seconds_part))]
fn put_seconds(alloc: Global, out: &mut Octets, seconds: &Seconds) -> Result<(), Memory>
    ensures { OnOk result (out.new ≡ out.old ++ seconds_part seconds.now) }
{
    put_head(out, Family::SigningSeconds)?;
    put_buckets(alloc, out, seconds)?;
    put_sum_line(alloc, out, seconds.milliseconds)?;
    put_count_line(alloc, out, seconds.count)
}

fn put_open_lines(alloc: Global, out: &mut Octets, sockets: &[SocketFigures]) -> Result<(), Memory>
    ensures { OnOk result (out.new ≡ out.old ++ open_lines sockets.now) }
{
    for (at, socket) in sockets.iter().enumerate() {
        put_socket_line(alloc, out, Family::Connections, socket, socket.open)?;
    }
    Ok(())
}

fn put_accepted_lines(
    alloc: Global,
    out: &mut Octets,
    sockets: &[SocketFigures],
) -> Result<(), Memory>
    ensures { OnOk result (out.new ≡ out.old ++ accepted_lines sockets.now) }
{
    for (at, socket) in sockets.iter().enumerate() {
        put_socket_line(
            alloc,
            out,
            Family::ConnectionsTotal,
            socket,
            socket.accepted,
        )?;
    }
    Ok(())
}

#[tactic(auto, unfolding(crate::specs::Page::sockets_part))]
fn put_sockets(alloc: Global, out: &mut Octets, sockets: &[SocketFigures]) -> Result<(), Memory>
    ensures { OnOk result (out.new ≡ out.old ++ sockets_part sockets.now) }
{
    put_head(out, Family::Connections)?;
    put_open_lines(alloc, out, sockets)?;
    put_head(out, Family::ConnectionsTotal)?;
    put_accepted_lines(alloc, out, sockets)
}

#[tactic(auto, unfolding(crate::specs::Page::fault_line))]
fn put_fault(alloc: Global, out: &mut Octets, cause: FaultCause, number: u64) -> Result<(), Memory>
    ensures { OnOk result (out.new ≡ out.old ++ fault_line cause number) }
{
    put_sample(alloc, out, Counted::Fault(cause), number)
}

#[tactic(auto, unfolding(crate::specs::Page::failed_lines))]
fn put_failed_lines(alloc: Global, out: &mut Octets, faults: LinkFaults) -> Result<(), Memory>
    ensures { OnOk result (out.new ≡ out.old ++ failed_lines faults) }
{
    put_fault(
        alloc,
        out,
        FaultCause::Failed(LinkCause::ReceiveFailed),
        faults.receive_failed,
    )?;
    put_fault(
        alloc,
        out,
        FaultCause::Failed(LinkCause::SendFailed),
        faults.send_failed,
    )?;
    put_fault(alloc, out, FaultCause::Protocol, faults.protocol)
}

/// Writes how many connections ended for their time, or before they began.
#[tactic(auto, unfolding(crate::specs::Page::closed_lines))]
fn put_closed_lines(alloc: Global, out: &mut Octets, faults: LinkFaults) -> Result<(), Memory>
    ensures { OnOk result (out.new ≡ out.old ++ closed_lines faults) }
{
    put_fault(
        alloc,
        out,
        FaultCause::Late(LateCause::Stalled),
        faults.stalled,
    )?;
    put_fault(
        alloc,
        out,
        FaultCause::Late(LateCause::Silent),
        faults.silent,
    )?;
    put_fault(
        alloc,
        out,
        FaultCause::Refused(RefusedCause::Unattested),
        faults.unattested,
    )?;
    put_fault(
        alloc,
        out,
        FaultCause::Refused(RefusedCause::UidFull),
        faults.uid_full,
    )
}

#[tactic(auto, unfolding(crate::specs::Page::faults_part))]
fn put_faults(alloc: Global, out: &mut Octets, faults: LinkFaults) -> Result<(), Memory>
    ensures { OnOk result (out.new ≡ out.old ++ faults_part faults) }
{
    put_head(out, Family::ConnectionFaults)?;
    put_failed_lines(alloc, out, faults)?;
    put_closed_lines(alloc, out, faults)
}

#[tactic(auto, unfolding(crate::specs::Page::traffic_part))]
fn put_traffic(alloc: Global, out: &mut Octets, traffic: Traffic) -> Result<(), Memory>
    ensures { OnOk result (out.new ≡ out.old ++ traffic_part traffic) }
{
    put_head(out, Family::Bytes)?;
    put_sample(
        alloc,
        out,
        Counted::Bytes(Direction::Received),
        traffic.received,
    )?;
    put_sample(alloc, out, Counted::Bytes(Direction::Sent), traffic.sent)
}

#[tactic(auto, unfolding(crate::specs::Page::links_part))]
fn put_links(alloc: Global, out: &mut Octets, figures: &Figures) -> Result<(), Memory>
    ensures { OnOk result (out.new ≡ out.old ++ links_part figures.now) }
{
    put_sockets(alloc, out, figures.sockets.as_slice())?;
    put_calls(alloc, out, figures.sockets.as_slice())?;
    put_faults(alloc, out, figures.faults)?;
    put_traffic(alloc, out, figures.traffic)
}

#[tactic(auto, unfolding(crate::specs::Page::process_part))]
fn put_process(alloc: Global, out: &mut Octets, figures: &Figures) -> Result<(), Memory>
    ensures { OnOk result (out.new ≡ out.old ++ process_part figures.now) }
{
    put_single(alloc, out, Family::LinesDropped, figures.lines_dropped)?;
    put_single(alloc, out, Family::StartTime, figures.started)
}

/// The page of these figures, in the text format of Prometheus, version 0.0.4.
#[tactic(auto, unfolding(crate::specs::Page::page))]
pub fn metrics_text(alloc: Global, figures: &Figures) -> Result<Octets, Memory>
    ensures { IfOk result (λ text. text ≡ page figures.now) }
{
    let mut out = Octets::empty(alloc);
    put_document_part(alloc, &mut out, figures)?;
    put_identities(alloc, &mut out, figures.identities)?;
    put_signings(alloc, &mut out, figures.x509, figures.jwt)?;
    put_seconds(alloc, &mut out, &figures.seconds)?;
    put_links(alloc, &mut out, figures)?;
    put_process(alloc, &mut out, figures)?;
    Ok(out)
}
