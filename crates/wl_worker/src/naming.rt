//! Calls that became ready are attested.

ghost use Rattle.std.specs.Prelude.{◌≡◌, None, Ok, OnOk, IsSome};
ghost use Rattle.wl_session.specs.Sessions.{unnamed_in};
ghost use Rattle.wl_worker.specs.Stepping.{Asks, Attests, IsNamed};

use output_parts::Output;
use wl_edge::{Attestor, EdgeFault, Origin};
use wl_octets::Memory;
use wl_selector::Selectors;
use wl_session::Session;

/// The attestor's answer for a call from there, which is none where it failed.
fn attest<A: Attestor>(origin: &Origin, attestor: &mut A) -> Result<Option<Selectors>, Memory>
    ensures { Asks origin.now (A.calls attestor.old) (A.calls attestor.new) (A.faults attestor.old)
        (A.faults attestor.new) result }
{
    match attestor.attest(origin) {
        Ok(selectors) => Ok(Some(selectors)),
        Err(EdgeFault::Failed) => Ok(None),
        Err(EdgeFault::Memory) => Err(Memory),
    }
}

/// The lowest ready call that was not attested takes the attestor's answer, or ends where that failed.
fn attest_one<A: Attestor>(
    origin: &Origin,
    attestor: &mut A,
    session: &mut Session,
    out: &mut Output,
) -> Result<(), Memory>
    requires { IsSome (unnamed_in session.old) }
    ensures attests { Attests origin.now session.old session.new out.old out.new (A.calls attestor.old)
        (A.calls attestor.new) (A.faults attestor.old) (A.faults attestor.new) result }
    ensures named { OnOk result (IsNamed session.old session.new out.old out.new) }
{
    let answer = attest(origin, attestor)?;
    match session.name(answer, out) {
        Ok(()) => Ok(()),
        Err(_) => Err(Memory),
    }
}

/// Each of them does, lowest stream first. Out of memory some may be left. Where one does, `attested` says so.
pub fn attest_all<A: Attestor>(
    origin: &Origin,
    attestor: &mut A,
    session: &mut Session,
    out: &mut Output,
    attested: &mut bool,
) -> Result<(), Memory>
    ensures attests { Attests origin.now session.old session.new out.old out.new (A.calls attestor.old)
        (A.calls attestor.new) (A.faults attestor.old) (A.faults attestor.new) result }
    ensures all { OnOk result (unnamed_in session.new ≡ None) }
{
    'calls: while session.unnamed().is_some() {
        attest_one(origin, attestor, session, out)?;
        *attested = true;
    }
    Ok(())
}
