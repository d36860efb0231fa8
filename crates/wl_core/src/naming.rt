//! Calls that became ready are attested.

ghost use Rattle.std.specs.Prelude.{◌≡◌, ◌++◌, None, Ok, IfOk, OnOk, IsSome};
ghost use Rattle.wl_session.specs.Sessions.{unnamed_in, Names};
ghost use Rattle.wl_session.specs.Steps.{names_told};

use output_parts::Output;
use std::alloc::Global;
use wl_octets::Memory;
use wl_selector::Selectors;
use wl_session::Session;

/// A copy of what a caller is attested as.
fn copy_caller(alloc: Global, caller: &Option<Selectors>) -> Result<Option<Selectors>, Memory>
    ensures { IfOk result (λ c. c ≡ caller.now) }
{
    match caller {
        None => Ok(None),
        Some(selectors) => Ok(Some(selectors.copy(alloc)?)),
    }
}

/// The lowest ready call that was not attested takes these selectors, or ends where there are none.
fn name_one(
    session: &mut Session,
    caller: Option<Selectors>,
    out: &mut Output,
) -> Result<(), Memory>
    requires { IsSome (unnamed_in session.old) }
    ensures { OnOk result (Names caller session.old (Ok tt) out.old out.new session.new) }
{
    match session.name(caller, out) {
        Ok(()) => Ok(()),
        Err(_) => Err(Memory),
    }
}

/// Each of them does.
pub fn name_all(
    alloc: Global,
    session: &mut Session,
    caller: &Option<Selectors>,
    out: &mut Output,
) -> Result<(), Memory>
    ensures after { OnOk result (session.new ≡ (names_told caller.now session.old).after) }
    ensures bytes { OnOk result (out.new ≡ out.old ++ (names_told caller.now session.old).bytes) }
{
    'calls: while session.unnamed().is_some() {
        let caller = copy_caller(alloc, caller)?;
        name_one(session, caller, out)?;
    }
    Ok(())
}
