//! What is put on a stream: a response head, a message, an end.

ghost use Rattle.std.specs.Prelude.{◌≡◌, ◌<◌, ◌^◌, ℕ, List, length, OnOk};
ghost use Rattle.grpc_wire.specs.Messages.{framed};
ghost use Rattle.wl_session.specs.Answering.{with_head, with_message, with_last_message, with_refusal};

use crate::counted::{CountedConn, refused_status};
use call_counts::CallStatus;
use grpc_wire::{Refusal, put_message, refusal_fields, response_head, status, trailers};
use std::alloc::Global;
use wl_octets::{Memory, Octets, Shared};

/// The response head, where it was not given before.
#[tactic(auto, unfolding(crate::specs::Answering::with_head), using(crate::proofs::Sizes::small_head))]
fn head(alloc: Global, conn: &mut CountedConn, stream: u32, headed: bool) -> Result<(), Memory>
    ensures { OnOk result (conn.new ≡ with_head stream headed conn.old) }
{
    if headed {
        return Ok(());
    }
    let fields = response_head(alloc)?;
    conn.inner.head(stream, fields.as_slice())
}

/// A message that stands after its gRPC prefix already.
#[tactic(auto, unfolding(crate::specs::Answering::with_message))]
pub fn framed_message(
    alloc: Global,
    conn: &mut CountedConn,
    stream: u32,
    headed: bool,
    message: Shared<Octets>,
) -> Result<(), Memory>
    requires { 0 < length message }
    ensures { OnOk result
        ((bare : List ℕ) → message ≡ framed bare → conn.new ≡ with_message stream headed bare conn.old) }
{
    head(alloc, conn, stream, headed)?;
    conn.inner.offer_shared(stream, message);
    conn.calls.note_message(stream);
    Ok(())
}

/// A message, after its prefix.
#[tactic(auto, using(crate::proofs::FramedMessages::framed_some), unfolding(crate::specs::Answering::with_message))]
pub fn message(
    alloc: Global,
    conn: &mut CountedConn,
    stream: u32,
    headed: bool,
    bare: &[u8],
) -> Result<(), Memory>
    requires { length bare.now < 2 ^ 32 }
    ensures { OnOk result (conn.new ≡ with_message stream headed bare.now conn.old) }
{
    let mut message = Octets::empty(alloc);
    put_message(&mut message, bare)?;
    head(alloc, conn, stream, headed)?;
    conn.inner.offer(stream, message);
    conn.calls.note_message(stream);
    Ok(())
}

/// The one message, and status 0.
#[tactic(auto, unfolding(crate::specs::Answering::with_last_message), using(crate::proofs::Sizes::small_trailers))]
pub fn last_message(
    alloc: Global,
    conn: &mut CountedConn,
    stream: u32,
    headed: bool,
    bare: &[u8],
) -> Result<(), Memory>
    requires { length bare.now < 2 ^ 32 }
    ensures { OnOk result (conn.new ≡ with_last_message stream headed bare.now conn.old) }
{
    message(alloc, conn, stream, headed, bare)?;
    let fields = trailers(alloc, status::OK, &[], false)?;
    conn.inner.finish(stream, fields.as_slice())?;
    conn.calls.end(stream, CallStatus::Ok);
    Ok(())
}

/// The stream ends with a refusal, in one frame where its response head was not given.
#[tactic(auto, unfolding(crate::specs::Answering::with_refusal), using(crate::proofs::Sizes::small_refusal))]
pub fn refuse(
    alloc: Global,
    conn: &mut CountedConn,
    stream: u32,
    headed: bool,
    refusal: Refusal,
) -> Result<(), Memory>
    ensures { OnOk result (conn.new ≡ with_refusal stream headed refusal conn.old) }
{
    conn.inner.withdraw(stream);
    let fields = refusal_fields(alloc, refusal, !headed)?;
    conn.inner.finish(stream, fields.as_slice())?;
    conn.calls.end(stream, refused_status(refusal));
    Ok(())
}
