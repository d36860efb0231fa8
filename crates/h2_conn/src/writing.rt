//! What is written of a connection.

ghost use Rattle.std.specs.Prelude.{◌≡◌, ◌++◌, ℕ, List, IfOk, OnOk, OnErr};
ghost use Rattle.list_laws.specs.Lists.{GainsFront};
ghost use Rattle.h2_flow.specs.Outboxes.{pull_of};
ghost use Rattle.h2_conn.specs.Conns.{goaway, answer_ends, answers_end, after_pull};
ghost use Rattle.h2_conn.specs.Sound.{Sound};

use crate::control::close;
use crate::fault::ConnFault;
use crate::state::State;
use h2_frame::{Body, Frame, put_frame};
use output_parts::Output;
use std::alloc::Global;
use wl_octets::{Memory, Octets, Row};

/// The last bytes of a connection: the queued control frames, and GOAWAY.
pub fn final_bytes(alloc: Global, queued: &[u8], fault: ConnFault) -> Result<Octets, Memory>
    ensures { IfOk result (λ bytes. bytes ≡ queued.now ++ goaway fault) }
{
    let mut bytes = Octets::from_slice(alloc, queued)?;
    let body = Body::GoAway {
        last: fault.last_stream,
        code: fault.code,
    };
    put_frame(&mut bytes, &Frame { stream: 0, body })?;
    Ok(bytes)
}

/// Marks a stream whose END_STREAM was written, and ends it if its request has ended.
#[tactic(auto, using(crate::proofs::Sounds::s_closed, crate::proofs::Sounds::s_answering), unfolding(crate::specs::Conns::answer_ends))]
fn end_response(state: &mut State, stream: u32)
    requires { Sound state.old }
    ensures step { state.new ≡ answer_ends stream state.old }
    ensures sound { Sound state.new }
{
    if state.streams.is_remote_closed(stream) {
        close(state, stream);
    } else {
        state.streams.close_local(stream);
    }
}

fn end_responses(state: &mut State, ended: &[u32])
    requires { Sound state.old }
    ensures step { state.new ≡ answers_end ended.now state.old }
    ensures sound { Sound state.new }
{
    for stream in ended {
        end_response(state, *stream);
    }
}

/// Writes all that may be written, and ends what that ends.
#[tactic(auto, using(crate::proofs::Sounds::s_pulled), unfolding(crate::specs::Conns::after_pull))]
pub fn pull(state: &mut State, alloc: Global, out: &mut Output) -> Result<(), Memory>
    requires { Sound state.old }
    ensures sound { OnOk result (Sound state.new) }
    ensures ok { OnOk result (state.new ≡ after_pull state.old (pull_of state.old.outbox)) }
    ensures bytes { OnOk result (out.new ≡ out.old ++ (pull_of state.old.outbox).bytes) }
    ensures prefix { GainsFront (pull_of state.old.outbox).bytes out.old out.new }
{
    let begun = state.outbox.begun();
    let mut ended = Row::empty(alloc);
    state.outbox.pull(out, &mut ended)?;
    if state.outbox.begun() != begun || ended.len() != 0 {
        state.rapid_reset_count = 0;
    }
    end_responses(state, ended.as_slice());
    Ok(())
}
