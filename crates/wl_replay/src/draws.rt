//! The draws of a simulation.

ghost use Rattle.std.specs.Prelude.{◌≡◌};
ghost use Rattle.wl_replay.specs.Draws.{state_after, drawn};

/// By how much a state is above the one before it, modulo 2^64.
const STATE_STEP: u64 = 0x9e37_79b9_7f4a_7c15;

const FIRST_FACTOR: u64 = 0xbf58_476d_1ce4_e5b9;

const SECOND_FACTOR: u64 = 0x94d0_49bb_1331_11eb;

/// The state after this one.
#[tactic(auto, unfolding(crate::specs::Draws::state_after))]
pub(crate) fn state_after(state: u64) -> u64
    ensures { result ≡ state_after state }
{
    state.wrapping_add(STATE_STEP)
}

/// The number that is drawn in a state.
#[tactic(auto, unfolding(crate::specs::Draws::drawn))]
pub(crate) fn drawn(state: u64) -> u64
    ensures { result ≡ drawn state }
{
    let number = (state ^ (state >> 30)).wrapping_mul(FIRST_FACTOR);
    let number = (number ^ (number >> 27)).wrapping_mul(SECOND_FACTOR);
    number ^ (number >> 31)
}
