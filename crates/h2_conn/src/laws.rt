//! What holds of the definitions alone.

ghost use Rattle.std.specs.Prelude.{◌≡◌, ℕ, true, false, List, [], Option};
ghost use Rattle.std.specs.List.{AllByRecursion};
ghost use Rattle.h2_frame.specs.Reading.{End, reading_from};
ghost use Rattle.h2_conn.specs.declared.fault.ConnFault.{ConnFault};
ghost use Rattle.h2_conn.specs.declared.phase.Phase.{Phase};
ghost use Rattle.h2_conn.specs.declared.phase.Totals.{Totals};
ghost use Rattle.h2_conn.specs.declared.phase.Phase.TheVariants.{Open, Failed};
ghost use Rattle.h2_conn.specs.declared.state.State.{State};
ghost use Rattle.h2_frame.specs.declared.frame.Frame.{Frame};
ghost use Rattle.h2_conn.specs.declared.happening.Happening.{Happening};
ghost use Rattle.h2_conn.specs.Kinds.{Fits};
ghost use Rattle.h2_conn.specs.Peer.{goes, peer};
ghost use Rattle.h2_conn.specs.Telling.{TellsStreams};
ghost use Rattle.h2_conn.specs.Holding.{ClaimOn, IsHeld, OpensNot};
ghost use Rattle.h2_conn.specs.Sound.{Sound, SoundPhase};
ghost use Rattle.h2_conn.specs.Counts.{Step, Reaches, HasCounts};
ghost use Rattle.h2_conn.specs.Windows.{HasLowStream, HasWindows};
ghost use Rattle.h2_conn.specs.Conns.{is_live_on, on_open, with_head_on, with_trailers_on, with_message_on, without_waiting_on, after_reset, flush_of};

/// Two flushes are one: the second writes nothing and changes nothing.
#[tactic(auto, using(crate::proofs::Results::flushes_once))]
pub fn flushes_once()
    ensures { (phase : Phase)
        → flush_of (flush_of phase).after ≡ record { bytes = []; after = (flush_of phase).after } }
{}

/// A stream that is not live takes nothing: what is given to it changes nothing.
#[tactic(auto, using(crate::proofs::Results::dead_head, crate::proofs::Results::dead_last, crate::proofs::Results::dead_message, crate::proofs::Results::dead_withdrawal, crate::proofs::Results::dead_reset))]
pub fn dead_streams_take_nothing()
    ensures head { (stream : ℕ) (block : List ℕ) (phase : Phase) → is_live_on phase stream ≡ false
        → on_open (with_head_on stream block) phase ≡ phase }
    ensures finish { (stream : ℕ) (block : List ℕ) (phase : Phase) → is_live_on phase stream ≡ false
        → on_open (with_trailers_on stream block) phase ≡ phase }
    ensures offer { (stream : ℕ) (message : List ℕ) (phase : Phase) → is_live_on phase stream ≡ false
        → on_open (with_message_on stream message) phase ≡ phase }
    ensures withdraw { (stream : ℕ) (phase : Phase) → is_live_on phase stream ≡ false
        → on_open (without_waiting_on stream) phase ≡ phase }
    ensures reset { (stream code : ℕ) (phase : Phase) → is_live_on phase stream ≡ false
        → on_open (after_reset stream code) phase ≡ phase }
{}

/// After a fault no stream is live, and once its bytes are written nothing is left.
#[tactic(auto, using(crate::proofs::Results::fault_flush, crate::proofs::Results::fault_quiet))]
pub fn faults_end_all()
    ensures dead { (fault : ConnFault) (left : List ℕ) (totals : Totals) (stream : ℕ)
        → is_live_on (Failed fault left totals) stream ≡ false }
    ensures once { (fault : ConnFault) (left : List ℕ) (totals : Totals)
        → flush_of (Failed fault left totals) ≡ record { bytes = left; after = Failed fault [] totals } }
    ensures quiet { (fault : ConnFault) (totals : Totals)
        → flush_of (Failed fault [] totals) ≡ record { bytes = []; after = Failed fault [] totals } }
{}

/// The frames that are read from bytes have what `Conn::frame` asks of them.
#[tactic(auto, using(crate::proofs::FrameDemands::frames_fit))]
pub fn frames_fit()
    ensures { (ending : End) (bytes : List ℕ) → AllByRecursion Fits (reading_from ending bytes).frames }
{}

/// The four flood counts are sums over what came and was written: whichever steps led to a
/// state, each of its counts is the number of frames of its sort since the step that ends it.
#[tactic(auto, using(crate::proofs::Sums::reached_counts))]
pub fn floods_are_counted()
    ensures { (steps : List Step) (state : State) → Reaches steps state → HasCounts steps state }
{}

/// Windows are sums over what came and was written: whichever steps led to a state, the
/// connection's is 65,535 and all steps of WINDOW_UPDATE on stream 0, less all bytes of DATA
/// written, and a stream's is the peer's last initial window and all steps on it since its head,
/// less the bytes of DATA written on it, below zero too (RFC 9113, section 6.9).
#[tactic(auto, using(crate::proofs::WindowSums::reached_windows))]
pub fn windows_are_sums()
    ensures { (steps : List Step) (state : State) → AllByRecursion HasLowStream steps → Reaches steps state
        → HasWindows steps state }
{}

/// What a frame told says what came of the live streams: a head opens its stream, a request that
/// ends may close its stream, what is gone is live no more, and else no stream comes or goes.
#[tactic(auto, using(crate::proofs::Tellings::frame_tells))]
pub fn frames_tell_streams()
    ensures { (old new : State) (told : Option Happening) (frame : Frame) → peer old frame ≡ goes new told
        → TellsStreams old told new }
{}

/// A live stream holds the message that was offered to it last: it waits, or began last and none
/// waits. Frames and flushes leave it so.
#[tactic(auto, using(crate::proofs::OfferedMessages::offered_here, crate::proofs::OfferedMessages::flushed_held))]
pub fn streams_hold_messages()
    ensures offered { (stream : ℕ) (message : List ℕ) (phase : Phase) → SoundPhase phase
        → ClaimOn stream (IsHeld message) (on_open (with_message_on stream message) phase) }
    ensures frame { (stream : ℕ) (message : List ℕ) (frame : Frame) (told : Option Happening)
        (old new : State) → Sound old → peer old frame ≡ goes new told → OpensNot stream told
        → ClaimOn stream (IsHeld message) (Open old)
        → ClaimOn stream (IsHeld message) (Open new) }
    ensures flush { (stream : ℕ) (message : List ℕ) (phase : Phase)
        → ClaimOn stream (IsHeld message) phase
        → ClaimOn stream (IsHeld message) (flush_of phase).after }
{}
