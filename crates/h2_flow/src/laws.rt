//! What holds of the definitions alone.

ghost use Rattle.std.specs.Prelude.{◌≡◌, ◌≤◌, ◌∷◌, ◌+◌, ℕ, List, sum_by};
ghost use Rattle.std.specs.List.{AllByRecursion};
ghost use Rattle.list_laws.specs.Lists.{BeginsWith};
ghost use Rattle.h2_flow.specs.Windows.{room_of, window_of};
ghost use Rattle.h2_flow.specs.Streams.{Sent};
ghost use Rattle.h2_flow.specs.Outboxes.{Out, RisesFrom, numbers, without_stream, with_message, pull_of, IsQuiet};
ghost use Rattle.h2_flow.specs.Histories.{Step, Pull, Reaches, HasSums, data_of, data_on};
ghost use Rattle.h2_flow.specs.Progress.{AllDiffer, all_data_on, count_all_begun, all_messages, IsMore, Finishes, progress_on, WritesWhatBegan};

/// A pull after a pull writes nothing, and changes nothing, also where streams were removed
/// in between.
#[tactic(auto, using(crate::proofs::QuietPulls::pulls_once, crate::proofs::QuietPulls::removes_quietly))]
pub fn pulls_once()
    ensures again { (outbox : Out) → IsQuiet (pull_of outbox).left }
    ensures removed { (stream : ℕ) (outbox : Out) → IsQuiet outbox → IsQuiet (without_stream stream outbox) }
{}

/// Offering the same message again leaves the same outbox.
#[tactic(auto, using(crate::proofs::Offers::offers_once))]
pub fn offers_once()
    ensures { (stream : ℕ) (message : List ℕ) (outbox : Out)
        → with_message stream message (with_message stream message outbox)
        ≡ with_message stream message outbox }
{}

/// A pull neither adds nor removes a stream.
#[tactic(auto, using(crate::proofs::Numbers::numbers_pulled))]
pub fn pulls_keep_streams()
    ensures { (outbox : Out) → numbers (pull_of outbox).left ≡ numbers outbox }
{}

/// Windows are the sums of what came and was written: whichever calls led to an outbox, the
/// connection's is 65,535 and all steps on stream 0, less all bytes of DATA written, and a
/// stream's is the peer's last initial window and all steps on it, less the bytes of DATA
/// written on it, below zero too (RFC 9113, section 6.9). The streams stand by ascending number.
#[tactic(auto, using(crate::proofs::Sums::reached_sums, crate::proofs::Sums::reached_rises))]
pub fn windows_are_sums()
    ensures sums { (steps : List Step) (outbox : Out) → Reaches steps outbox → HasSums steps outbox }
    ensures ascending { (steps : List Step) (outbox : Out) → Reaches steps outbox
        → RisesFrom 0 (numbers outbox) }
{}

/// The DATA written on a stream is a prefix of the messages that began there, one after the
/// other: with what is left of the last one it is all of them. Each was offered to that stream,
/// and one begins only after the whole of the one before was written. A pull raises the count of
/// begun messages by those that waited before it and do not after it.
#[tactic(auto, using(crate::proofs::Progress::reached_prefix, crate::proofs::Progress::reached_progress, crate::proofs::Progress::pull_finishes, crate::proofs::BegunCounts::pull_counts))]
pub fn writes_what_began()
    ensures prefix { (stream : ℕ) (steps : List Step) (outbox : Out) → Reaches steps outbox
        → BeginsWith (all_messages (progress_on stream steps).begun) (progress_on stream steps).written }
    ensures progress { (stream : ℕ) (steps : List Step) (outbox : Out) → Reaches steps outbox
        → WritesWhatBegan stream steps outbox }
    ensures whole { (stream : ℕ) (sent : List Sent) (before : List Step) (outbox : Out)
        → Reaches (Pull sent ∷ before) outbox → IsMore (all_data_on stream sent) (progress_on stream before)
        → Finishes (all_data_on stream sent) (progress_on stream before) }
    ensures count { (outbox : Out)
        → (pull_of outbox).left.flow.begun
        ≡ outbox.flow.begun + count_all_begun outbox.streams (pull_of outbox).left.streams }
{}

/// No two messages that follow each other on a stream are equal.
#[tactic(auto, using(crate::proofs::Progress::messages_differ))]
pub fn messages_differ()
    ensures { (stream : ℕ) (steps : List Step) → AllDiffer (progress_on stream steps).begun }
{}

/// A pull writes on a stream no more bytes of DATA than its window was, and none where that was
/// not above zero; on all streams together no more than the connection's window (RFC 9113,
/// section 6.9.1).
#[tactic(auto, using(crate::proofs::Sums::pull_within_streams, crate::proofs::Sums::pull_within_connection))]
pub fn pulls_stay_within_windows()
    ensures streams { (outbox : Out) → RisesFrom 0 (numbers outbox)
        → AllByRecursion
        (λ s. sum_by (data_on s.number) (pull_of outbox).sent
        ≤ room_of (window_of outbox.flow.initial_window_size s.credit)) outbox.streams }
    ensures connection { (outbox : Out) → RisesFrom 0 (numbers outbox)
        → sum_by data_of (pull_of outbox).sent ≤ outbox.flow.connection_window }
{}
