//! What holds of the definitions alone.

ghost use Rattle.std.specs.Prelude.{◌≡◌, ◌++◌, ◌∷◌, ℕ, List};
ghost use Rattle.h2_frame.specs.Reading.{End, reading_from};
ghost use Rattle.h2_conn.specs.declared.phase.Phase.{Phase};
ghost use Rattle.wl_snapshot.specs.Snapshots.{Publication};
ghost use Rattle.wl_session.specs.declared.served.ServedCall.{ServedCall};
ghost use Rattle.wl_session.specs.Answering.{call_turn, calls_turn};
ghost use Rattle.wl_session.specs.Talks.{Talking, then_, silent};
ghost use Rattle.wl_session.specs.Sessions.{fresh_session, feed_said, turn_said};
ghost use Rattle.wl_session.specs.Agreeing.{SeeAlike, HaveSeen, IsQuiet};
ghost use Rattle.wl_session.specs.Refusing.{RefusedCallEnds, NoIdentityExactly, UnknownServiceExactly, MessageIsOfView, HealthIsOfView};
ghost use Rattle.wl_session.specs.Completing.{IsCompleteIn, FeedKeepsComplete, NameKeepsComplete, TokenKeepsComplete, TurnAnswersAll};
ghost use Rattle.wl_session.specs.Settled.{FirstMayTurn, FeedKeepsTurn, NameKeepsTurn, TokenKeepsTurn, TurnMayFollow};

/// A talk is the same however its bytes are cut: from any state, two pieces are what their join is, in what
/// is left, what is written, and the first fault.
#[tactic(auto, using(crate::proofs::Agreements::cut_anywhere))]
pub fn cut_anywhere()
    ensures { (ending : End) (bytes more : List ℕ) (talk : Talking)
        → feed_said (reading_from ending (bytes ++ more)) talk
        ≡ then_ (feed_said (reading_from ending bytes) talk)
        (feed_said (reading_from (reading_from ending bytes).ending more)) }
{}

/// Two publications that show each ready call the same view are answered alike; a turn on views that were all
/// seen writes nothing and changes nothing; a turn twice is a turn once.
#[tactic(auto, using(crate::proofs::Agreements::alike, crate::proofs::Agreements::again, crate::proofs::Agreements::twice))]
pub fn turns_agree()
    ensures alike { (one other : Publication) (talk : Talking) → SeeAlike one other talk.served
        → turn_said one talk ≡ turn_said other talk }
    ensures again { (publication : Publication) (talk : Talking) → IsQuiet talk
        → HaveSeen publication talk.served → turn_said publication talk ≡ silent talk }
    ensures twice { (publication : Publication) (talk : Talking)
        → turn_said publication (turn_said publication talk).after
        ≡ silent (turn_said publication talk).after }
{}

/// Which of two calls on different streams takes its turn first decides nothing, also where each takes it on a
/// publication of its own: what becomes of a call is the same on every connection, and the connection is the same
/// after both.
#[tactic(auto, using(crate::proofs::Orders::kept_alone, crate::proofs::Orders::turns_commute, crate::proofs::Orders::calls_commute))]
pub fn turns_commute()
    ensures kept { (publication : Publication) (call : ServedCall) (one other : Phase)
        → (call_turn publication call one).kept ≡ (call_turn publication call other).kept }
    ensures two { (first second : Publication) (one other : ServedCall) (phase : Phase)
        → (one.stream ≡ other.stream → ⊥)
        → (call_turn first one (call_turn second other phase).phase).phase
        ≡ (call_turn second other (call_turn first one phase).phase).phase }
    ensures first { (publication : Publication) (one other : ServedCall) (more : List ServedCall) (phase : Phase)
        → (one.stream ≡ other.stream → ⊥)
        → (calls_turn publication (other ∷ one ∷ more) phase).phase
        ≡ (calls_turn publication (one ∷ other ∷ more) phase).phase }
{}

/// A ready call that is refused on a view ends so: with status 7 exactly where it isn't a health call and its
/// caller sees no entry, or none that it asks a token for; with status 5 exactly where it is a Check of a
/// service that is not known. Else a streaming call is offered its method's message on that view, in its
/// encoding, and a health call the state of its service there.
pub fn answers_are_of_views()
    ensures refused { RefusedCallEnds }
    ensures no_identity { NoIdentityExactly }
    ensures unknown_service { UnknownServiceExactly }
    ensures message { MessageIsOfView }
    ensures health { HealthIsOfView }
{}

/// On which publications a turn may be taken: on a session of which nothing came, on any; after a turn, on
/// the same one and on each with a higher number. Bytes, names and tokens leave that as it was.
pub fn turns_may_follow()
    ensures first { FirstMayTurn }
    ensures fed { FeedKeepsTurn }
    ensures named { NameKeepsTurn }
    ensures given { TokenKeepsTurn }
    ensures turned { TurnMayFollow }
{}

/// After a turn each ready streaming call, Watch included, has its answer on its view of that publication on
/// its stream, as long as that is live: the message waits there, or began last and none waits; or none waits,
/// where the answer is to wait. So it is on each session that the calls of this type lead to.
pub fn turns_answer_all()
    ensures first { IsCompleteIn fresh_session }
    ensures fed { FeedKeepsComplete }
    ensures named { NameKeepsComplete }
    ensures given { TokenKeepsComplete }
    ensures turned { TurnAnswersAll }
{}
