//! What holds of the definitions alone.

ghost use Rattle.std.specs.Prelude.{◌≡◌, ◌++◌, ℕ, Bool, List, true, false};
ghost use Rattle.wl_octets.specs.declared.header.Header.{Header};
ghost use Rattle.grpc_conn.specs.Verdicts.{verdict, is_decided_event};

/// A verdict on a prefix of a body that goes on is the verdict on the whole of it, whatever follows and however the
/// request ends.
#[tactic(auto, using(crate::proofs::Histories::verdicts_stay))]
pub fn verdicts_stay()
    ensures { (headers : List Header) (fed more : List ℕ) (ended : Bool)
        → is_decided_event (verdict headers fed false) ≡ true
        → verdict headers (fed ++ more) ended ≡ verdict headers fed false }
{}
