//! What holds of the definitions alone.

ghost use Rattle.std.specs.Prelude.{◌≡◌, ◌++◌, ℕ, List};
ghost use Rattle.wl_client.specs.Clients.{ClientState, heard_from, heard_on};

/// However a server's bytes are cut, what is heard in them and written for them is the same.
#[tactic(auto, using(crate::proofs::Cuts::heard_more))]
pub fn cut_anywhere()
    ensures { (state : ClientState) (bytes more : List ℕ) → heard_from state (bytes ++ more) ≡ heard_on (heard_from state bytes) more }
{}
