//! What holds of the definitions alone.

ghost use Rattle.std.specs.Prelude.{◌≡◌, ◌↔◌, true};
ghost use Rattle.wl_entry.specs.Same.{same_ask, same_entry, same_bundle, same_signed, same_svid, same_token};
ghost use Rattle.wl_entry.specs.declared.asks.Ask.{Ask};
ghost use Rattle.wl_entry.specs.declared.entries.Entry.{Entry};
ghost use Rattle.wl_entry.specs.declared.bundles.Bundle.{Bundle};
ghost use Rattle.wl_entry.specs.declared.signing.Signed.{Signed};
ghost use Rattle.wl_entry.specs.declared.signing.Svid.{Svid};
ghost use Rattle.wl_entry.specs.declared.tokens.JwtToken.{JwtToken};

/// The tests of equality decide: what passes them is equal, and what is equal passes them.
#[tactic(auto, using(crate::proofs::Sames::asks_decided, crate::proofs::Sames::entries_decided, crate::proofs::Sames::bundles_decided, crate::proofs::Sames::identities_decided, crate::proofs::Sames::svids_decided, crate::proofs::Sames::tokens_decided))]
pub fn tests_decide()
    ensures asks { (a b : Ask) → (same_ask a b ≡ true) ↔ (a ≡ b) }
    ensures entries { (a b : Entry) → (same_entry a b ≡ true) ↔ (a ≡ b) }
    ensures bundles { (a b : Bundle) → (same_bundle a b ≡ true) ↔ (a ≡ b) }
    ensures identities { (a b : Signed) → (same_signed a b ≡ true) ↔ (a ≡ b) }
    ensures svids { (a b : Svid) → (same_svid a b ≡ true) ↔ (a ≡ b) }
    ensures tokens { (a b : JwtToken) → (same_token a b ≡ true) ↔ (a ≡ b) }
{}
