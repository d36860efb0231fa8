//! Which signed identities and tokens are vouched for.

/// Two relations that generic code keeps, and no call: what a signer answered is vouched for what it
/// was asked.
pub trait Voucher {
    ghost use Rattle.std.specs.Prelude.{List, ℕ};
    ghost use Rattle.wl_entry.specs.declared.asks.Ask.{Ask};
    ghost use Rattle.wl_entry.specs.declared.signing.Signed.{Signed};
    ghost use Rattle.wl_entry.specs.declared.tokens.JwtToken.{JwtToken};

    /// The identity is vouched for the ask.
    ghost signed: { Ask → Signed → Type 0 };

    /// The token is vouched for the ask and the audiences, which are sorted, each once.
    ghost token: { Ask → List (List ℕ) → JwtToken → Type 0 };
}

/// The voucher by which everything is vouched for.
#[derive(Clone, Copy, Debug, PartialEq, Eq)]
pub struct Free;

impl Voucher for Free {
    ghost signed = { λ ask signed. Unit {0} };

    ghost token = { λ ask audiences token. Unit {0} };
}
