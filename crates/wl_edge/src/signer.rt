//! Who signs identities and tokens.

ghost use Rattle.std.specs.Prelude.{ℕ, List, Option, IfOk};
ghost use Rattle.wl_selector.specs.Selectors.{sorted_texts};
ghost use Rattle.wl_edge.specs.Calls.{Answers};
ghost use Rattle.wl_edge.specs.declared.signer.SignerCall.{SignerCall};

use crate::fault::EdgeFault;
use wl_entry::{Ask, JwtToken, Signed, Voucher};
use wl_octets::{Octets, Row};

/// One call of a signer with its answer, which is none where the call failed.
#[derive(Drop, PartialEq)]
pub enum SignerCall {
    /// An identity was asked for.
    X509(Ask, Option<Signed>),
    /// A token for these audiences was asked for.
    Jwt(Ask, Row<Octets>, Option<JwtToken>),
}

/// Signs identities and tokens.
pub trait Signer {
    /// By which its answers are vouched for what was asked.
    type V: Voucher + Send + Sync;

    /// Its calls, where it tells them.
    ghost calls: { Self → Option (List SignerCall) };

    /// How often a call has failed. It never falls; at 2^64-1 it stays.
    ghost faults: { Self → ℕ };

    /// An identity for the ask.
    fn sign_x509(&mut self, ask: &Ask) -> Result<Signed, EdgeFault>
        ensures told { Answers (calls self.old) (calls self.new) (faults self.old) (faults self.new)
            (SignerCall.X509 ask.now) result }
        ensures vouched { IfOk result (Self.V.signed ask.now) };

    /// A token for the ask and these audiences. It is vouched for the audiences in order, each once.
    fn sign_jwt(&mut self, ask: &Ask, audience: &[Octets]) -> Result<JwtToken, EdgeFault>
        ensures told { Answers (calls self.old) (calls self.new) (faults self.old) (faults self.new)
            (SignerCall.Jwt ask.now audience.now) result }
        ensures vouched { IfOk result (Self.V.token ask.now (sorted_texts audience.now)) };
}
