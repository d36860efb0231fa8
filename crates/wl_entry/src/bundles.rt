//! Bundles of trust domains.

ghost use Rattle.std.specs.Prelude.{◌≡◌, IfOk};

use spiffe_id::TrustDomain;
use std::alloc::Global;
use wl_octets::{Memory, Octets, TryClone};

/// What a trust domain is verified by. An empty part is absent.
#[derive(PartialEq, Drop)]
pub struct Bundle {
    pub domain: TrustDomain,
    /// Certificates, one after the other in DER.
    pub x509: Octets,
    /// A JWK set.
    pub jwks: Octets,
}

impl Bundle {
    /// A copy of the bundle.
    pub fn copy(&self, alloc: Global) -> Result<Bundle, Memory>
        ensures { IfOk result (λ b. b ≡ self.now) }
    {
        Ok(Bundle {
            domain: self.domain.copy(alloc)?,
            x509: self.x509.copy(alloc)?,
            jwks: self.jwks.copy(alloc)?,
        })
    }
}

impl TryClone for Bundle {
    fn try_clone(&self, alloc: Global) -> Result<Bundle, Memory> {
        self.copy(alloc)
    }
}
