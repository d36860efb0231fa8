//! Which bundles.

ghost use Rattle.std.specs.Prelude.{◌≡◌};
ghost use Rattle.bundle_files.specs.Files.{ending_of};

/// Which bundles of a caller.
#[derive(Clone, Copy, Debug, Drop, PartialEq, Eq)]
pub enum BundleKind {
    /// X.509 bundles, of an `X509BundlesResponse`.
    X509,
    /// JWT bundles, of a `JWTBundlesResponse`.
    Jwt,
}

impl BundleKind {
    /// How the name of a bundle's file ends.
    #[tactic(auto, unfolding(crate::specs::Files::ending_of))]
    pub(crate) fn ending(self) -> &'static [u8]
        ensures { result.now ≡ ending_of self }
    {
        match self {
            BundleKind::X509 => b".pem",
            BundleKind::Jwt => b".jwks.json",
        }
    }
}
