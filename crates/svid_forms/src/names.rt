//! The names of members.

ghost use Rattle.std.specs.Prelude.{◌≡◌};
ghost use Rattle.svid_forms.specs.Json.{name_text};

/// A member's name (SPIFFE Workload API, `workload.proto`).
#[derive(Clone, Copy, Drop)]
pub(crate) enum Name {
    SpiffeId,
    X509Svid,
    X509SvidKey,
    Bundle,
    Hint,
    Svid,
    Svids,
    Bundles,
    FederatedBundles,
    /// Own rule: what a token says.
    Head,
    Claims,
    SignatureVerified,
}

/// The name as it is written.
pub(crate) fn text_of(name: Name) -> &'static [u8]
    ensures { result.now ≡ name_text name }
{
    match name {
        Name::SpiffeId => b"spiffe_id",
        Name::X509Svid => b"x509_svid",
        Name::X509SvidKey => b"x509_svid_key",
        Name::Bundle => b"bundle",
        Name::Hint => b"hint",
        Name::Svid => b"svid",
        Name::Svids => b"svids",
        Name::Bundles => b"bundles",
        Name::FederatedBundles => b"federated_bundles",
        Name::Head => b"head",
        Name::Claims => b"claims",
        Name::SignatureVerified => b"signature_verified",
    }
}
