//! The methods that are served.

ghost use Rattle.std.specs.Prelude.{◌≡◌};
ghost use Rattle.grpc_wire.specs.Methods.{path_of, method_of, is_health_method};

/// A method of the SPIFFE Workload API, or of `grpc.health.v1.Health`.
#[derive(Clone, Copy, Debug, PartialEq, Eq)]
pub enum Method {
    /// FetchX509SVID.
    X509Svid,
    /// FetchX509Bundles.
    X509Bundles,
    /// FetchJWTBundles.
    JwtBundles,
    /// FetchJWTSVID.
    JwtSvid,
    /// Check.
    HealthCheck,
    /// Watch.
    HealthWatch,
}

impl Method {
    /// The value of `:path` that calls it.
    pub fn path(&self) -> &'static [u8]
        ensures { result.now ≡ path_of self.now }
    {
        match self {
            Method::X509Svid => b"/SpiffeWorkloadAPI/FetchX509SVID",
            Method::X509Bundles => b"/SpiffeWorkloadAPI/FetchX509Bundles",
            Method::JwtBundles => b"/SpiffeWorkloadAPI/FetchJWTBundles",
            Method::JwtSvid => b"/SpiffeWorkloadAPI/FetchJWTSVID",
            Method::HealthCheck => b"/grpc.health.v1.Health/Check",
            Method::HealthWatch => b"/grpc.health.v1.Health/Watch",
        }
    }

    /// The method that this path calls.
    #[tactic(auto, unfolding(crate::specs::Methods::method_of))]
    pub fn from_path(path: &[u8]) -> Option<Method>
        ensures { result ≡ method_of path.now }
    {
        [
            Method::X509Svid,
            Method::X509Bundles,
            Method::JwtBundles,
            Method::JwtSvid,
            Method::HealthCheck,
            Method::HealthWatch,
        ]
        .iter()
        .copied()
        .find(|method| method.path() == path)
    }

    /// Whether it is one of `grpc.health.v1.Health`.
    pub fn is_health(&self) -> bool
        ensures { result ≡ is_health_method self.now }
    {
        matches!(self, Method::HealthCheck | Method::HealthWatch)
    }
}
