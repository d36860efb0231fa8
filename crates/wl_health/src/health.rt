//! The state of a service.

ghost use Rattle.std.specs.Prelude.{◌≡◌, ◌≤◌};
ghost use Rattle.wl_health.specs.Health.{state_of};
ghost use Rattle.wl_health.specs.declared.health.TheConstants.{SERVING, SERVICE_UNKNOWN};

/// `SERVING` (grpc.health.v1, `ServingStatus`).
pub const SERVING: u32 = 1;

/// `NOT_SERVING`.
pub const NOT_SERVING: u32 = 2;

/// `SERVICE_UNKNOWN`.
pub const SERVICE_UNKNOWN: u32 = 3;

/// The name of the service that the Workload API is (own rule).
const WORKLOAD_API: &[u8] = b"SpiffeWorkloadAPI";

/// The state of a service, for a caller whose view is empty and whole as said: [`SERVING`], [`NOT_SERVING`] or
/// [`SERVICE_UNKNOWN`].
pub fn state(service: &[u8], empty: bool, whole: bool) -> u32
    ensures value { result ≡ state_of service.now empty whole }
    ensures least { SERVING ≤ result }
    ensures most { result ≤ SERVICE_UNKNOWN }
{
    if service.is_empty() {
        SERVING
    } else if service != WORKLOAD_API {
        SERVICE_UNKNOWN
    } else if !empty && whole {
        SERVING
    } else {
        NOT_SERVING
    }
}
