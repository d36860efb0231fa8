//! The field numbers of the two messages (grpc.health.v1, `health.proto`), and the tag of the one that is a varint.

/// The service of a `HealthCheckRequest`.
pub const REQUEST_SERVICE: u32 = 1;

/// The status of a `HealthCheckResponse`.
pub const RESPONSE_STATUS: u32 = 1;

/// The field [`RESPONSE_STATUS`] with the wire type of a varint, which is 0.
pub const RESPONSE_STATUS_TAG: u64 = 8;
