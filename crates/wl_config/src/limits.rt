//! The limits of a configuration, and the values of members that are absent.

/// How many bytes a configuration has at most.
pub const CONFIG_LIMIT: usize = 1_048_576;
/// How many sockets there are at most, one for each uid counted.
pub const MAX_SOCKETS: usize = 4_096;
/// How many items the array of sockets has at most.
pub const MAX_SOCKET_ITEMS: usize = 1_024;
/// How many selectors `selectors` of a socket has at most, repeats counted.
pub const MAX_SOCKET_SELECTORS: usize = 256;
/// How many connections a socket serves at once at most, and at a loopback address one uid.
pub const MAX_CONNECTIONS: u32 = 16_384;
/// The same where the socket does not say.
pub const DEFAULT_CONNECTIONS: u32 = 64;
/// How many connections are open over all sockets at most, whatever the sockets say.
pub const MAX_ALL_CONNECTIONS: u32 = 65_536;
/// The greatest number of a user or a group: all bits set stand for "unchanged" (chown of POSIX).
pub const MAX_ID: u32 = 4_294_967_294;
/// The mode of a socket's file where it does not say: read and write for its owner.
pub const DEFAULT_MODE: u32 = 0o600;
/// How many seconds lie between two rounds of upkeep at most: an hour.
pub const MAX_POLL_SECONDS: u32 = 3_600;
/// The same where the configuration does not say.
pub const DEFAULT_POLL_SECONDS: u32 = 5;
/// How many asks of the signer are under way at once at most.
pub const MAX_SIGNERS: u32 = 16;
/// The same where the configuration does not say.
pub const DEFAULT_SIGNERS: u32 = 4;
/// How many threads serve the sockets at most.
pub const MAX_THREADS: u32 = 16;
/// The same where the configuration does not say.
pub const DEFAULT_THREADS: u32 = 2;
/// For how many seconds a connection may stall, or stay without a call, at most: an hour.
pub const MAX_LIMIT_SECONDS: u32 = 3_600;
/// For how many seconds a connection may take none of the bytes that wait for it, where the configuration does not say.
pub const DEFAULT_STALL_SECONDS: u32 = 30;
/// For how many seconds a connection may stay without a call, where the configuration does not say.
pub const DEFAULT_OPENING_SECONDS: u32 = 20;
/// How many MiB the connections of one thread hold together at least, as a limit: some responses of the greatest length.
pub const MIN_MEMORY_MIB: u32 = 16;
/// The same at most: 64 GiB.
pub const MAX_MEMORY_MIB: u32 = 65_536;
/// The same where the configuration does not say.
pub const DEFAULT_MEMORY_MIB: u32 = 256;
