//! What the words ask for.

use bundle_files::BundleKind;
use wl_octets::{Octets, Row};

/// How certificates are written.
#[derive(Clone, Copy, Debug, Drop, PartialEq, Eq)]
pub enum Form {
    /// A line each, with bytes in hexadecimal.
    Lines,
    /// PEM.
    Pem,
    /// An object of JSON for each message.
    Json,
}

/// How tokens and the bundles of tokens are written.
#[derive(Clone, Copy, Debug, Drop, PartialEq, Eq)]
pub enum TokenForm {
    /// A line each.
    Lines,
    /// An object of JSON for each message.
    Json,
}

/// What an option chooses.
#[derive(Drop)]
pub enum Choice {
    /// `--pem`.
    Pem,
    /// `--json`.
    Json,
    /// `--decode`.
    Decode,
    /// `--id ID`, `--id=ID`.
    Id(Octets),
}

/// What is asked of FetchJWTSVID, and how the tokens are written.
#[derive(Drop)]
pub struct TokenAsk {
    /// For whom the tokens are.
    pub audiences: Row<Octets>,
    /// The SPIFFE ID of which a token is wanted, where it is only one.
    pub id: Option<Octets>,
    pub form: TokenForm,
    /// Whether what a token says is written too.
    pub is_decoded: bool,
}

/// What is asked for.
#[derive(Drop)]
pub enum Request {
    /// One message of FetchX509SVID.
    FetchX509(Form),
    /// One message of FetchX509Bundles.
    FetchBundles(Form),
    /// The message of FetchJWTSVID.
    FetchJwt(TokenAsk),
    /// One message of FetchJWTBundles.
    FetchJwtBundles(TokenForm),
    /// So many messages of FetchX509SVID.
    Watch(u32),
    /// So many messages of FetchX509SVID, each as a frame of gRPC. No words ask for it.
    Keep(u32),
    /// One message of FetchX509Bundles or FetchJWTBundles, as a frame of gRPC. No words ask for it.
    KeepBundles(BundleKind),
    /// The message of Check for this service.
    Health(Octets),
    /// So many messages of Watch for the empty service.
    HealthWatch(u32),
}
