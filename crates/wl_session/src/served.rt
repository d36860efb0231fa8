//! Ready calls.

ghost use Rattle.std.specs.Prelude.{◌≡◌, ◌<◌, ◌∷◌, ◌++◌, [], nat_lt, length, take, drop, insert, position, IfOk};
ghost use Rattle.wl_session.specs.Answering.{kept_of};
ghost use Rattle.wl_session.specs.Talks.{with_served, others};
ghost use Rattle.wl_session.specs.Kinds.{kind_of, plain_kind};
ghost use Rattle.wl_session.specs.declared.served.CallKind.TheVariants.{Stream};

use crate::asks::JwtAsk;
use crate::queue::Queue;
use grpc_conn::Request;
use grpc_wire::Method;
use spiffe_id::SpiffeId;
use wl_octets::{Memory, Octets, Row, Shared};
use wl_selector::Selectors;
use wl_snapshot::{Method3, View};
use workload_proto::JwtItem;

/// What a ready call asks for.
#[derive(Drop)]
pub enum CallKind {
    /// A stream of messages of the Workload API.
    Stream(Method3),
    /// A token for these audiences for each entry, or for each of the id that is named.
    Tokens {
        audience: Row<Octets>,
        id: Option<SpiffeId>,
    },
    /// The health of a service, once.
    Check {
        service: Octets,
    },
    /// The health of a service, whenever it changes.
    Watch {
        service: Octets,
    },
}

impl CallKind {
    /// What a request asks for.
    #[tactic(auto, unfolding(crate::specs::Kinds::kind_of))]
    pub fn new(method: Method, request: Request) -> CallKind
        ensures { result ≡ kind_of method request }
    {
        match request {
            Request::Plain => CallKind::Stream(plain_method(method)),
            Request::Jwt { audience, id } => CallKind::Tokens { audience, id },
            Request::Health(service) => match method {
                Method::HealthCheck => CallKind::Check { service },
                _ => CallKind::Watch { service },
            },
        }
    }
}

/// The streaming method of a request without known fields.
fn plain_method(method: Method) -> Method3
    ensures { plain_kind method ≡ Stream result }
{
    match method {
        Method::X509Bundles => Method3::X509Bundles,
        Method::JwtBundles => Method3::JwtBundles,
        _ => Method3::X509Svid,
    }
}

/// How far a ready call is.
#[derive(Drop)]
pub enum Stage {
    /// It was not attested yet.
    Unnamed(CallKind),
    /// It is answered at turns: with its selectors, the view that answered it last, and whether its response head was given.
    Ready {
        kind: CallKind,
        selectors: Selectors,
        seen: Option<Shared<View>>,
        headed: bool,
    },
    /// It waits for tokens: for the first one, then for the rest, with those that came.
    Asking {
        first: JwtAsk,
        rest: Queue,
        got: Row<JwtItem>,
    },
}

/// A ready call on its stream.
#[derive(Drop)]
pub struct ServedCall {
    pub stream: u32,
    pub stage: Stage,
}

/// The place of the first call on a higher stream.
fn place_above(served: &[ServedCall], stream: u32) -> Option<usize>
    ensures { result ≡ position (λ d. nat_lt stream d.stream) served.now }
{
    served.iter().position(|other| stream < other.stream)
}

fn insert_at(
    mut served: Vec<ServedCall>,
    place: usize,
    call: ServedCall,
) -> Result<Row<ServedCall>, Memory>
    requires { place < length served.items }
    ensures { IfOk result (λ r. r ≡ insert served.items place call) }
{
    served.insert(place, call)?;
    Ok(Row::from_vec(served))
}

fn push_last(mut served: Vec<ServedCall>, call: ServedCall) -> Result<Row<ServedCall>, Memory>
    ensures { IfOk result (λ r. r ≡ served.items ++ call ∷ []) }
{
    served.push(call)?;
    Ok(Row::from_vec(served))
}

/// One more ready call, by ascending stream.
#[tactic(auto, using(crate::proofs::ReadyCalls::served_here, crate::proofs::ReadyCalls::served_last))]
pub fn with_served(served: Row<ServedCall>, call: ServedCall) -> Result<Row<ServedCall>, Memory>
    ensures { IfOk result (λ r. r ≡ with_served call served) }
{
    let served = served.into_vec();
    match place_above(served.as_slice(), call.stream) {
        Some(place) => insert_at(served, place, call),
        None => push_last(served, call),
    }
}

/// The ready calls on other streams.
pub fn others(served: Row<ServedCall>, stream: u32) -> Row<ServedCall>
    ensures { result ≡ others stream served }
{
    let mut served = served.into_vec();
    served.retain(|call| call.stream != stream);
    Row::from_vec(served)
}

/// The calls before this place, the call there, and those after it.
#[derive(Drop)]
pub struct Parted {
    pub front: Vec<ServedCall>,
    pub call: ServedCall,
    pub behind: Vec<ServedCall>,
}

/// Takes out the call at this place.
pub fn part_at(mut served: Vec<ServedCall>, place: usize) -> Result<Parted, Memory>
    requires { place < length served.items }
    ensures prefix { IfOk result (λ p. p.front.items ≡ take place served.items) }
    ensures there { IfOk result (λ p. drop place served.items ≡ p.call ∷ p.behind.items) }
{
    let mut behind = served.split_off(place)?;
    let call = behind.remove(0);
    Ok(Parted {
        front: served,
        call,
        behind,
    })
}

/// The calls in front, what became of one, and those after it.
pub fn join_at(
    mut front: Vec<ServedCall>,
    stream: u32,
    kept: Option<Stage>,
    mut behind: Vec<ServedCall>,
) -> Result<Row<ServedCall>, Memory>
    ensures { IfOk result (λ r. r ≡ front.items ++ (kept_of stream kept ++ behind.items)) }
{
    match kept {
        Some(stage) => front.push(ServedCall { stream, stage })?,
        None => {}
    }
    front.append(&mut behind)?;
    Ok(Row::from_vec(front))
}
