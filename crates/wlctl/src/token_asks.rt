//! The tokens and the JWT bundle that belong to a message.

use crate::ask::{Ask, AskFault, answer_to};
use grpc_wire::Method;
use keep_log::KeepEvent;
use pb_wire::put_bytes;
use std::alloc::Global;
use std::string::String;
use token_files::{Answers, TokenAnswer, encoded, end_of, has_tokens, id_of, jwks_of};
use wl_client::{JwtItem, decode_jwt};
use wl_control::status::{CLIENT_FAULT, DENIED, OUT_OF_MEMORY, READ_FAILED, WRITE_FAILED};
use wl_edge_real::Address;
use wl_octets::{Memory, Octets, Row};
use workload_proto::field_number;

/// Why a token or the bundle can't be had.
#[derive(Clone, Copy, Drop)]
enum Why {
    /// There is no answer.
    Unanswered(AskFault),
    /// The answer has no token, or an empty one, or can't be decoded.
    NoToken,
    /// The answer has no bundle of the own trust domain, or can't be decoded.
    NoBundle,
}

/// What can't be had.
#[derive(Drop)]
pub struct Missing {
    /// The token for this audience, or else the JWT bundle.
    audience: Option<Octets>,
    why: Why,
}

/// Asks for tokens for audiences, and for the JWT bundle.
#[derive(Drop)]
pub struct TokenAsker {
    rt: HostRuntime,
    address: Address,
    audiences: Row<Octets>,
}

/// Why there is no answer, in words.
fn unanswered_text(alloc: Global, fault: AskFault) -> Result<String, Memory> {
    let text = match fault {
        AskFault::Memory => "out of memory",
        AskFault::Unreachable => "the agent can't be reached",
        AskFault::Broken => "the connection broke",
        AskFault::Denied(code) => return Ok(format!(in alloc; "the agent answered status {code}")?),
        AskFault::Faulted(fault) => {
            let number = fault.number();
            return Ok(format!(in alloc; "the answer has fault {number}")?);
        }
    };
    Ok(String::from_str(alloc, text)?)
}

fn why_text(alloc: Global, why: Why) -> Result<String, Memory> {
    match why {
        Why::Unanswered(fault) => unanswered_text(alloc, fault),
        Why::NoToken => Ok(String::from_str(alloc, "the answer has no token")?),
        Why::NoBundle => Ok(String::from_str(
            alloc,
            "the answer has no bundle of the own trust domain",
        )?),
    }
}

impl Missing {
    fn new(audience: Option<Octets>, why: Why) -> Missing {
        Missing { audience, why }
    }

    /// The status with which a program ends that can't have it.
    pub fn status(&self) -> u8 {
        match self.why {
            Why::Unanswered(AskFault::Memory) => OUT_OF_MEMORY,
            Why::Unanswered(AskFault::Unreachable) => WRITE_FAILED,
            Why::Unanswered(AskFault::Broken) => READ_FAILED,
            Why::Unanswered(AskFault::Denied(_)) => DENIED,
            Why::Unanswered(AskFault::Faulted(_)) | Why::NoToken | Why::NoBundle => CLIENT_FAULT,
        }
    }

    /// The event that says so, with the audience as in the name of a file. It is tried again after so many seconds, if it is.
    pub fn event(&self, alloc: Global, wait: Option<u64>) -> Result<KeepEvent, Memory> {
        let why = why_text(alloc, self.why)?;
        let reason = Octets::from_slice(alloc, why.as_bytes())?;
        let Some(audience) = &self.audience else {
            return Ok(KeepEvent::JwksFailed { reason, wait });
        };
        let audience = encoded(alloc, audience.as_slice())?;
        Ok(KeepEvent::TokenFailed {
            audience,
            reason,
            wait,
        })
    }
}

/// A `JWTSVIDRequest` for one audience, naming no id.
fn request_for(alloc: Global, audience: &[u8]) -> Result<Vec<u8>, Memory> {
    let mut message = Vec::new(alloc);
    put_bytes(&mut message, field_number::JWT_REQUEST_AUDIENCE, audience)?;
    Ok(message)
}

/// What memory that ran out makes missing.
fn without_memory(_: Memory) -> Missing {
    Missing::new(None, Why::Unanswered(AskFault::Memory))
}

impl TokenAsker {
    /// Tokens for these audiences from the server at this address.
    pub fn start(rt: HostRuntime, address: Address, audiences: Row<Octets>) -> TokenAsker {
        TokenAsker {
            rt,
            address,
            audiences,
        }
    }

    /// Whether there is an audience.
    pub fn is_wanted(&self) -> bool {
        self.audiences.len() > 0
    }

    /// The answer for an audience, or why there is none.
    fn answer_for(&self, audience: &Octets) -> Result<Result<TokenAnswer, Why>, Memory> {
        let alloc = self.rt.alloc();
        let request = request_for(alloc, audience.as_slice())?;
        let call = Ask {
            method: Method::JwtSvid,
            message: request.as_slice(),
            is_unary: true,
        };
        let message = match answer_to(&self.rt, &self.address, call) {
            Ok(message) => message,
            Err(fault) => return Ok(Err(Why::Unanswered(fault))),
        };
        let audience = audience.copy(alloc)?;
        let answer = TokenAnswer { audience, message };
        if has_tokens(alloc, &answer)? {
            Ok(Ok(answer))
        } else {
            Ok(Err(Why::NoToken))
        }
    }

    /// The token for an audience.
    fn token_for(&self, audience: &Octets) -> Result<TokenAnswer, Missing> {
        match self.answer_for(audience).map_err(without_memory)? {
            Ok(answer) => Ok(answer),
            Err(why) => {
                let audience = audience.copy(self.rt.alloc()).map_err(without_memory)?;
                Err(Missing::new(Some(audience), why))
            }
        }
    }

    /// An answer for each audience.
    pub fn tokens(&self) -> Result<Row<TokenAnswer>, Missing> {
        let mut tokens = Row::empty(self.rt.alloc());
        for audience in self.audiences.as_slice() {
            let answer = self.token_for(audience)?;
            if tokens.push(answer).is_err() {
                return Err(without_memory(Memory));
            }
        }
        Ok(tokens)
    }

    /// The answer of FetchJWTBundles, in which there is a bundle of the trust domain of this message's first SVID.
    pub fn bundles(&self, message: &[u8]) -> Result<Octets, Missing> {
        let alloc = self.rt.alloc();
        let id = id_of(alloc, message).map_err(without_memory)?;
        let call = Ask {
            method: Method::JwtBundles,
            message: &[],
            is_unary: false,
        };
        let bundles = match answer_to(&self.rt, &self.address, call) {
            Ok(bundles) => bundles,
            Err(fault) => return Err(Missing::new(None, Why::Unanswered(fault))),
        };
        match jwks_of(alloc, id.as_slice(), bundles.as_slice()).map_err(without_memory)? {
            Some(_) => Ok(bundles),
            None => Err(Missing::new(None, Why::NoBundle)),
        }
    }
}

/// The earlier end, of which the second may not be known: then nothing is.
fn earlier(first: Option<u64>, second: Option<u64>) -> Option<u64> {
    match (first, second) {
        (Some(first), Some(second)) => Some(first.min(second)),
        _ => None,
    }
}

fn earliest_of(alloc: Global, svids: &[JwtItem]) -> Result<Option<u64>, Memory> {
    let mut end = Some(u64::MAX);
    for svid in svids {
        end = earlier(end, end_of(alloc, svid.svid.as_slice())?);
    }
    Ok(end)
}

/// When the first of these tokens ends, in Unix seconds, by what they say; none where that isn't known of each.
pub fn earliest_end(alloc: Global, answers: &[TokenAnswer]) -> Result<Option<u64>, Memory> {
    let mut end = Some(u64::MAX);
    for answer in answers {
        if let Ok(message) = decode_jwt(alloc, answer.message.as_slice()) {
            end = earlier(end, earliest_of(alloc, message.svids.as_slice())?);
        }
    }
    Ok(end)
}
