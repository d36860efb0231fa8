//! What the options make of a request.

ghost use Rattle.std.specs.Prelude.{◌≡◌, IfOk, IfSome};
ghost use Rattle.wl_control.specs.Words.{in_pem, as_json, in_json, decoded, is_id, of_id, with_choice, with_choices, IsFit};

use crate::request::{Choice, Form, Request, TokenAsk, TokenForm};
use spiffe_id::{IdFault, SpiffeId};
use std::alloc::Global;
use wl_octets::{Memory, Octets};

fn in_pem(request: Request) -> Option<Request>
    ensures value { result ≡ in_pem request }
    ensures fit { IfSome result IsFit }
{
    match request {
        Request::FetchX509(Form::Lines) => Some(Request::FetchX509(Form::Pem)),
        Request::FetchBundles(Form::Lines) => Some(Request::FetchBundles(Form::Pem)),
        _ => None,
    }
}

fn as_json(form: TokenForm) -> Option<TokenForm>
    ensures { result ≡ as_json form }
{
    match form {
        TokenForm::Lines => Some(TokenForm::Json),
        TokenForm::Json => None,
    }
}

fn in_json(request: Request) -> Option<Request>
    requires { IsFit request }
    ensures value { result ≡ in_json request }
    ensures fit { IfSome result IsFit }
{
    match request {
        Request::FetchX509(Form::Lines) => Some(Request::FetchX509(Form::Json)),
        Request::FetchBundles(Form::Lines) => Some(Request::FetchBundles(Form::Json)),
        Request::FetchJwt(ask) => {
            let form = as_json(ask.form)?;
            Some(Request::FetchJwt(TokenAsk { form, ..ask }))
        }
        Request::FetchJwtBundles(form) => Some(Request::FetchJwtBundles(as_json(form)?)),
        _ => None,
    }
}

fn decoded(request: Request) -> Option<Request>
    requires { IsFit request }
    ensures value { result ≡ decoded request }
    ensures fit { IfSome result IsFit }
{
    match request {
        Request::FetchJwt(ask) => {
            if ask.is_decoded {
                return None;
            }
            Some(Request::FetchJwt(TokenAsk {
                is_decoded: true,
                ..ask
            }))
        }
        _ => None,
    }
}

/// Whether a word is a SPIFFE ID.
fn is_id(alloc: Global, word: &[u8]) -> Result<bool, Memory>
    ensures { IfOk result (λ is. is ≡ is_id word.now) }
{
    match SpiffeId::parse(alloc, word) {
        Ok(_) => Ok(true),
        Err(IdFault::Memory) => Err(Memory),
        Err(_) => Ok(false),
    }
}

#[tactic(auto, using(crate::proofs::Ids::id_most))]
fn of_id(alloc: Global, word: &Octets, request: Request) -> Result<Option<Request>, Memory>
    requires { IsFit request }
    ensures value { IfOk result (λ q. q ≡ of_id word.now request) }
    ensures fit { IfOk result (λ q. IfSome q IsFit) }
{
    let Request::FetchJwt(ask) = request else {
        return Ok(None);
    };
    if ask.id.is_some() || !is_id(alloc, word.as_slice())? {
        return Ok(None);
    }
    let id = Some(word.copy(alloc)?);
    Ok(Some(Request::FetchJwt(TokenAsk { id, ..ask })))
}

/// The request with this choice, where it has that.
fn with_choice(alloc: Global, choice: &Choice, request: Request) -> Result<Option<Request>, Memory>
    requires { IsFit request }
    ensures value { IfOk result (λ q. q ≡ with_choice choice.now request) }
    ensures fit { IfOk result (λ q. IfSome q IsFit) }
{
    match choice {
        Choice::Pem => Ok(in_pem(request)),
        Choice::Json => Ok(in_json(request)),
        Choice::Decode => Ok(decoded(request)),
        Choice::Id(word) => of_id(alloc, word, request),
    }
}

/// The request with all of these choices, where it has them.
pub(crate) fn with_choices(
    alloc: Global,
    choices: &[Choice],
    mut request: Request,
) -> Result<Option<Request>, Memory>
    requires { IsFit request }
    ensures value { IfOk result (λ q. q ≡ with_choices choices.now request) }
    ensures fit { IfOk result (λ q. IfSome q IsFit) }
{
    let mut rest = choices;
    'choices: while let Some((choice, after)) = rest.split_first() {
        match with_choice(alloc, choice, request)? {
            Some(next) => request = next,
            None => return Ok(None),
        }
        rest = after;
    }
    Ok(Some(request))
}
