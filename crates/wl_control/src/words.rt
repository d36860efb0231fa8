//! The words of the client program.

ghost use Rattle.std.specs.Prelude.{◌≡◌, ◌⊎◌, ◌++◌, ◌∷◌, [], map, option_map, string_bytes, Some, None, IfOk, IfErr, IfSome};
ghost use Rattle.std.specs.List.{list_all};
ghost use Rattle.clap.specs.Words.{kind_of};
ghost use Rattle.clap.specs.declared.error.ErrorKind.TheVariants.{OutOfMemory};
ghost use Rattle.wl_control.specs.declared.request.Request.TheVariants.{Watch, HealthWatch};
ghost use Rattle.wl_control.specs.Words.{count_in, is_audience, jwt_of, fetch_of, count_of, watch_of, health_of, request_by, command_of, request_of, IsFit};

use crate::choices::read_choices;
use crate::options::with_choices;
use crate::request::{Form, Request, TokenAsk, TokenForm};
use clap::Error;
use clap::error::ErrorKind;
use control_words::read;
use decimal_text::number_up_to;
use std::alloc::Global;
use std::string::String;
use wl_octets::{Memory, Octets, Row};

/// How many messages may be watched for.
pub(crate) const MAX_COUNT: u32 = 1_000;

/// How many messages a watch without an end asks for.
const ENDLESS: u32 = 4_294_967_295;

/// How many audiences a token may have.
const MAX_AUDIENCES: usize = 64;

/// How many bytes an audience or a service may have.
const MAX_WORD_LEN: usize = 200;

/// A count of messages, from 1 to 1,000: an optional `+` and digits.
fn count_in(word: &[u8]) -> Option<u32>
    ensures { result ≡ count_in word.now }
{
    let digits = match word {
        [b'+', after @ ..] => after,
        _ => word,
    };
    match number_up_to(u64::from(MAX_COUNT), digits) {
        Some(0) | None => None,
        Some(count) => Some(count as u32),
    }
}

fn is_audience(word: &Octets) -> bool
    ensures { result ≡ is_audience word.now }
{
    word.len() >= 1 && word.len() <= MAX_WORD_LEN
}

fn are_audiences(words: &[Octets]) -> bool
    ensures { result ≡ list_all is_audience words.now }
{
    words.iter().all(|word| is_audience(word))
}

/// `fetch jwt AUDIENCE..`, with these audiences.
fn jwt_of(words: Row<Octets>) -> Option<Request>
    ensures value { result ≡ jwt_of words }
    ensures fit { IfSome result IsFit }
{
    if words.len() >= 1 && words.len() <= MAX_AUDIENCES && are_audiences(words.as_slice()) {
        Some(Request::FetchJwt(TokenAsk {
            audiences: words,
            id: None,
            form: TokenForm::Lines,
            is_decoded: false,
        }))
    } else {
        None
    }
}

/// `fetch`, with these words after it.
fn fetch_of(mut words: Row<Octets>) -> Option<Request>
    ensures value { result ≡ fetch_of words }
    ensures fit { IfSome result IsFit }
{
    if words.len() == 0 {
        return None;
    }
    let kind = words.remove(0);
    if kind.as_slice() == b"x509".as_slice() {
        return if words.len() == 0 {
            Some(Request::FetchX509(Form::Lines))
        } else {
            None
        };
    }
    if kind.as_slice() == b"bundles".as_slice() {
        return if words.len() == 0 {
            Some(Request::FetchBundles(Form::Lines))
        } else {
            None
        };
    }
    if kind.as_slice() == b"jwt".as_slice() {
        return jwt_of(words);
    }
    if kind.as_slice() == b"jwt-bundles".as_slice() {
        return if words.len() == 0 {
            Some(Request::FetchJwtBundles(TokenForm::Lines))
        } else {
            None
        };
    }
    None
}

/// The count that is the one word.
fn one_count(words: &[Octets]) -> Option<u32>
    ensures watch { count_of Watch words.now ≡ option_map Watch result }
    ensures health { count_of HealthWatch words.now ≡ option_map HealthWatch result }
{
    match words {
        [word] => count_in(word.as_slice()),
        _ => None,
    }
}

/// `watch`, with these words after it.
fn watch_of(words: &[Octets]) -> Option<Request>
    ensures value { result ≡ watch_of words.now }
    ensures fit { IfSome result IsFit }
{
    if words.is_empty() {
        return Some(Request::Watch(ENDLESS));
    }
    match one_count(words) {
        Some(count) => Some(Request::Watch(count)),
        None => None,
    }
}

/// `health`, with these words after it.
fn health_of(alloc: Global, mut words: Row<Octets>) -> Option<Request>
    ensures value { result ≡ health_of words }
    ensures fit { IfSome result IsFit }
{
    match words.len() {
        0 => Some(Request::Health(Octets::empty(alloc))),
        1 => {
            let service = words.remove(0);
            if service.len() <= MAX_WORD_LEN {
                Some(Request::Health(service))
            } else {
                None
            }
        }
        _ => None,
    }
}

fn request_by(alloc: Global, command: &[u8], words: Row<Octets>) -> Option<Request>
    ensures value { result ≡ request_by command.now words }
    ensures fit { IfSome result IsFit }
{
    if command == b"fetch".as_slice() {
        return fetch_of(words);
    }
    if command == b"watch".as_slice() {
        return watch_of(words.as_slice());
    }
    if command == b"health".as_slice() {
        return health_of(alloc, words);
    }
    if command == b"health-watch".as_slice() {
        return match one_count(words.as_slice()) {
            Some(count) => Some(Request::HealthWatch(count)),
            None => None,
        };
    }
    None
}

/// These words.
fn row_of(alloc: Global, words: &[&str]) -> Result<Row<Octets>, Memory>
    ensures { IfOk result (λ row. row ≡ map (λ w. w.now) words.now) }
{
    let mut row = Row::empty(alloc);
    for word in words {
        row.push(Octets::from_slice(alloc, word.as_bytes())?)?;
    }
    Ok(row)
}

/// Why the words ask for nothing.
#[derive(Drop)]
pub(crate) enum NoRequest {
    Memory,
    /// They fit nothing: why clap refuses them, where it does.
    Unfit(Option<Error>),
}

/// What an error of clap says of the words.
fn no_request(error: Error) -> NoRequest
    ensures { kind_of error ≡ OutOfMemory → result ≡ NoRequest.Memory }
{
    if error.kind() == ErrorKind::OutOfMemory {
        NoRequest::Memory
    } else {
        NoRequest::Unfit(Some(error))
    }
}

/// What these words ask for, among which are no options, where they fit something.
fn read_command(alloc: Global, words: &[String]) -> Result<Request, NoRequest>
    ensures value { IfOk result (λ q. command_of (map string_bytes words.now) ≡ Some q) }
    ensures fit { IfOk result IsFit }
    ensures unfit { IfErr result (λ e. (e ≡ NoRequest.Memory) ⊎ (command_of (map string_bytes words.now) ≡ None)) }
{
    let request = match read(alloc, words) {
        Ok(request) => request,
        Err(error) => return Err(no_request(error)),
    };
    let operands = match row_of(alloc, request.operands.as_slice()) {
        Ok(operands) => operands,
        Err(Memory) => return Err(NoRequest::Memory),
    };
    match request_by(alloc, request.name.as_bytes(), operands) {
        Some(request) => Ok(request),
        None => Err(NoRequest::Unfit(None)),
    }
}

/// What these words ask for, where they fit something.
pub(crate) fn read_request(alloc: Global, words: &[String]) -> Result<Request, NoRequest>
    ensures value { IfOk result (λ q. request_of (map string_bytes words.now) ≡ Some q) }
    ensures fit { IfOk result IsFit }
    ensures unfit { IfErr result (λ e. (e ≡ NoRequest.Memory) ⊎ (request_of (map string_bytes words.now) ≡ None)) }
{
    let chosen = match read_choices(alloc, words) {
        Ok(chosen) => chosen,
        Err(Memory) => return Err(NoRequest::Memory),
    };
    let command = match read_command(alloc, chosen.others.as_slice()) {
        Ok(command) => command,
        Err(refused) => return Err(refused),
    };
    match with_choices(alloc, chosen.choices.as_slice(), command) {
        Ok(Some(request)) => Ok(request),
        Ok(None) => Err(NoRequest::Unfit(None)),
        Err(Memory) => Err(NoRequest::Memory),
    }
}

/// What is wrong with words whose command and number of operands fit.
const OPERAND_FAULT: &str =
    "error: fetch is for x509, for bundles, for jwt-bundles, or for jwt and 1 to 64 audiences of at most 200 bytes; \
--pem is for x509 and bundles, --json for all of fetch, and only one of them; \
--decode and --id SPIFFE-ID are for jwt, each once; \
COUNT is 1 to 1000; SERVICE has at most 200 bytes\n";

/// The options, which clap's help doesn't list.
const OPTIONS: &str = "
Options of fetch, anywhere before the first --:
  --pem            certificates and keys as PEM (x509, bundles)
  --json           the message as one JSON object on one line
  --id SPIFFE-ID   the token of this id alone (jwt)
  --decode         what each token says, its signature not verified (jwt)

Files:
  fetch x509 --write FOLDER          the files of one message, all at once
  fetch bundles --write FOLDER       DOMAIN.pem of each trust domain's X.509 bundle
  fetch jwt-bundles --write FOLDER   DOMAIN.jwks.json of each trust domain's JWT bundle
  keep FOLDER                        the files of each message of fetch x509, until wlctl is stopped
  --envoy                            after keep FOLDER and fetch x509 --write FOLDER: sds.yaml besides, for Envoy; FOLDER then begins with /

The socket comes first: its path, --socket PATH or ADDRESS, or else SPIFFE_ENDPOINT_SOCKET.
";

/// What clap says of the words. Its help is followed by the options.
fn told(alloc: Global, error: &Error) -> Result<String, Memory> {
    if error.kind() == ErrorKind::DisplayHelp {
        return Ok(format!(in alloc; "{error}{OPTIONS}")?);
    }
    Ok(format!(in alloc; "{error}")?)
}

/// Why these words fit nothing, for a person: which word is wrong, the help or the version; nothing where they fit.
pub fn refusal(alloc: Global, words: &[String]) -> Result<String, Memory> {
    match read_request(alloc, words) {
        Ok(_) => Ok(String::new(alloc)),
        Err(NoRequest::Memory) => Err(Memory),
        Err(NoRequest::Unfit(Some(error))) => told(alloc, &error),
        Err(NoRequest::Unfit(None)) => Ok(String::from_str(alloc, OPERAND_FAULT)?),
    }
}
