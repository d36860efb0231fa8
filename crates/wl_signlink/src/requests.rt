//! The lines that ask.

ghost use Rattle.std.specs.Prelude.{◌≡◌, ◌++◌, true, false, IfOk, OnOk, OnErr};
ghost use Rattle.serde_json.specs.View.{view};
ghost use Rattle.serde_json.specs.Written.{has_float};
ghost use Rattle.wl_signlink.specs.Requests.{are_texts, is_text_ask, texts, x509_request, jwt_request, line_of, x509_line, jwt_line};

use crate::texts::text;
use serde_json::{Value, json};
use std::alloc::{AllocError, Global};
use wl_entry::Ask;
use wl_octets::{Memory, Octets};

/// The version of the lines.
const VERSION: u64 = 1;

/// A list of texts.
fn texts(alloc: Global, list: &[Octets]) -> Result<Value, AllocError>
    requires { are_texts list.now ≡ true }
    ensures { IfOk result (λ v. view v ≡ texts list.now) }
{
    let mut items = Vec::new(alloc);
    for bytes in list {
        let item = Value::try_from_str(alloc, text(bytes.as_slice()))?;
        items.push(item)?;
    }
    Ok(Value::Array(items))
}

/// The request for an identity.
#[tactic(auto, unfolding(crate::specs::Requests::x509_request))]
fn x509_request(alloc: Global, number: u64, ask: &Ask) -> Result<Value, AllocError>
    requires { is_text_ask ask.now ≡ true }
    ensures { IfOk result (λ v. view v ≡ x509_request number ask.now) }
{
    let dns_names = texts(alloc, ask.dns_names.as_slice())?;
    let entry = text(ask.entry_id.as_slice());
    let spiffe_id = text(ask.spiffe_id.as_bytes());
    json!(in alloc; {
        "dns_names": dns_names,
        "entry": entry,
        "kind": "x509",
        "number": number,
        "spiffe_id": spiffe_id,
        "ttl": ask.ttl,
        "version": VERSION
    })
}

/// The request for a token.
#[tactic(auto, unfolding(crate::specs::Requests::jwt_request))]
fn jwt_request(
    alloc: Global,
    number: u64,
    ask: &Ask,
    audience: &[Octets],
) -> Result<Value, AllocError>
    requires ask { is_text_ask ask.now ≡ true }
    requires audience { are_texts audience.now ≡ true }
    ensures { IfOk result (λ v. view v ≡ jwt_request number ask.now audience.now) }
{
    let audience = texts(alloc, audience)?;
    let entry = text(ask.entry_id.as_slice());
    let spiffe_id = text(ask.spiffe_id.as_bytes());
    json!(in alloc; {
        "audience": audience,
        "entry": entry,
        "kind": "jwt",
        "number": number,
        "spiffe_id": spiffe_id,
        "version": VERSION
    })
}

/// Appends a value as one line.
#[tactic(auto, unfolding(crate::specs::Requests::line_of))]
fn put_line(alloc: Global, request: &Value, out: &mut Octets) -> Result<(), Memory>
    requires { has_float (view request.now) ≡ false }
    ensures ok { OnOk result (out.new ≡ out.old ++ line_of (view request.now)) }
    ensures err { OnErr result (out.new ≡ out.old) }
{
    let mut line = request.to_vec(alloc)?;
    line.push(b'\n')?;
    out.push_slice(line.as_slice())
}

/// Appends the line that asks for an identity, as the ask with this number. When memory runs out nothing changes.
pub fn put_x509(alloc: Global, number: u64, ask: &Ask, out: &mut Octets) -> Result<(), Memory>
    requires { is_text_ask ask.now ≡ true }
    ensures ok { OnOk result (out.new ≡ out.old ++ x509_line number ask.now) }
    ensures err { OnErr result (out.new ≡ out.old) }
{
    let request = x509_request(alloc, number, ask)?;
    put_line(alloc, &request, out)
}

/// Appends the line that asks for a token for these audiences, as the ask with this number. When memory runs out
/// nothing changes.
pub fn put_jwt(
    alloc: Global,
    number: u64,
    ask: &Ask,
    audience: &[Octets],
    out: &mut Octets,
) -> Result<(), Memory>
    requires ask { is_text_ask ask.now ≡ true }
    requires audience { are_texts audience.now ≡ true }
    ensures ok { OnOk result (out.new ≡ out.old ++ jwt_line number ask.now audience.now) }
    ensures err { OnErr result (out.new ≡ out.old) }
{
    let request = jwt_request(alloc, number, ask, audience)?;
    put_line(alloc, &request, out)
}
