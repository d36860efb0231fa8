//! The lines that are written.

ghost use Rattle.std.specs.Prelude.{◌≡◌, ◌++◌, ◌<◌, ◌^◌, length, codes, Ok, Err, IfOk, OnOk, MatchResult};
ghost use Rattle.std.specs.Fmt.{decimal};
ghost use Rattle.std.specs.List.{flat_map};
ghost use Rattle.wl_client.specs.Messages.{x509_of, bundles_of, jwt_of, jwt_bundles_of, state_of};
ghost use Rattle.workload_proto.specs.declared.field_number.TheConstants.{X509_SVID_CHAIN, MAP_ITEM_VALUE};
ghost use Rattle.grpc_wire.specs.Messages.{framed};
ghost use Rattle.svid_forms.specs.Json.{x509_json, bundles_json, jwt_json, jwt_bundles_json};
ghost use Rattle.wl_control.specs.Escapes.{hex};
ghost use Rattle.wl_control.specs.Lines.{line_end, svid_line, svid_lines, bundle_line, bundle_lines, jwt_start, jwt_line, jwt_lines, jwt_bundle_lines, state_line, status_line, fault_line, svids_are_whole, svids_pem, bundles_are_whole, bundles_pem, may_be_kept, may_bundles_be_kept, lines_of, lines_by, whole_by};
ghost use Rattle.bundle_files.specs.declared.kind.BundleKind.TheVariants as bundle_kinds;
ghost use Rattle.wl_client.specs.declared.response.BundlesResponse.{BundlesResponse};
ghost use Rattle.wl_client.specs.declared.response.JwtBundlesResponse.{JwtBundlesResponse};
ghost use Rattle.wl_control.specs.Takings.{Writes};

use crate::asked::Kind;
use crate::decoded::{put_decoded_lines, put_decoded_object};
use crate::escapes::{put_escaped, put_hex};
use crate::request::{Form, TokenForm};
use bundle_files::{BundleKind, have_files};
use grpc_wire::put_message;
use std::alloc::Global;
use std::string::ToString;
use svid_files::has_files;
use svid_forms::{
    are_bundles_whole, are_svids_whole, put_bundles_json, put_bundles_pem, put_jwt_bundles_json,
    put_jwt_json, put_svids_pem, put_x509_json,
};
use wl_client::{
    ClientFault, JwtItem, MapItem, X509Item, X509Response, decode_bundles, decode_jwt,
    decode_jwt_bundles, decode_state, decode_x509,
};
use wl_octets::{Memory, Octets};
use workload_proto::{ProtoFault, field_number};

/// How many lengths four bytes have.
const LENGTHS: usize = 4_294_967_296;

/// A number in decimal.
fn put_decimal(out: &mut Vec<u8>, number: u32) -> Result<(), Memory>
    ensures { OnOk result (out.new.items ≡ out.old.items ++ decimal number) }
{
    let text = number.to_string(*out.allocator())?;
    out.extend_from_slice(text.as_bytes())?;
    Ok(())
}

/// A name and the hexadecimal of these bytes.
fn put_part(out: &mut Vec<u8>, name: &[u8], bytes: &[u8]) -> Result<(), Memory>
    ensures { OnOk result (out.new.items ≡ out.old.items ++ name.now ++ hex bytes.now) }
{
    out.extend_from_slice(name)?;
    put_hex(out, bytes)?;
    Ok(())
}

#[tactic(auto, unfolding(crate::specs::Lines::svid_line))]
fn put_svid(out: &mut Vec<u8>, svid: &X509Item) -> Result<(), Memory>
    ensures { OnOk result (out.new.items ≡ out.old.items ++ svid_line svid.now) }
{
    out.extend_from_slice(b"svid ")?;
    put_escaped(out, svid.spiffe_id.as_slice())?;
    put_part(out, b" chain=", svid.chain.as_slice())?;
    put_part(out, b" key=", svid.key.as_slice())?;
    put_part(out, b" bundle=", svid.bundle.as_slice())?;
    put_part(out, b" hint=", svid.hint.as_slice())?;
    out.push(b'\n')?;
    Ok(())
}

fn put_svids(out: &mut Vec<u8>, svids: &[X509Item]) -> Result<(), Memory>
    ensures { OnOk result (out.new.items ≡ out.old.items ++ flat_map svid_line svids.now) }
{
    for svid in svids {
        put_svid(out, svid)?;
    }
    Ok(())
}

#[tactic(auto, unfolding(crate::specs::Lines::bundle_line))]
fn put_bundle(out: &mut Vec<u8>, bundle: &MapItem) -> Result<(), Memory>
    ensures { OnOk result (out.new.items ≡ out.old.items ++ bundle_line bundle.now) }
{
    out.extend_from_slice(b"bundle ")?;
    put_escaped(out, bundle.key.as_slice())?;
    put_part(out, b" bundle=", bundle.value.as_slice())?;
    out.push(b'\n')?;
    Ok(())
}

fn put_bundles(out: &mut Vec<u8>, bundles: &[MapItem]) -> Result<(), Memory>
    ensures { OnOk result (out.new.items ≡ out.old.items ++ flat_map bundle_line bundles.now) }
{
    for bundle in bundles {
        put_bundle(out, bundle)?;
    }
    Ok(())
}

#[tactic(auto, unfolding(crate::specs::Lines::jwt_start))]
pub(crate) fn put_jwt_start(out: &mut Vec<u8>, svid: &JwtItem) -> Result<(), Memory>
    ensures { OnOk result (out.new.items ≡ out.old.items ++ jwt_start svid.now) }
{
    out.extend_from_slice(b"jwt ")?;
    put_escaped(out, svid.spiffe_id.as_slice())?;
    out.extend_from_slice(b" ")?;
    put_escaped(out, svid.svid.as_slice())?;
    put_part(out, b" hint=", svid.hint.as_slice())?;
    Ok(())
}

#[tactic(auto, unfolding(crate::specs::Lines::jwt_line))]
fn put_jwt(out: &mut Vec<u8>, svid: &JwtItem) -> Result<(), Memory>
    ensures { OnOk result (out.new.items ≡ out.old.items ++ jwt_line svid.now) }
{
    put_jwt_start(out, svid)?;
    out.push(b'\n')?;
    Ok(())
}

fn put_jwts(out: &mut Vec<u8>, svids: &[JwtItem]) -> Result<(), Memory>
    ensures { OnOk result (out.new.items ≡ out.old.items ++ flat_map jwt_line svids.now) }
{
    for svid in svids {
        put_jwt(out, svid)?;
    }
    Ok(())
}

#[tactic(auto, unfolding(crate::specs::Lines::state_line))]
fn put_state(out: &mut Vec<u8>, state: u64) -> Result<(), Memory>
    ensures { OnOk result (out.new.items ≡ out.old.items ++ state_line state) }
{
    let line: &[u8] = match state {
        1 => b"serving\n",
        2 => b"not serving\n",
        _ => b"service unknown\n",
    };
    out.extend_from_slice(line)?;
    Ok(())
}

/// The line of a status.
#[tactic(auto, unfolding(crate::specs::Lines::status_line))]
pub(crate) fn put_status(out: &mut Vec<u8>, code: u32, text: &[u8]) -> Result<(), Memory>
    ensures { OnOk result (out.new.items ≡ out.old.items ++ status_line code text.now) }
{
    out.extend_from_slice(b"status ")?;
    put_decimal(out, code)?;
    out.extend_from_slice(b" ")?;
    put_escaped(out, text)?;
    out.push(b'\n')?;
    Ok(())
}

fn put_fault_number(out: &mut Vec<u8>, number: u8) -> Result<(), Memory>
    ensures { OnOk result (out.new.items ≡ out.old.items ++ codes "fault client " ++ decimal number ++ line_end) }
{
    out.extend_from_slice(b"fault client ")?;
    put_decimal(out, u32::from(number))?;
    out.push(b'\n')?;
    Ok(())
}

/// The line of a fault.
#[tactic(auto, unfolding(crate::specs::Lines::fault_line))]
pub(crate) fn put_fault(out: &mut Vec<u8>, fault: ClientFault) -> Result<(), Memory>
    ensures { OnOk result (out.new.items ≡ out.old.items ++ fault_line fault) }
{
    let number = fault.number();
    put_fault_number(out, number)
}

fn put_x509_lines(alloc: Global, out: &mut Vec<u8>, message: &[u8]) -> Result<(), ProtoFault>
    ensures { Writes (lines_by svid_lines (x509_of message.now)) result out.old.items out.new.items }
{
    let message = decode_x509(alloc, message)?;
    put_svids(out, message.svids.as_slice())?;
    Ok(())
}

fn put_x509_pem(alloc: Global, out: &mut Vec<u8>, message: &[u8]) -> Result<(), ProtoFault>
    ensures { Writes (whole_by X509_SVID_CHAIN svids_are_whole svids_pem (x509_of message.now)) result out.old.items out.new.items }
{
    let message = decode_x509(alloc, message)?;
    if !are_svids_whole(alloc, message.svids.as_slice())? {
        return Err(ProtoFault::FieldKind(field_number::X509_SVID_CHAIN));
    }
    put_svids_pem(alloc, out, message.svids.as_slice())?;
    Ok(())
}

/// A message as a frame of gRPC.
fn put_frame(alloc: Global, out: &mut Vec<u8>, message: &[u8]) -> Result<(), Memory>
    requires { length message.now < 2 ^ 32 }
    ensures { OnOk result (out.new.items ≡ out.old.items ++ framed message.now) }
{
    let mut frame = Octets::empty(alloc);
    put_message(&mut frame, message)?;
    out.extend_from_slice(frame.as_slice())?;
    Ok(())
}

/// Whether a message has files, and a length of four bytes.
fn may_be_kept(alloc: Global, message: &[u8], said: &X509Response) -> Result<bool, Memory>
    ensures { IfOk result (λ may. may ≡ may_be_kept message.now said.now) }
{
    Ok(has_files(alloc, said)? && message.len() < LENGTHS)
}

fn put_x509_frame(alloc: Global, out: &mut Vec<u8>, message: &[u8]) -> Result<(), ProtoFault>
    ensures { Writes (whole_by X509_SVID_CHAIN (may_be_kept message.now) (λ m. framed message.now) (x509_of message.now)) result out.old.items out.new.items }
{
    let said = decode_x509(alloc, message)?;
    if !may_be_kept(alloc, message, &said)? {
        return Err(ProtoFault::FieldKind(field_number::X509_SVID_CHAIN));
    }
    put_frame(alloc, out, message)?;
    Ok(())
}

/// Whether the message with these bundles has files, and a length of four bytes.
fn may_bundles_be_kept(
    alloc: Global,
    kind: BundleKind,
    message: &[u8],
    bundles: &[MapItem],
) -> Result<bool, Memory>
    ensures { IfOk result (λ may. may ≡ may_bundles_be_kept kind message.now bundles.now) }
{
    Ok(have_files(alloc, kind, bundles)? && message.len() < LENGTHS)
}

fn put_bundles_frame(alloc: Global, out: &mut Vec<u8>, message: &[u8]) -> Result<(), ProtoFault>
    ensures { Writes (whole_by MAP_ITEM_VALUE (λ m. may_bundles_be_kept bundle_kinds.X509 message.now m.bundles) (λ m. framed message.now) (bundles_of message.now)) result out.old.items out.new.items }
{
    let said = decode_bundles(alloc, message)?;
    if !may_bundles_be_kept(alloc, BundleKind::X509, message, said.bundles.as_slice())? {
        return Err(ProtoFault::FieldKind(field_number::MAP_ITEM_VALUE));
    }
    put_frame(alloc, out, message)?;
    Ok(())
}

fn put_jwt_bundles_frame(alloc: Global, out: &mut Vec<u8>, message: &[u8]) -> Result<(), ProtoFault>
    ensures { Writes (whole_by MAP_ITEM_VALUE (λ m. may_bundles_be_kept bundle_kinds.Jwt message.now m.bundles) (λ m. framed message.now) (jwt_bundles_of message.now)) result out.old.items out.new.items }
{
    let said = decode_jwt_bundles(alloc, message)?;
    if !may_bundles_be_kept(alloc, BundleKind::Jwt, message, said.bundles.as_slice())? {
        return Err(ProtoFault::FieldKind(field_number::MAP_ITEM_VALUE));
    }
    put_frame(alloc, out, message)?;
    Ok(())
}

fn put_x509_object(alloc: Global, out: &mut Vec<u8>, message: &[u8]) -> Result<(), ProtoFault>
    ensures { Writes (lines_by x509_json (x509_of message.now)) result out.old.items out.new.items }
{
    let message = decode_x509(alloc, message)?;
    put_x509_json(alloc, out, &message)?;
    Ok(())
}

fn put_bundles_lines(alloc: Global, out: &mut Vec<u8>, message: &[u8]) -> Result<(), ProtoFault>
    ensures { Writes (lines_by bundle_lines (bundles_of message.now)) result out.old.items out.new.items }
{
    let message = decode_bundles(alloc, message)?;
    put_bundles(out, message.bundles.as_slice())?;
    Ok(())
}

fn put_bundles_blocks(alloc: Global, out: &mut Vec<u8>, message: &[u8]) -> Result<(), ProtoFault>
    ensures { Writes (whole_by MAP_ITEM_VALUE bundles_are_whole bundles_pem (bundles_of message.now)) result out.old.items out.new.items }
{
    let message = decode_bundles(alloc, message)?;
    if !are_bundles_whole(alloc, message.bundles.as_slice())? {
        return Err(ProtoFault::FieldKind(field_number::MAP_ITEM_VALUE));
    }
    put_bundles_pem(alloc, out, message.bundles.as_slice())?;
    Ok(())
}

fn put_bundles_object(alloc: Global, out: &mut Vec<u8>, message: &[u8]) -> Result<(), ProtoFault>
    ensures { Writes (lines_by bundles_json (bundles_of message.now)) result out.old.items out.new.items }
{
    let message = decode_bundles(alloc, message)?;
    put_bundles_json(alloc, out, &message)?;
    Ok(())
}

fn put_jwt_lines(alloc: Global, out: &mut Vec<u8>, message: &[u8]) -> Result<(), ProtoFault>
    ensures { Writes (lines_by jwt_lines (jwt_of message.now)) result out.old.items out.new.items }
{
    let message = decode_jwt(alloc, message)?;
    put_jwts(out, message.svids.as_slice())?;
    Ok(())
}

fn put_jwt_object(alloc: Global, out: &mut Vec<u8>, message: &[u8]) -> Result<(), ProtoFault>
    ensures { Writes (lines_by jwt_json (jwt_of message.now)) result out.old.items out.new.items }
{
    let message = decode_jwt(alloc, message)?;
    put_jwt_json(out, &message)?;
    Ok(())
}

fn put_jwt_bundles_lines(alloc: Global, out: &mut Vec<u8>, message: &[u8]) -> Result<(), ProtoFault>
    ensures { Writes (lines_by jwt_bundle_lines (jwt_bundles_of message.now)) result out.old.items out.new.items }
{
    let message = decode_jwt_bundles(alloc, message)?;
    put_bundles(out, message.bundles.as_slice())?;
    Ok(())
}

fn put_jwt_bundles_object(
    alloc: Global,
    out: &mut Vec<u8>,
    message: &[u8],
) -> Result<(), ProtoFault>
    ensures { Writes (lines_by jwt_bundles_json (jwt_bundles_of message.now)) result out.old.items out.new.items }
{
    let message = decode_jwt_bundles(alloc, message)?;
    put_jwt_bundles_json(alloc, out, &message)?;
    Ok(())
}

fn put_health(out: &mut Vec<u8>, message: &[u8]) -> Result<(), ProtoFault>
    ensures { Writes (lines_by state_line (state_of message.now)) result out.old.items out.new.items }
{
    let state = decode_state(message)?;
    put_state(out, state)?;
    Ok(())
}

/// The text of a message of this kind, or the first fault in it.
#[tactic(auto, unfolding(crate::specs::Lines::lines_of))]
pub(crate) fn put_lines(
    alloc: Global,
    out: &mut Vec<u8>,
    kind: Kind,
    message: &[u8],
) -> Result<(), ProtoFault>
    ensures { Writes (lines_of kind message.now) result out.old.items out.new.items }
{
    match kind {
        Kind::X509(Form::Lines) => put_x509_lines(alloc, out, message),
        Kind::X509(Form::Pem) => put_x509_pem(alloc, out, message),
        Kind::X509Frame => put_x509_frame(alloc, out, message),
        Kind::BundlesFrame(BundleKind::X509) => put_bundles_frame(alloc, out, message),
        Kind::BundlesFrame(BundleKind::Jwt) => put_jwt_bundles_frame(alloc, out, message),
        Kind::X509(Form::Json) => put_x509_object(alloc, out, message),
        Kind::Bundles(Form::Lines) => put_bundles_lines(alloc, out, message),
        Kind::Bundles(Form::Pem) => put_bundles_blocks(alloc, out, message),
        Kind::Bundles(Form::Json) => put_bundles_object(alloc, out, message),
        Kind::Jwt(TokenForm::Lines) => put_jwt_lines(alloc, out, message),
        Kind::Jwt(TokenForm::Json) => put_jwt_object(alloc, out, message),
        Kind::DecodedJwt(TokenForm::Lines) => put_decoded_lines(alloc, out, message),
        Kind::DecodedJwt(TokenForm::Json) => put_decoded_object(alloc, out, message),
        Kind::JwtBundles(TokenForm::Lines) => put_jwt_bundles_lines(alloc, out, message),
        Kind::JwtBundles(TokenForm::Json) => put_jwt_bundles_object(alloc, out, message),
        Kind::State => put_health(out, message),
    }
}
