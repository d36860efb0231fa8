//! Messages, and the messages in them, one field after another.

ghost use Rattle.std.specs.Prelude.{◌≡◌, ◌<◌, ℕ, List, Option, MatchResult, Ok, Err};
ghost use Rattle.pb_wire.specs.declared.fault.FieldFault.{FieldFault};
ghost use Rattle.pb_wire.specs.declared.field.Field.{Field};
ghost use Rattle.pb_wire.specs.Message.{text_of};
ghost use Rattle.pb_wire.specs.Strings.{fault_of, Gives};
ghost use Rattle.wl_client.specs.Messages.{message_of, bytes_of, inner_of, replaced, with_more, x509_item_wrong, x509_item_more, x509_item_of, map_item_wrong, map_item_more, map_item_of, jwt_item_wrong, jwt_item_more, jwt_item_of, x509_wrong, x509_more, jwt_wrong, jwt_more, bundles_wrong, bundles_more, jwt_bundles_wrong, jwt_bundles_more, Takes};

use crate::lent::Lent;
use crate::response::{
    BundlesResponse, JwtBundlesResponse, JwtItem, JwtResponse, MapItem, X509Item, X509Response,
};
use pb_wire::{Field, FieldFault, read_field};
use wl_octets::Row;
use workload_proto::field_number;

/// The number of `crl` in an `X509SVIDResponse` (SPIFFE Workload API, `workload.proto`).
const X509_RESPONSE_CRL: u32 = 2;

/// The number of `crl` in an `X509BundlesResponse` (SPIFFE Workload API, `workload.proto`).
const X509_BUNDLES_CRL: u32 = 1;

/// A message that is read field by field, and whose parts stay where they lie.
pub(crate) trait Fields<'a>: Sized {
    /// What is wrong with a field of these bytes.
    ghost wrong: { List ℕ → Field → Option FieldFault };

    /// What a field of these bytes makes of the message.
    ghost more: { List ℕ → Self → Field → Self };

    /// Takes one field that was read from these bytes.
    fn take(&mut self, bytes: &'a [u8], field: &Field) -> Result<(), FieldFault>
        ensures { Takes result (wrong bytes.now field.now) (more bytes.now self.old field.now) self.new };
}

/// Takes all fields of these bytes.
pub(crate) fn read_fields<'a, M: Fields<'a> + Drop>(
    bytes: &'a [u8],
    nothing: M,
) -> Result<M, FieldFault>
    ensures { Gives result (message_of (M.wrong bytes.now) (M.more bytes.now) nothing bytes.now) }
{
    let mut message = nothing;
    let mut at = 0;
    while at < bytes.len() {
        let field = read_field(bytes, at)?;
        message.take(bytes, &field)?;
        at = field.next;
    }
    Ok(message)
}

/// The content of a field of any bytes.
#[tactic(auto, unfolding(crate::specs::Messages::bytes_of))]
fn any_bytes<'a>(bytes: &'a [u8], field: &Field) -> Result<&'a [u8], FieldFault>
    ensures { MatchResult result
        (λ content. bytes_of bytes.now field.now ≡ Ok content.now)
        (λ e. bytes_of bytes.now field.now ≡ Err e) }
{
    match field.value.content(bytes) {
        Some(content) => Ok(content),
        None => Err(FieldFault::FieldKind(field.number)),
    }
}

/// Takes a text in place of an earlier one.
fn take_text<'a>(bytes: &'a [u8], field: &Field, text: &mut Lent<'a>) -> Result<(), FieldFault>
    ensures { Takes result (fault_of (text_of bytes.now field.now)) (replaced text.old (text_of bytes.now field.now)) text.new }
{
    let found = field.text(bytes)?;
    *text = Lent::from_slice(found);
    Ok(())
}

/// Takes bytes in place of earlier ones.
fn take_bytes<'a>(bytes: &'a [u8], field: &Field, content: &mut Lent<'a>) -> Result<(), FieldFault>
    ensures { Takes result (fault_of (bytes_of bytes.now field.now)) (replaced content.old (bytes_of bytes.now field.now)) content.new }
{
    let found = any_bytes(bytes, field)?;
    *content = Lent::from_slice(found);
    Ok(())
}

impl<'a> Fields<'a> for X509Item<'a> {
    ghost wrong = { x509_item_wrong };

    ghost more = { x509_item_more };

    #[tactic(auto, unfolding(crate::specs::Messages::x509_item_wrong, crate::specs::Messages::x509_item_more))]
    fn take(&mut self, bytes: &'a [u8], field: &Field) -> Result<(), FieldFault> {
        match field.number {
            field_number::X509_SVID_SPIFFE_ID => take_text(bytes, field, &mut self.spiffe_id),
            field_number::X509_SVID_CHAIN => take_bytes(bytes, field, &mut self.chain),
            field_number::X509_SVID_KEY => take_bytes(bytes, field, &mut self.key),
            field_number::X509_SVID_BUNDLE => take_bytes(bytes, field, &mut self.bundle),
            field_number::X509_SVID_HINT => take_text(bytes, field, &mut self.hint),
            _ => Ok(()),
        }
    }
}

impl<'a> Fields<'a> for MapItem<'a> {
    ghost wrong = { map_item_wrong };

    ghost more = { map_item_more };

    #[tactic(auto, unfolding(crate::specs::Messages::map_item_wrong, crate::specs::Messages::map_item_more))]
    fn take(&mut self, bytes: &'a [u8], field: &Field) -> Result<(), FieldFault> {
        match field.number {
            field_number::MAP_ITEM_KEY => take_text(bytes, field, &mut self.key),
            field_number::MAP_ITEM_VALUE => take_bytes(bytes, field, &mut self.value),
            _ => Ok(()),
        }
    }
}

impl<'a> Fields<'a> for JwtItem<'a> {
    ghost wrong = { jwt_item_wrong };

    ghost more = { jwt_item_more };

    #[tactic(auto, unfolding(crate::specs::Messages::jwt_item_wrong, crate::specs::Messages::jwt_item_more))]
    fn take(&mut self, bytes: &'a [u8], field: &Field) -> Result<(), FieldFault> {
        match field.number {
            field_number::JWT_SVID_SPIFFE_ID => take_text(bytes, field, &mut self.spiffe_id),
            field_number::JWT_SVID_SVID => take_text(bytes, field, &mut self.svid),
            field_number::JWT_SVID_HINT => take_text(bytes, field, &mut self.hint),
            _ => Ok(()),
        }
    }
}

/// One `X509SVID`.
#[tactic(auto, unfolding(crate::specs::Messages::x509_item_of))]
fn read_x509_item(bytes: &[u8]) -> Result<X509Item<'_>, FieldFault>
    ensures { Gives result (x509_item_of bytes.now) }
{
    let nothing = X509Item {
        spiffe_id: Lent::empty(),
        chain: Lent::empty(),
        key: Lent::empty(),
        bundle: Lent::empty(),
        hint: Lent::empty(),
    };
    read_fields(bytes, nothing)
}

/// One item of a map.
#[tactic(auto, unfolding(crate::specs::Messages::map_item_of))]
fn read_map_item(bytes: &[u8]) -> Result<MapItem<'_>, FieldFault>
    ensures { Gives result (map_item_of bytes.now) }
{
    let nothing = MapItem {
        key: Lent::empty(),
        value: Lent::empty(),
    };
    read_fields(bytes, nothing)
}

/// One `JWTSVID`.
#[tactic(auto, unfolding(crate::specs::Messages::jwt_item_of))]
fn read_jwt_item(bytes: &[u8]) -> Result<JwtItem<'_>, FieldFault>
    ensures { Gives result (jwt_item_of bytes.now) }
{
    let nothing = JwtItem {
        spiffe_id: Lent::empty(),
        svid: Lent::empty(),
        hint: Lent::empty(),
    };
    read_fields(bytes, nothing)
}

#[tactic(auto, unfolding(crate::specs::Messages::inner_of))]
fn take_x509_item<'a>(
    bytes: &'a [u8],
    field: &Field,
    items: &mut Row<X509Item<'a>>,
) -> Result<(), FieldFault>
    ensures { Takes result (fault_of (inner_of x509_item_of bytes.now field.now)) (with_more items.old (inner_of x509_item_of bytes.now field.now)) items.new }
{
    let content = any_bytes(bytes, field)?;
    let item = read_x509_item(content)?;
    items.push(item)?;
    Ok(())
}

#[tactic(auto, unfolding(crate::specs::Messages::inner_of))]
fn take_map_item<'a>(
    bytes: &'a [u8],
    field: &Field,
    items: &mut Row<MapItem<'a>>,
) -> Result<(), FieldFault>
    ensures { Takes result (fault_of (inner_of map_item_of bytes.now field.now)) (with_more items.old (inner_of map_item_of bytes.now field.now)) items.new }
{
    let content = any_bytes(bytes, field)?;
    let item = read_map_item(content)?;
    items.push(item)?;
    Ok(())
}

#[tactic(auto, unfolding(crate::specs::Messages::inner_of))]
fn take_jwt_item<'a>(
    bytes: &'a [u8],
    field: &Field,
    items: &mut Row<JwtItem<'a>>,
) -> Result<(), FieldFault>
    ensures { Takes result (fault_of (inner_of jwt_item_of bytes.now field.now)) (with_more items.old (inner_of jwt_item_of bytes.now field.now)) items.new }
{
    let content = any_bytes(bytes, field)?;
    let item = read_jwt_item(content)?;
    items.push(item)?;
    Ok(())
}

/// Whether a field has any bytes; they are dropped.
fn skip_bytes(bytes: &[u8], field: &Field) -> Result<(), FieldFault>
    ensures { MatchResult result
        (λ _. fault_of (bytes_of bytes.now field.now) ≡ None)
        (λ e. bytes_of bytes.now field.now ≡ Err e) }
{
    any_bytes(bytes, field)?;
    Ok(())
}

impl<'a> Fields<'a> for X509Response<'a> {
    ghost wrong = { x509_wrong };

    ghost more = { x509_more };

    #[tactic(auto, unfolding(crate::specs::Messages::x509_wrong, crate::specs::Messages::x509_more))]
    fn take(&mut self, bytes: &'a [u8], field: &Field) -> Result<(), FieldFault> {
        match field.number {
            field_number::X509_RESPONSE_SVIDS => take_x509_item(bytes, field, &mut self.svids),
            X509_RESPONSE_CRL => skip_bytes(bytes, field),
            field_number::X509_RESPONSE_FEDERATED_BUNDLES => take_map_item(
                bytes,
                field,
                &mut self.federated,
            ),
            _ => Ok(()),
        }
    }
}

impl<'a> Fields<'a> for BundlesResponse<'a> {
    ghost wrong = { bundles_wrong };

    ghost more = { bundles_more };

    #[tactic(auto, unfolding(crate::specs::Messages::bundles_wrong, crate::specs::Messages::bundles_more))]
    fn take(&mut self, bytes: &'a [u8], field: &Field) -> Result<(), FieldFault> {
        match field.number {
            X509_BUNDLES_CRL => skip_bytes(bytes, field),
            field_number::X509_BUNDLES_BUNDLES => take_map_item(bytes, field, &mut self.bundles),
            _ => Ok(()),
        }
    }
}

impl<'a> Fields<'a> for JwtBundlesResponse<'a> {
    ghost wrong = { jwt_bundles_wrong };

    ghost more = { jwt_bundles_more };

    #[tactic(auto, unfolding(crate::specs::Messages::jwt_bundles_wrong, crate::specs::Messages::jwt_bundles_more))]
    fn take(&mut self, bytes: &'a [u8], field: &Field) -> Result<(), FieldFault> {
        match field.number {
            field_number::JWT_BUNDLES_BUNDLES => take_map_item(bytes, field, &mut self.bundles),
            _ => Ok(()),
        }
    }
}

impl<'a> Fields<'a> for JwtResponse<'a> {
    ghost wrong = { jwt_wrong };

    ghost more = { jwt_more };

    #[tactic(auto, unfolding(crate::specs::Messages::jwt_wrong, crate::specs::Messages::jwt_more))]
    fn take(&mut self, bytes: &'a [u8], field: &Field) -> Result<(), FieldFault> {
        match field.number {
            field_number::JWT_RESPONSE_SVIDS => take_jwt_item(bytes, field, &mut self.svids),
            _ => Ok(()),
        }
    }
}
