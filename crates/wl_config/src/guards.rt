//! Who may open the file of a socket.

ghost use Rattle.std.specs.Prelude.{◌≡◌, ◌≤◌, not, option_map};
ghost use Rattle.std.specs.List.{list_any};
ghost use Rattle.serde_json.specs.View.{view};
ghost use Rattle.wl_config.specs.Checks.{Gives};
ghost use Rattle.wl_config.specs.Guards.{is_octal, bits_of, mode_of, id_at, id_of, mode_at, mode_in, guard_of, absent, no_guard_of};

use crate::config::SocketGuard;
use crate::fault::ConfigFault;
use crate::limits::{DEFAULT_MODE, MAX_ID};
use crate::places::socket_place;
use decimal_text::number_up_to;
use json_members::{number_at, text_at};
use serde_json::Value;
use wl_document::Place;

/// How many octal digits a mode has at most.
const MODE_DIGITS: usize = 4;

/// Whether a byte is an octal digit.
fn is_octal(byte: u8) -> bool
    ensures { result ≡ is_octal byte }
{
    b'0' <= byte && byte <= b'7'
}

/// Whether some byte isn't an octal digit.
fn some_other(digits: &[u8]) -> bool
    ensures { result ≡ list_any (λ b. not (is_octal b)) digits.now }
{
    digits.iter().any(|digit| !is_octal(*digit))
}

/// The bits of three octal digits, which are those of this number in decimal.
fn bits_of(decimal: u64) -> u32
    requires { decimal ≤ 777 }
    ensures { result ≡ bits_of decimal }
{
    let digits = decimal as u32;
    64 * (digits / 100) + 8 * (digits / 10 % 10) + digits % 10
}

/// The permission bits that these octal digits name, none of them above 0o777.
#[tactic(auto, unfolding(crate::specs::Guards::mode_of))]
fn mode_of(digits: &[u8]) -> Option<u32>
    ensures { result ≡ mode_of digits.now }
{
    if digits.len() > MODE_DIGITS || some_other(digits) {
        return None;
    }
    match number_up_to(777, digits) {
        Some(decimal) => Some(bits_of(decimal)),
        None => None,
    }
}

/// The number of a user or a group.
#[tactic(auto, unfolding(crate::specs::Guards::id_at))]
fn id_at(place: Place, value: &Value) -> Result<Option<u32>, ConfigFault>
    ensures { Gives (λ o. o) result (id_at place (view value.now)) }
{
    let number = number_at(ConfigFault::Kind(place), value)?;
    if number > u64::from(MAX_ID) {
        return Err(ConfigFault::Kind(place));
    }
    Ok(Some(number as u32))
}

/// The same, where it is there.
#[tactic(auto, unfolding(crate::specs::Guards::id_of))]
fn id_of(place: Place, name: &str, value: &Value) -> Result<Option<u32>, ConfigFault>
    ensures { Gives (λ o. o) result (id_of place name.now (view value.now)) }
{
    match value.get(name) {
        Some(member) => id_at(place, member),
        None => Ok(None),
    }
}

/// A mode, as a text of octal digits.
#[tactic(auto, unfolding(crate::specs::Guards::mode_at))]
fn mode_at(place: Place, value: &Value) -> Result<u32, ConfigFault>
    ensures { Gives (λ n. n) result (mode_at place (view value.now)) }
{
    let fault = ConfigFault::Kind(place);
    match mode_of(text_at(fault, value)?.as_bytes()) {
        Some(mode) => Ok(mode),
        None => Err(fault),
    }
}

/// The mode of the socket at this index, or the default where it is absent.
#[tactic(auto, unfolding(crate::specs::Guards::mode_in))]
fn mode(index: u32, value: &Value) -> Result<u32, ConfigFault>
    ensures { Gives (λ n. n) result (mode_in index (view value.now)) }
{
    match value.get("mode") {
        Some(member) => mode_at(socket_place(index, 6), member),
        None => Ok(DEFAULT_MODE),
    }
}

/// The guard that the members of the socket at this index name.
#[tactic(auto, unfolding(crate::specs::Guards::guard_of))]
pub(crate) fn guard(index: u32, value: &Value) -> Result<SocketGuard, ConfigFault>
    ensures { Gives (λ g. g) result (guard_of index (view value.now)) }
{
    let owner = id_of(socket_place(index, 4), "owner", value)?;
    let group = id_of(socket_place(index, 5), "group", value)?;
    let mode = mode(index, value)?;
    Ok(SocketGuard { owner, group, mode })
}

/// Sees to it that a member is not there.
#[tactic(auto, unfolding(crate::specs::Guards::absent))]
pub(crate) fn absent(place: Place, name: &str, value: &Value) -> Result<(), ConfigFault>
    ensures { Gives (λ x. x) result (absent place name.now (view value.now)) }
{
    match value.get(name) {
        Some(_) => Err(ConfigFault::Kind(place)),
        None => Ok(()),
    }
}

/// Sees to it that the socket at this index has no guard of its own.
#[tactic(auto, unfolding(crate::specs::Guards::no_guard_of))]
pub(crate) fn no_guard(index: u32, value: &Value) -> Result<(), ConfigFault>
    ensures { Gives (λ x. x) result (no_guard_of index (view value.now)) }
{
    absent(socket_place(index, 4), "owner", value)?;
    absent(socket_place(index, 5), "group", value)?;
    absent(socket_place(index, 6), "mode", value)
}
