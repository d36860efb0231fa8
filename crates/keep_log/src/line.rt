//! The line of an event.

ghost use Rattle.std.specs.Prelude.{◌≡◌, ◌++◌, OnOk, IfOk, codes};
ghost use Rattle.event_log.specs.Texts.{text_field, number_field};
ghost use Rattle.keep_log.specs.Lines.{serial_text, time_text, folder_name, set_fields, ended_fields, wait_field, fields, said, line};

use crate::event::{KeepEvent, WrittenSet};
use crate::hexadecimal::put_hex;
use event_log::TimeText;
use event_log::texts::{put_escaped, put_number, put_text, put_word};
use std::alloc::Global;
use std::string::ToString;
use wl_octets::{Memory, Octets};

/// A serial number in hexadecimal.
#[tactic(auto, unfolding(crate::specs::Lines::serial_text))]
fn serial_text(alloc: Global, serial: &Option<Octets>) -> Result<Octets, Memory>
    ensures { IfOk result (λ text. text ≡ serial_text serial.now) }
{
    let Some(serial) = serial else {
        return Octets::from_slice(alloc, b"-");
    };
    let mut text = Octets::empty(alloc);
    put_hex(&mut text, serial.as_slice())?;
    Ok(text)
}

#[tactic(auto, unfolding(crate::specs::Lines::time_text))]
fn time_text(alloc: Global, time: &Option<TimeText>) -> Result<Octets, Memory>
    ensures { IfOk result (λ text. text ≡ time_text time.now) }
{
    let Some(time) = time else {
        return Octets::from_slice(alloc, b"-");
    };
    let mut text = Octets::empty(alloc);
    put_escaped(&mut text, time.as_slice())?;
    Ok(text)
}

#[tactic(auto, unfolding(crate::specs::Lines::folder_name))]
fn folder_name(alloc: Global, number: u64) -> Result<Octets, Memory>
    ensures { IfOk result (λ name. name ≡ folder_name number) }
{
    let mut name = Octets::from_slice(alloc, b"..data-")?;
    let digits = number.to_string(alloc)?;
    name.push_slice(digits.as_bytes())?;
    Ok(name)
}

/// Writes what is said of a set.
#[tactic(auto, unfolding(crate::specs::Lines::set_fields))]
fn put_set(alloc: Global, out: &mut Octets, set: &WrittenSet) -> Result<(), Memory>
    ensures { OnOk result (out.new ≡ out.old ++ set_fields set.now) }
{
    let serial = serial_text(alloc, &set.serial)?;
    let not_after = time_text(alloc, &set.not_after)?;
    let folder = folder_name(alloc, set.number)?;
    put_word(out, b"serial", serial.as_slice())?;
    put_word(out, b"not_after", not_after.as_slice())?;
    put_word(out, b"folder", folder.as_slice())?;
    put_number(alloc, out, b"files", set.count)
}

/// Writes how long is waited, where it is.
#[tactic(auto, unfolding(crate::specs::Lines::wait_field))]
fn put_wait(alloc: Global, out: &mut Octets, wait: Option<u64>) -> Result<(), Memory>
    ensures { OnOk result (out.new ≡ out.old ++ wait_field wait) }
{
    match wait {
        Some(seconds) => put_number(alloc, out, b"wait", seconds),
        None => Ok(()),
    }
}

/// Writes what is said of a call that ended.
#[tactic(auto, unfolding(crate::specs::Lines::ended_fields))]
fn put_ended(
    alloc: Global,
    out: &mut Octets,
    status: u8,
    wait: u64,
    reason: &[u8],
) -> Result<(), Memory>
    ensures { OnOk result (out.new ≡ out.old ++ ended_fields status wait reason.now) }
{
    put_number(alloc, out, b"status", u64::from(status))?;
    put_number(alloc, out, b"wait", wait)?;
    put_text(out, b"reason", reason)
}

/// Writes what an event says beside its name.
#[tactic(auto, unfolding(crate::specs::Lines::fields))]
fn put_fields(alloc: Global, out: &mut Octets, event: &KeepEvent) -> Result<(), Memory>
    ensures { OnOk result (out.new ≡ out.old ++ fields event.now) }
{
    match event {
        KeepEvent::Written(set) => put_set(alloc, out, set),
        KeepEvent::NotWritten { path, reason } => {
            put_text(out, b"path", path.as_slice())?;
            put_text(out, b"reason", reason.as_slice())
        }
        KeepEvent::Answered(line) => put_text(out, b"line", line.as_slice()),
        KeepEvent::Ended {
            status,
            wait,
            reason,
        } => put_ended(alloc, out, *status, *wait, reason.as_slice()),
        KeepEvent::TokenFailed {
            audience,
            reason,
            wait,
        } => {
            put_text(out, b"audience", audience.as_slice())?;
            put_text(out, b"reason", reason.as_slice())?;
            put_wait(alloc, out, *wait)
        }
        KeepEvent::JwksFailed { reason, wait } => {
            put_text(out, b"reason", reason.as_slice())?;
            put_wait(alloc, out, *wait)
        }
    }
}

/// Writes the line of an event at a time. An error is out of memory, and then a part may have been written.
#[tactic(auto, unfolding(crate::specs::Lines::line, crate::specs::Lines::said))]
pub fn put_line(
    alloc: Global,
    out: &mut Octets,
    time: &TimeText,
    event: &KeepEvent,
) -> Result<(), Memory>
    ensures { OnOk result (out.new ≡ out.old ++ line time.now event.now) }
{
    out.push_slice(b"ts=")?;
    put_escaped(out, time.as_slice())?;
    put_word(out, b"level", event.level().name())?;
    put_word(out, b"event", event.name())?;
    put_fields(alloc, out, event)?;
    out.push_slice(b"\n")
}
