//! The files of a path: one with a guard of its own, or one for each uid.

ghost use Rattle.std.specs.Prelude.{◌≡◌, ◌+◌, ◌<◌, ◌≤◌, ◌++◌, ◌∷◌, [], length, map, codes, decimal, nat_eq, if◌then◌else◌, take, drop, IfOk, IfErr, OnOk};
ghost use Rattle.std.specs.List.{AllByRecursion, starts_with};
ghost use Rattle.serde_json.specs.View.{view};
ghost use Rattle.wl_config.specs.Checks.{Gives};
ghost use Rattle.wl_config.specs.Files.{marks_of, uid_file, own_file_of, uid_files_of, paths_for, no_uid_limit_of, files_of};
ghost use Rattle.wl_config.specs.Endpoints.{HasPlace};
ghost use Rattle.wl_config.specs.declared.fault.ConfigFault.TheVariants.{Memory as OutOfMemory};
ghost use Rattle.wl_config.specs.declared.limits.TheConstants.{MAX_SOCKETS};

use crate::config::{SocketGuard, SocketPlace};
use crate::endpoints::Endpoint;
use crate::fault::ConfigFault;
use crate::guards::{absent, guard, no_guard};
use crate::limits::DEFAULT_MODE;
use crate::members::path_at;
use crate::places::{socket_place, top_place};
use crate::uids::{room_for, uids};
use serde_json::Value;
use std::alloc::Global;
use std::string::ToString;
use wl_octets::{Memory, Octets};

/// What stands for the uid in a path.
const MARK: &[u8] = b"{uid}";

/// Notes the mark with which these bytes begin, which stand at this place of a path.
fn note_mark(marks: &mut Vec<usize>, at: usize, bytes: &[u8]) -> Result<(), ConfigFault>
    ensures ok { OnOk result (marks.new.items ≡ marks.old.items ++ (if starts_with nat_eq bytes.now (codes "{uid}") then at ∷ [] else [])) }
    ensures memory { IfErr result (λ e. e ≡ OutOfMemory) }
{
    if bytes.starts_with(MARK) {
        marks.push(at)?;
    }
    Ok(())
}

/// Where the mark begins in a path, each time.
#[tactic(auto, unfolding(crate::specs::Files::marks_of))]
fn marks(alloc: Global, path: &[u8]) -> Result<Vec<usize>, ConfigFault>
    ensures ok { IfOk result (λ v. v.items ≡ marks_of path.now) }
    ensures memory { IfErr result (λ e. e ≡ OutOfMemory) }
{
    let mut marks = Vec::new(alloc);
    let mut at: usize = 0;
    let mut rest = path;
    'bytes: while let Some((_, after)) = rest.split_first() {
        note_mark(&mut marks, at, rest)?;
        at += 1;
        rest = after;
    }
    Ok(marks)
}

/// The path with this uid in place of the mark that begins there.
fn uid_path(alloc: Global, path: &[u8], at: usize, uid: u32) -> Result<Octets, Memory>
    requires { at + 5 ≤ length path.now }
    ensures value { IfOk result (λ o. o ≡ take at path.now ++ decimal uid ++ drop (at + 5) path.now) }
    ensures some { IfOk result (λ o. 0 < length o) }
{
    let mut text = Octets::from_slice(alloc, &path[..at])?;
    text.push_slice(u64::from(uid).to_string(alloc)?.as_bytes())?;
    text.push_slice(&path[at + MARK.len()..])?;
    Ok(text)
}

/// The file that has the guard that the members of the socket at this index name.
#[tactic(auto, unfolding(crate::specs::Files::own_file_of))]
fn own_file(
    alloc: Global,
    index: u32,
    count: usize,
    path: Octets,
    value: &Value,
) -> Result<Vec<Endpoint>, ConfigFault>
    requires at_most { count ≤ MAX_SOCKETS }
    requires some { 0 < length path }
    ensures value { Gives (λ v. v.items) result (own_file_of index count path (view value.now)) }
    ensures some { IfOk result (λ v. 0 < length v.items) }
    ensures at_most { IfOk result (λ v. count + length v.items ≤ MAX_SOCKETS) }
    ensures places { IfOk result (λ v. AllByRecursion HasPlace v.items) }
{
    absent(socket_place(index, 7), "uids", value)?;
    let guard = guard(index, value)?;
    room_for(top_place(5), count, 1)?;
    let mut files = Vec::new(alloc);
    files.push(Endpoint {
        place: SocketPlace::Path { path, guard },
        uid: None,
    })?;
    Ok(files)
}

/// The file of each of these uids.
fn files_by(
    alloc: Global,
    path: &[u8],
    at: usize,
    uids: &[u32],
) -> Result<Vec<Endpoint>, ConfigFault>
    requires { at + 5 ≤ length path.now }
    ensures ok { IfOk result (λ v. v.items ≡ map (uid_file path.now at) uids.now) }
    ensures places { IfOk result (λ v. AllByRecursion HasPlace v.items) }
    ensures memory { IfErr result (λ e. e ≡ OutOfMemory) }
{
    let mut files = Vec::new(alloc);
    for uid in uids {
        let guard = SocketGuard {
            owner: Some(*uid),
            group: None,
            mode: DEFAULT_MODE,
        };
        let path = uid_path(alloc, path, at, *uid)?;
        files.push(Endpoint {
            place: SocketPlace::Path { path, guard },
            uid: Some(*uid),
        })?;
    }
    Ok(files)
}

/// The file of each uid of the socket at this index.
#[tactic(auto, unfolding(crate::specs::Files::uid_files_of))]
fn uid_files(
    alloc: Global,
    index: u32,
    count: usize,
    path: &[u8],
    at: usize,
    value: &Value,
) -> Result<Vec<Endpoint>, ConfigFault>
    requires at_most { count ≤ MAX_SOCKETS }
    requires at { at + 5 ≤ length path.now }
    ensures value { Gives (λ v. v.items) result (uid_files_of index count path.now at (view value.now)) }
    ensures some { IfOk result (λ v. 0 < length v.items) }
    ensures at_most { IfOk result (λ v. count + length v.items ≤ MAX_SOCKETS) }
    ensures places { IfOk result (λ v. AllByRecursion HasPlace v.items) }
{
    no_guard(index, value)?;
    let uids = uids(alloc, index, count, value)?;
    files_by(alloc, path, at, uids.as_slice())
}

/// The files for a path: by its marks, of which there is one at most.
fn files_for(
    alloc: Global,
    index: u32,
    count: usize,
    path: Octets,
    value: &Value,
) -> Result<Vec<Endpoint>, ConfigFault>
    requires at_most { count ≤ MAX_SOCKETS }
    requires some { 0 < length path }
    ensures value { Gives (λ v. v.items) result (paths_for index count path (marks_of path) (view value.now)) }
    ensures some { IfOk result (λ v. 0 < length v.items) }
    ensures at_most { IfOk result (λ v. count + length v.items ≤ MAX_SOCKETS) }
    ensures places { IfOk result (λ v. AllByRecursion HasPlace v.items) }
{
    let marks = marks(alloc, path.as_slice())?;
    match marks.as_slice() {
        [] => own_file(alloc, index, count, path, value),
        [at] => uid_files(alloc, index, count, path.as_slice(), *at, value),
        _ => Err(ConfigFault::Kind(socket_place(index, 1))),
    }
}

/// Sees to it that the socket at this index limits no uid: of the callers at a path the kernel names none.
#[tactic(auto, unfolding(crate::specs::Files::no_uid_limit_of))]
fn no_uid_limit(index: u32, value: &Value) -> Result<(), ConfigFault>
    ensures { Gives (λ x. x) result (no_uid_limit_of index (view value.now)) }
{
    absent(socket_place(index, 10), "connections_per_uid", value)
}

/// The files of the path that this member is, where the sockets before them are so many.
#[tactic(auto, unfolding(crate::specs::Files::files_of))]
pub(crate) fn files(
    alloc: Global,
    index: u32,
    count: usize,
    member: &Value,
    value: &Value,
) -> Result<Vec<Endpoint>, ConfigFault>
    requires at_most { count ≤ MAX_SOCKETS }
    ensures value { Gives (λ v. v.items) result (files_of index count (view member.now) (view value.now)) }
    ensures some { IfOk result (λ v. 0 < length v.items) }
    ensures at_most { IfOk result (λ v. count + length v.items ≤ MAX_SOCKETS) }
    ensures places { IfOk result (λ v. AllByRecursion HasPlace v.items) }
{
    let path = path_at(alloc, socket_place(index, 1), member)?;
    no_uid_limit(index, value)?;
    files_for(alloc, index, count, path, value)
}
