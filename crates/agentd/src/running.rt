//! Serving over the operating system.

ghost use Rattle.std.specs.Prelude.{◌≡◌, ⊤, map, string_bytes, option_map, None, IsSome};
ghost use Rattle.wl_agent.specs.ServeWords.{config_of};
ghost use Rattle.wl_agent.specs.Headline.{Headline};
ghost use Rattle.wl_signlink.specs.Vouched.{RepliedToken};

use crate::host::RealHost;
use std::alloc::Global;
use std::string::String;
use std::sync::Wait;
use std::thread::Threads;
use wl_agent::{Host, run};
use wl_edge::{Sink, Source};
use wl_serve::{Binder, Parts, PartsShown};

/// Serves over the operating system. The headline that [`run`] says of `serve` holds with no premise: all that the real host
/// prepares, and each of its links, tells its content.
pub(crate) fn serve_here<I: Source, O: Sink, R: Threads + Wait + Sync>(
    rt: &R,
    alloc: Global,
    words: &[String],
    host: &mut Host<I, O, RealHost<HostRuntime>>,
) -> u8
    requires { host.old.parts ≡ None }
    ensures headline { IsSome (config_of (map string_bytes words.now)) → Headline RepliedToken ⊤ ⊤
        (record {
          content = I.left host.old.input;
          before = O.taken host.old.output;
          after = O.taken host.new.output;
          reads_before = I.faults host.old.input;
          reads_after = I.faults host.new.input;
          writes_before = O.faults host.old.output;
          writes_after = O.faults host.new.output;
        })
        (record {
          before = ⟦<RealHost<HostRuntime> as Binder>⟧.faults host.old.binder;
          now = ⟦<RealHost<HostRuntime> as Binder>⟧.faults host.new.binder;
          parts = option_map ⟦<Parts<RealHost<HostRuntime>> as PartsShown>⟧.shown host.new.parts;
        }) result }
{
    run(rt, alloc, words, host)
}
