//! Refreshes one after another.
ghost use Rattle.std.specs.Prelude.{◌≡◌, ◌*◌, ◌⊎◌, ℕ, List, IfErr, IfOk, OnOk};
ghost use Rattle.core.specs.Duration.{as_nanos};
ghost use Rattle.std.specs.Io.KnownBytes.{Appends};
ghost use Rattle.disco_values.specs.declared.fault.Fault.TheVariants.{OutOfMemory, WriteFailed};
ghost use Rattle.disco_http.specs.Causes.{Cause};
ghost use Rattle.disco_follow.specs.Follows.{Follows, IsTurn, turns_of};

use crate::tell::tell;
use crate::told::Told;
use crate::wanted::Wanted;
use disco_http::Sink;
use disco_reconcile::{Client, Fetch};
use disco_values::Fault;
use std::alloc::Global;
use std::rt::Clock;
use std::thread;
use std::time::Duration;

/// How many refreshes are meant: no end is more than come in the life of a host.
fn turns_of(times: u64) -> u64
    ensures { result ≡ turns_of times }
{
    if times == 0 { u64::MAX } else { times }
}

/// A pause of so many milliseconds.
fn pause_of(millis: u64) -> Duration
    ensures { as_nanos result ≡ millis * 1000000 }
{
    Duration::from_millis(millis)
}

/// Refreshes a client once, writes what came of it, and gives what was written last.
fn turn<F: Fetch, W: Sink>(
    alloc: Global,
    client: &mut Client<F>,
    wanted: &Wanted,
    told: Told,
    out: &mut W,
) -> Result<Told, Fault>
    ensures turn { IfOk result (λ now. (text : List ℕ) × IsTurn F.gives F.failed wanted.now client.old told text client.new now
        × Appends (W.contents out.old) (W.contents out.new) text) }
    ensures fault { IfErr result (λ e. (e ≡ OutOfMemory) ⊎ (e ≡ WriteFailed)) }
    ensures cause { Cause WriteFailed (W.failed out.old) (W.failed out.new) result }
    ensures none_failed { OnOk result (W.failed out.new ≡ W.failed out.old) }
{
    let came = client.refresh();
    tell(alloc, client, came, wanted, told, out)
}

/// Refreshes a client so many times, 0 being no end, with a pause in milliseconds between two, and
/// writes what comes of each: a line for a copy that changed, for a vip whose instances that are up
/// changed, and for a refusal, after which it goes on.
///
/// # Errors
///
/// `WriteFailed` where a write fails, and `OutOfMemory` where there is no memory for a line.
pub fn follow_client<R: Clock, F: Fetch, W: Sink>(
    rt: &R,
    alloc: Global,
    client: &mut Client<F>,
    wanted: &Wanted,
    times: u64,
    pause: u64,
    out: &mut W,
) -> Result<(), Fault>
    ensures turns { OnOk result (Follows F.gives F.failed wanted.now (turns_of times) client.old client.new (W.contents out.old) (W.contents out.new)) }
    ensures fault { IfErr result (λ e. (e ≡ OutOfMemory) ⊎ (e ≡ WriteFailed)) }
    ensures cause { Cause WriteFailed (W.failed out.old) (W.failed out.new) result }
{
    let mut told = Told::new(alloc);
    for done in 0..turns_of(times) {
        if done > 0 {
            thread::sleep(rt, pause_of(pause));
        }
        told = turn(alloc, client, wanted, told, out)?;
    }
    Ok(())
}
