//! Writers that register instances.
ghost use Rattle.std.specs.Prelude.{◌<◌};

use disco_press::{Desk, Naming};
use disco_registry::Op;
use disco_server::{Clock, SystemClock};
use disco_values::Fault;
use disco_wire::read_registration;
use std::alloc::Global;
use std::sync::{Mutex, MutexGuard, Wait};
use std::thread::{JoinHandle, Scope, Threads};
use std::{rt, thread};

/// The registration of the instance of a number.
fn registration(alloc: Global, number: u64) -> Result<Op, Fault> {
    let text = format!(in alloc;
        r#"{{"instance":{{"instanceId":"i{number}","hostName":"i{number}","app":"FLEET","ipAddr":"127.0.0.1","status":"UP","dataCenterInfo":{{"name":"MyOwn"}}}}}}"#
    )?;
    Ok(Op::Register(read_registration(alloc, text.as_bytes())?))
}

/// Registers one instance, under the lock.
fn register<J: Naming, R: Wait>(
    rt: &R,
    desk: &Mutex<Desk<J>>,
    op: Op,
    now: u64,
) -> Result<(), Fault> {
    let mut guard = desk.lock(rt);
    let written = guard.write(op, now);
    MutexGuard::unlock(guard);
    written?;
    Ok(())
}

/// Registers the instances of one of `writers` writers: every instance whose number modulo `writers` is
/// `writer`.
fn register_some<J: Naming, R: Wait + rt::Clock>(
    rt: &R,
    alloc: Global,
    desk: &Mutex<Desk<J>>,
    writer: u64,
    writers: u64,
    instances: u64,
) -> Result<(), Fault>
    requires { 0 < writers }
{
    let mut clock = SystemClock::new(rt);
    for number in 0..instances {
        if number % writers == writer {
            register(rt, desk, registration(alloc, number)?, clock.now())?;
        }
    }
    Ok(())
}

/// Starts so many writers, each on a thread of its own.
fn start_writers<'s, E, J: Naming + Send + Sync + 's, R: Threads + Wait + rt::Clock + Sync + 's>(
    scope: &'s Scope<'s, E>,
    rt: &'s R,
    alloc: Global,
    desk: &'s Mutex<Desk<J>>,
    writers: u64,
    instances: u64,
) -> Result<Vec<JoinHandle<Result<(), Fault>>>, Fault>
    requires { 0 < writers }
{
    let mut started = Vec::new(alloc);
    for writer in 0..writers {
        let Ok(one) = scope.spawn(move || register_some(
            rt, alloc, desk, writer, writers, instances,
        )) else {
            return Err(Fault::ReadFailed);
        };
        started.push(one)?;
    }
    Ok(started)
}

/// Registers so many instances by so many writers, each on a thread of its own. Refused as `ReadFailed`
/// where the host refuses one.
pub(super) fn register_all<J: Naming + Send + Sync, R: Threads + Wait + rt::Clock + Sync>(
    rt: &R,
    alloc: Global,
    desk: &Mutex<Desk<J>>,
    writers: u64,
    instances: u64,
) -> Result<(), Fault>
    requires { 0 < writers }
{
    let started = thread::scope(
        thread::scope_env(),
        rt,
        move |scope|
            requires { 0 < writers }
        { start_writers(scope, rt, alloc, desk, writers, instances) },
    )?;
    for one in started {
        one.join(rt)?;
    }
    Ok(())
}
