//! The timed tasks: each has a thread, beside those that answer requests.
ghost use Rattle.std.specs.Prelude.{◌≡◌, IfErr};
ghost use Rattle.disco_values.specs.declared.fault.Fault.TheVariants.{ReadFailed};

use crate::clock::Clock;
use crate::expiry::Expiry;
use crate::pauses::Pauses;
use crate::tasks::{TASKS, Task, next_step, take_step};
use crate::timer::Timer;
use disco_press::{Desk, Naming, Room};
use disco_values::Fault;
use std::sync::atomic::{AtomicBool, Ordering};
use std::sync::{Mutex, MutexGuard, Wait};
use std::thread::{Scope, Threads};
use std::time::Duration;
use std::{rt, thread};

/// How many milliseconds a thread sleeps before it looks again whether its task is due, or is to stop.
const NAP_MILLIS: u64 = 50;

/// How much room a task's next step takes, where it writes a document that names many instances.
fn room_of_next<J: Naming>(desk: &Desk<J>, task: Task) -> Option<Room> {
    match task {
        Task::Publish => desk.next_room(),
        Task::Clean => None,
        Task::CloseMinute => None,
        Task::Expire => None,
    }
}

/// Takes the lock for a task's next step. The room that it takes is made before, so that nobody waits for
/// the lock while the host gives the memory.
fn lock_with_room<'a, J: Naming, R: Wait>(
    rt: &R,
    desk: &'a Mutex<Desk<J>>,
    task: Task,
) -> MutexGuard<'a, Desk<J>> {
    let guard = desk.lock(rt);
    let Some(room) = room_of_next(&*guard, task) else {
        return guard;
    };
    MutexGuard::unlock(guard);
    let made = room.make();
    let mut guard = desk.lock(rt);
    if let Ok(made) = made {
        guard.lend(made);
    }
    guard
}

/// Whether another step follows at once. An expiry that is refused memory goes on where the desk had a
/// reserve to give up. The reserve is taken again once a task is done.
fn goes_on<J: Naming>(desk: &mut Desk<J>, task: Task, taken: Result<bool, Fault>) -> bool {
    match taken {
        Ok(true) => true,
        Ok(false) => {
            desk.take_reserve_again();
            false
        }
        Err(Fault::OutOfMemory) => matches!(task, Task::Expire) && desk.give_up_reserve(),
        Err(_) => false,
    }
}

/// Takes one step of a task under the lock. Whether another follows at once.
fn step<J: Naming, R: Wait + rt::Clock>(
    rt: &R,
    desk: &Mutex<Desk<J>>,
    task: Task,
    run: &mut Option<Expiry>,
    now: u64,
    pauses: &mut Pauses,
    stop: &AtomicBool,
) -> bool {
    if stop.load(Ordering::SeqCst) {
        return false;
    }
    pauses.pause_if_due(rt);
    let mut guard = lock_with_room(rt, desk, task);
    let (left, taken) = take_step(rt, &mut *guard, task, run.take(), now);
    *run = left;
    let more = goes_on(&mut *guard, task, taken);
    MutexGuard::unlock(guard);
    more
}

/// Takes the steps of a task that is due. Others may have the lock between two steps. Where there is no
/// memory, a round stays open for the next time.
fn take_steps<J: Naming, R: Wait + rt::Clock>(
    rt: &R,
    desk: &Mutex<Desk<J>>,
    task: Task,
    now: u64,
    pauses: &mut Pauses,
    stop: &AtomicBool,
) {
    for _ in rt.forever() {
        if !step(rt, desk, task, &mut None, now, pauses, stop) {
            return;
        }
    }
}

/// Lets leases run out: the keys that were due when it began are cancelled some at a time, each where its
/// lease has run out by the moment of its step. What is refused memory is left to the next time.
fn expire<J: Naming, R: Wait + rt::Clock, C: Clock>(
    rt: &R,
    desk: &Mutex<Desk<J>>,
    clock: &mut C,
    pauses: &mut Pauses,
    stop: &AtomicBool,
) {
    let mut run = None;
    for _ in rt.forever() {
        let now = clock.now();
        if !step(rt, desk, Task::Expire, &mut run, now, pauses, stop) {
            return;
        }
    }
}

/// Cleans up to a moment. Each step forgets the changes of a second, so that nobody waits for all that
/// came in a period.
fn clean<J: Naming, R: Wait + rt::Clock>(
    rt: &R,
    desk: &Mutex<Desk<J>>,
    now: u64,
    pauses: &mut Pauses,
    stop: &AtomicBool,
) {
    let mut moment = now.saturating_sub(Task::Clean.period());
    for _ in rt.forever() {
        if stop.load(Ordering::SeqCst) || moment >= now {
            return;
        }
        moment = next_step(moment, now);
        take_steps(rt, desk, Task::Clean, moment, pauses, stop);
    }
}

/// Runs a task each time that it is due, until it is to stop.
fn run_when_due<J: Naming, R: Wait + rt::Clock, C: Clock + Copy>(
    rt: &R,
    desk: &Mutex<Desk<J>>,
    mut clock: C,
    task: Task,
    stop: &AtomicBool,
) {
    let mut timer = Timer::new(task.period(), clock.now());
    for _ in rt.forever() {
        if stop.load(Ordering::SeqCst) {
            return;
        }
        let now = clock.now();
        if timer.is_due(now) {
            let mut pauses = Pauses::new(rt);
            match task {
                Task::Clean => clean(rt, desk, now, &mut pauses, stop),
                Task::Expire => expire(rt, desk, &mut clock, &mut pauses, stop),
                other => take_steps(rt, desk, other, now, &mut pauses, stop),
            }
        }
        thread::sleep(rt, Duration::from_millis(NAP_MILLIS));
    }
}

/// Starts the timed tasks in a scope, each on a thread of its own, until `stop` is set: the publisher and
/// the cleaner every 30,000 milliseconds of the clock, the closing of a minute and the expiry every 60,000.
///
/// # Errors
///
/// `ReadFailed` alone, where the host refuses a thread. Then `stop` is set, so that the others end at
/// once, and what they did until then stays.
pub fn start_timers<'s, E, J, R, C>(
    scope: &'s Scope<'s, E>,
    rt: &'s R,
    desk: &'s Mutex<Desk<J>>,
    clock: C,
    stop: &'s AtomicBool,
) -> Result<(), Fault>
where
    J: Naming + Send + Sync + 's,
    R: Threads + Wait + rt::Clock + Sync + 's,
    C: Clock + Copy + Send + 's,
    ensures { IfErr result (λ fault. fault ≡ ReadFailed) }
{
    for task in TASKS {
        let worker = scope.spawn(move || run_when_due(rt, desk, clock, task, stop));
        if worker.is_err() {
            stop.store(true, Ordering::SeqCst);
            return Err(Fault::ReadFailed);
        }
    }
    Ok(())
}

/// Runs the timed tasks as [`start_timers`] starts them, and returns once all have ended.
///
/// # Errors
///
/// `ReadFailed` alone, as [`start_timers`].
pub fn timers<J, R, C>(
    rt: &R,
    desk: &Mutex<Desk<J>>,
    clock: C,
    stop: &AtomicBool,
) -> Result<(), Fault>
where
    J: Naming + Send + Sync,
    R: Threads + Wait + rt::Clock + Sync,
    C: Clock + Copy + Send,
    ensures { IfErr result (λ fault. fault ≡ ReadFailed) }
{
    thread::scope(
        thread::scope_env(),
        rt,
        move |scope| start_timers(scope, rt, desk, clock, stop),
    )
}
