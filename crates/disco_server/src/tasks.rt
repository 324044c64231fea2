//! The timed tasks: their periods and their steps.
ghost use Rattle.std.specs.Prelude.{◌≡◌};
ghost use Rattle.disco_server.specs.Tasks.{PublishesOn, TakesTaskStep, next_step, period_of};

use crate::expiry::{Expiry, run_on};
use crate::publisher::{Step, publish_step};
use disco_press::{Desk, Naming};
use disco_values::Fault;
use std::sync::Wait;

/// Milliseconds between two rounds of the publisher.
const PUBLISHER_PERIOD: u64 = 30_000;

/// Milliseconds between two cleanings of the recent changes.
const CLEANER_PERIOD: u64 = 30_000;

/// Milliseconds of changes that a cleaning forgets in one step.
const CLEANER_STEP: u64 = 1_000;

/// Milliseconds between two closings of a minute.
const MINUTE_PERIOD: u64 = 60_000;

/// Milliseconds between two runs that let leases run out.
const EXPIRY_PERIOD: u64 = 60_000;

/// A timed task.
#[derive(Clone, Copy, Debug)]
pub(crate) enum Task {
    Publish,
    Clean,
    CloseMinute,
    Expire,
}

pub(crate) const TASKS: [Task; 4] = [Task::Publish, Task::Clean, Task::CloseMinute, Task::Expire];

impl Task {
    /// Its period, in milliseconds.
    pub(crate) fn period(self) -> u64
        ensures { result ≡ period_of self }
    {
        match self {
            Task::Publish => PUBLISHER_PERIOD,
            Task::Clean => CLEANER_PERIOD,
            Task::CloseMinute => MINUTE_PERIOD,
            Task::Expire => EXPIRY_PERIOD,
        }
    }
}

/// The moment of a cleaning's next step: a second behind that of the last, up to now. So the desk is
/// locked as long as it takes to forget the changes of a second, and not of a period.
pub(crate) fn next_step(last: u64, now: u64) -> u64
    ensures { result ≡ next_step last now }
{
    last.saturating_add(CLEANER_STEP).min(now)
}

/// Takes a publisher's next step. Whether another follows at once: up to the end of the round.
fn publish_on<J: Naming, R: Wait>(rt: &R, desk: &mut Desk<J>) -> Result<bool, Fault>
    ensures { PublishesOn desk.old result desk.new }
{
    match publish_step(rt, desk) {
        Ok(Step::Begun) => Ok(true),
        Ok(Step::Copied) => Ok(true),
        Ok(Step::Published) => Ok(false),
        Err(fault) => Err(fault),
    }
}

/// Takes one step of a task at a moment. Gives what is left of the open expiry, and whether another step
/// follows at once: in a round up to its publication, in an expiry until none of its keys is left. May
/// wait for a seat that is inside its look.
///
/// Refused as `OutOfMemory` in a step of a round, which stays as it was, and where an expiry begins; and as
/// a cancel of an expiry is, with what is gone by then.
pub(crate) fn take_step<J: Naming, R: Wait>(
    rt: &R,
    desk: &mut Desk<J>,
    task: Task,
    run: Option<Expiry>,
    now: u64,
) -> (Option<Expiry>, Result<bool, Fault>)
    ensures { TakesTaskStep task now desk.old run result.1 desk.new result.0 }
{
    match task {
        Task::Publish => (run, publish_on(rt, desk)),
        Task::Clean => {
            let _from = desk.clean(now);
            (run, Ok(false))
        }
        Task::CloseMinute => {
            let _closed = desk.close_minute();
            (run, Ok(false))
        }
        Task::Expire => run_on(desk, run, now),
    }
}
