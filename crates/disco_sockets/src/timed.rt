//! Tries the timed workers, each at its own period.
ghost use Rattle.disco_press.specs.Openings.{Opens};

use crate::dial::{Dial, START, Turned};
use disco_press::{Desk, Looked, Naming, Opening, Seat, open};
use disco_registry::Op;
use disco_server::timers;
use disco_values::{DocKey, Fault, Form, Key, Query, Settings, Text};
use disco_wire::read_registration;
use std::alloc::Global;
use std::rt;
use std::sync::atomic::{AtomicBool, Ordering};
use std::sync::{Mutex, MutexGuard, Wait};
use std::thread::{Threads, join};

/// An instance whose lease lasts a second.
const INSTANCE: &[u8] =
    br#"{"instance":{"instanceId":"1","hostName":"h","app":"A","ipAddr":"10.0.0.1","dataCenterInfo":{"name":"MyOwn"},"leaseInfo":{"durationInSecs":1}}}"#;

/// What a look answers that finds no document.
const MISSED: u64 = 1_000;

/// What is seen of a desk: from which version deltas start, the version of all apps as they are, and as
/// a look finds them, and how many renewals came since a minute was closed.
#[derive(Clone, Copy, Debug, PartialEq, Eq)]
struct Seen {
    base: u64,
    loaded: u64,
    looked: u64,
    renewals: u64,
}

/// The key of the document of all apps.
pub(crate) fn apps() -> DocKey {
    DocKey {
        query: Query::Apps,
        form: Form::Full,
    }
}

/// Does an operation under the lock.
fn write<J: Naming, R: Wait>(rt: &R, desk: &Mutex<Desk<J>>, op: Op, now: u64) -> Result<(), Fault> {
    let mut guard = desk.lock(rt);
    let written = guard.write(op, now);
    MutexGuard::unlock(guard);
    written?;
    Ok(())
}

/// Registers the instance.
fn register<J: Naming, R: Wait>(
    rt: &R,
    alloc: Global,
    desk: &Mutex<Desk<J>>,
    now: u64,
) -> Result<(), Fault> {
    write(
        rt,
        desk,
        Op::Register(read_registration(alloc, INSTANCE)?),
        now,
    )
}

/// Renews the instance twice, as often as it does in a minute. Its lease runs out 2,000 milliseconds
/// behind moment 0 all the same.
fn renew<J: Naming, R: Wait>(rt: &R, alloc: Global, desk: &Mutex<Desk<J>>) -> Result<(), Fault> {
    for _ in 0..2 {
        let key = Key {
            app: Text::new(alloc, "A")?,
            id: Text::new(alloc, "1")?,
        };
        write(rt, desk, Op::Renew(key), 0)?;
    }
    Ok(())
}

/// The version of all apps as a look finds them.
fn looked<J: Naming>(seat: &mut Seat<J>) -> u64 {
    match seat.look(&apps()) {
        Looked::Doc(doc) => doc.version,
        Looked::Miss | Looked::Shut => MISSED,
    }
}

/// What is seen of a desk. Closes a minute.
fn see<J: Naming, R: Wait>(
    rt: &R,
    desk: &Mutex<Desk<J>>,
    seat: &mut Seat<J>,
) -> Result<Seen, Fault> {
    let looked = looked(seat);
    let mut guard = desk.lock(rt);
    let base = guard.clean(0);
    let loaded = guard.load(&apps());
    let renewals = guard.close_minute().renewals;
    MutexGuard::unlock(guard);
    Ok(Seen {
        base,
        loaded: loaded?.version,
        looked,
        renewals,
    })
}

/// Makes a change at moment 0 and asks for all apps: there is something to forget, and to publish.
fn prepare<J: Naming, R: Wait>(rt: &R, alloc: Global, desk: &Mutex<Desk<J>>) -> Result<(), Fault> {
    register(rt, alloc, desk, 0)?;
    let mut guard = desk.lock(rt);
    let loaded = guard.load(&apps());
    MutexGuard::unlock(guard);
    loaded?;
    Ok(())
}

/// What is seen of a desk once its instance was renewed twice, and the workers have done what is due so
/// many milliseconds behind the dial's start.
fn see_at<J: Naming, R: Wait + rt::Clock>(
    rt: &R,
    alloc: Global,
    desk: &Mutex<Desk<J>>,
    seat: &mut Seat<J>,
    dial: &Dial,
    passed: u64,
) -> Result<Seen, Fault> {
    renew(rt, alloc, desk)?;
    if !dial.turn(rt, passed) {
        return Err(Fault::NotFetched);
    }
    see(rt, desk, seat)
}

/// What is seen while the dial is turned: at its start; a millisecond before the publisher and the cleaner
/// are due, and when they are; and the same where all are due, again or for the first time. What a look
/// finds in the end is not told, but whether that was published anew.
#[derive(Clone, Copy, Debug, PartialEq, Eq)]
pub(crate) struct Periods {
    begun: Seen,
    before_first: Seen,
    first: Seen,
    before_second: Seen,
    second: Seen,
    published_anew: bool,
}

/// What is seen before anything is due.
const AT_FIRST: Seen = Seen {
    base: 0,
    loaded: 1,
    looked: MISSED,
    renewals: 2,
};

/// What has to be: nothing is done at the start, nor a millisecond before it is due. The lease has run
/// out, and stays. At 60,000 milliseconds it goes, so what was published is of no version before that of
/// the second registration.
pub(crate) const WANTED: Periods = Periods {
    begun: AT_FIRST,
    before_first: AT_FIRST,
    first: Seen {
        base: 1,
        loaded: 1,
        looked: 1,
        renewals: 2,
    },
    before_second: Seen {
        base: 1,
        loaded: 2,
        looked: 1,
        renewals: 2,
    },
    second: Seen {
        base: 2,
        loaded: 3,
        looked: 0,
        renewals: 0,
    },
    published_anew: true,
};

/// What the workers do while the dial is turned.
fn turn_through<J: Naming, R: Wait + rt::Clock>(
    rt: &R,
    alloc: Global,
    desk: &Mutex<Desk<J>>,
    seat: &mut Seat<J>,
    dial: &Dial,
) -> Result<Periods, Fault> {
    let begun = see_at(rt, alloc, desk, seat, dial, 0)?;
    let before_first = see_at(rt, alloc, desk, seat, dial, 29_999)?;
    let first = see_at(rt, alloc, desk, seat, dial, 30_000)?;
    register(rt, alloc, desk, START + 30_000)?;
    let before_second = see_at(rt, alloc, desk, seat, dial, 59_999)?;
    let second = see_at(rt, alloc, desk, seat, dial, 60_000)?;
    Ok(Periods {
        begun,
        before_first,
        first,
        before_second,
        second: Seen {
            base: second.base,
            loaded: second.loaded,
            looked: 0,
            renewals: second.renewals,
        },
        published_anew: second.looked != first.looked,
    })
}

/// Runs the workers, which have something to do, and turns their clocks.
fn turn_and_tend<J: Naming + Send + Sync, R>(
    rt: &R,
    alloc: Global,
    desk: &Mutex<Desk<J>>,
    seat: Seat<J>,
) -> Result<Periods, Fault>
where
    R: Threads + Wait + rt::Clock + Sync,
{
    prepare(rt, alloc, desk)?;
    let (dial, stop) = (Dial::new(), AtomicBool::new(false));
    let (dial, stop) = (&dial, &stop);
    let (timed, tried) = join(
        rt,
        move || timers(rt, desk, Turned::new(dial), stop),
        move || {
            let mut seat = seat;
            let tried = turn_through(rt, alloc, desk, &mut seat, dial);
            stop.store(true, Ordering::SeqCst);
            tried
        },
    );
    timed?;
    tried
}

/// Each timed worker does its task at its own period: not a millisecond before, and then.
pub(crate) fn run<J: Naming + Send + Sync, R>(
    rt: &R,
    alloc: Global,
    opening: Opening,
) -> Result<Periods, Fault>
where
    R: Threads + Wait + rt::Clock + Sync,
    requires opening { Opens J.list J.name J.parts opening }
{
    let mut settings = Settings::standard();
    settings.retention = 0;
    let (desk, mut seats) = open::<J, R>(rt, alloc, &settings, 1, opening)?;
    let desk = Mutex::new(desk);
    let tried = match seats.pop() {
        Some(seat) => turn_and_tend(rt, alloc, &desk, seat),
        None => Err(Fault::NotFetched),
    };
    desk.into_inner().close(rt);
    tried
}
