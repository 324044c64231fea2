//! A desk and its seats on two threads.
ghost use Rattle.disco_press.specs.Openings.{Opens};

use crate::given::{apps, cancel, defaults, refusal, registration};
use disco_press::{Desk, Looked, Naming, Opening, Seat, open};
use disco_server::publish_round;
use disco_values::Fault;
use std::alloc::Global;
use std::sync::{Mutex, MutexGuard, Wait};
use std::thread::{Threads, join};

/// How a seat is answered that cancels an instance twice: the numbers of the refusals, 0 for none; and
/// how many changes it counts then.
#[derive(Clone, Copy, Debug, PartialEq, Eq)]
pub(crate) struct Cancels {
    first: u32,
    again: u32,
    changes: u64,
}

/// What is seen of a desk: the version of the document that the seat of another thread finds, and how
/// a seat is answered.
#[derive(Clone, Copy, Debug, PartialEq, Eq)]
pub(crate) struct Seen {
    version: u64,
    cancels: Cancels,
}

/// What is wanted of it.
pub(crate) const WANTED: Seen = Seen {
    version: 1,
    cancels: Cancels {
        first: 0,
        again: 5,
        changes: 1,
    },
};

/// The version of a document that a look found; 1,000 where it missed, 2,000 where it was shut.
fn found(looked: Looked) -> u64 {
    match looked {
        Looked::Doc(doc) => doc.version,
        Looked::Miss => 1000,
        Looked::Shut => 2000,
    }
}

/// Registers an instance.
fn register<J: Naming>(alloc: Global, desk: &mut Desk<J>) -> Result<(), Fault> {
    let _ = desk.write(registration(alloc, "1")?, 1)?;
    Ok(())
}

/// Registers an instance, and loads the document of all apps.
fn fill<J: Naming>(alloc: Global, desk: &mut Desk<J>) -> Result<(), Fault> {
    register(alloc, desk)?;
    let _ = desk.load(&apps())?;
    Ok(())
}

/// The version of the document of all apps that a seat finds once it has learnt from the desk.
fn learnt<J: Naming, R: Wait>(rt: &R, desk: &Mutex<Desk<J>>, seat: &mut Seat<J>) -> u64 {
    let mut guard = desk.lock(rt);
    seat.learn(&mut *guard);
    MutexGuard::unlock(guard);
    found(seat.look(&apps()))
}

/// As [`fill`], under the lock; then publishes a round.
fn publish_one<J: Naming, R: Wait>(
    rt: &R,
    alloc: Global,
    desk: &Mutex<Desk<J>>,
) -> Result<(), Fault> {
    let mut guard = desk.lock(rt);
    let filled = fill(alloc, &mut *guard);
    MutexGuard::unlock(guard);
    filled?;
    publish_round(rt, desk)
}

/// Learns until a document is seen.
fn see<J: Naming, R: Wait>(rt: &R, desk: &Mutex<Desk<J>>, mut seat: Seat<J>) -> (u64, Seat<J>) {
    let mut seen = 1000;
    for _ in rt.forever() {
        seen = learnt(rt, desk, &mut seat);
        if seen != 1000 {
            break;
        }
    }
    (seen, seat)
}

/// Cancels an instance for a seat, and answers the number of the refusal, 0 for none.
fn cancels_as<J: Naming>(
    alloc: Global,
    desk: &mut Desk<J>,
    seat: &mut Seat<J>,
    now: u64,
) -> Result<u32, Fault> {
    let op = cancel(alloc, "1")?;
    Ok(refusal(desk.write_as(seat, op, now)))
}

/// A seat cancels an instance twice.
fn cancel_twice<J: Naming, R: Wait>(
    rt: &R,
    alloc: Global,
    desk: &Mutex<Desk<J>>,
    seat: &mut Seat<J>,
) -> Result<Cancels, Fault> {
    let mut guard = desk.lock(rt);
    let first = cancels_as(alloc, &mut *guard, seat, 3);
    let again = cancels_as(alloc, &mut *guard, seat, 4);
    MutexGuard::unlock(guard);
    Ok(Cancels {
        first: first?,
        again: again?,
        changes: seat.changes(),
    })
}

/// One thread publishes, and another one looks; then a seat cancels.
fn at_once<J: Naming + Send + Sync, R: Threads + Wait + Sync>(
    rt: &R,
    alloc: Global,
    desk: &Mutex<Desk<J>>,
    one: &mut Seat<J>,
    two: Seat<J>,
) -> Result<Seen, Fault> {
    let (filled, (version, _two)) = join(
        rt,
        move || publish_one(rt, alloc, desk),
        move || see(rt, desk, two),
    );
    let cancels = cancel_twice(rt, alloc, desk, one);
    filled?;
    Ok(Seen {
        version,
        cancels: cancels?,
    })
}

/// Another thread sees what was published, and a seat counts what was changed for it.
pub(crate) fn seen_by_another_thread<J: Naming + Send + Sync, R: Threads + Wait + Sync>(
    rt: &R,
    alloc: Global,
    opening: Opening,
) -> Result<Seen, Fault>
    requires opening { Opens J.list J.name J.parts opening }
{
    let settings = defaults(alloc)?;
    let (desk, mut seats) = open::<J, R>(rt, alloc, &settings, 2, opening)?;
    let two = seats.pop().unwrap();
    let mut one = seats.pop().unwrap();
    let desk = Mutex::new(desk);
    let came = at_once(rt, alloc, &desk, &mut one, two);
    desk.into_inner().close(rt);
    came
}
