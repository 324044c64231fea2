//! Times looks.
ghost use Rattle.std.specs.Prelude.{◌<◌};
ghost use Rattle.disco_press.specs.Openings.{Opens};

use crate::given::app;
use crate::looking::{Seen, look_often};
use crate::publishing::{change_until, fill_locked};
use disco_press::{Desk, Naming, Opening, Seat, open};
use disco_values::{DocKey, Fault, Settings};
use std::alloc::{AllocError, Global};
use std::io;
use std::rt::Clock;
use std::sync::atomic::{AtomicU64, Ordering};
use std::sync::{Mutex, Wait};
use std::thread::{Threads, join, map_vec};
use std::time::Instant;

/// What is timed.
#[derive(Clone, Copy, Debug)]
pub(crate) struct Timing {
    apps: u64,
    seats: usize,
    looks: u64,
    busy: bool,
    ghost some: { 0 < apps },
}

impl Timing {
    /// What the words name, where they are `looks` and four numbers, of 1 to 4,096 apps and 1 to 64
    /// threads.
    pub(crate) fn of(words: &[String]) -> Option<Timing> {
        let [word, apps, seats, looks, busy] = words else {
            return None;
        };
        if word.as_str() != "looks" {
            return None;
        }
        let apps: u64 = apps.as_str().parse().ok()?;
        let seats: usize = seats.as_str().parse().ok()?;
        if !(1..=4096).contains(&apps) || !(1..=64).contains(&seats) {
            return None;
        }
        Some(Timing {
            apps,
            seats,
            looks: looks.as_str().parse().ok()?,
            busy: busy.as_str() == "1",
        })
    }
}

/// A seat, and the document that it looks for.
type Job<J> = (Seat<J>, DocKey);

/// Each seat looks for the document of another app, as far as there are so many.
fn jobs_of<J: Naming>(
    alloc: Global,
    mut seats: Vec<Seat<J>>,
    apps: u64,
) -> Result<Vec<Job<J>>, Fault>
    requires { 0 < apps }
{
    let mut jobs = Vec::new(alloc);
    for number in 0..64 {
        let Some(seat) = seats.pop() else {
            break;
        };
        jobs.push((seat, app(alloc, number % apps)?))?;
    }
    Ok(jobs)
}

fn look_all<J: Naming + Send + Sync, R: Threads + Sync>(
    rt: &R,
    jobs: Vec<Job<J>>,
    looks: u64,
    done: &AtomicU64,
) -> Result<Vec<Seen>, AllocError> {
    let seen = map_vec(
        rt,
        jobs,
        &|job: Job<J>| {
            let (mut seat, key) = job;
            look_often(&mut seat, &key, looks)
        },
    );
    done.store(1, Ordering::SeqCst);
    seen
}

/// The looks, beside changes without a pause where it is busy. Answers how many changes there were.
fn measured<J: Naming + Send + Sync, R: Threads + Wait + Sync>(
    rt: &R,
    alloc: Global,
    timing: &Timing,
    desk: &Mutex<Desk<J>>,
    seats: Vec<Seat<J>>,
) -> Result<u64, Fault> {
    let jobs = jobs_of(alloc, seats, timing.apps)?;
    let done = AtomicU64::new(u64::from(!timing.busy));
    let (done, looks) = (&done, timing.looks);
    let (changed, seen) = join(
        rt,
        move || change_until(rt, alloc, desk, done),
        move || look_all(rt, jobs, looks, done),
    );
    let _ = seen?;
    changed
}

fn timed<J: Naming + Send + Sync, R: Threads + Wait + Clock + Print + Sync>(
    rt: &R,
    alloc: Global,
    timing: &Timing,
    desk: &Mutex<Desk<J>>,
    seats: Vec<Seat<J>>,
) -> io::Result<bool> {
    if fill_locked(rt, alloc, desk, timing.apps).is_err() {
        return Ok(false);
    }
    let start = Instant::now(rt)?;
    let Ok(changes) = measured(rt, alloc, timing, desk, seats) else {
        return Ok(false);
    };
    let taken = start.elapsed(rt)?;
    println!(rt; "{} {changes}", taken.as_nanos())?;
    Ok(true)
}

/// Prints the nanoseconds that all looks took together, and how many publishes there were.
pub(crate) fn run<J: Naming + Send + Sync, R>(
    rt: &R,
    timing: &Timing,
    opening: Opening,
) -> io::Result<bool>
where
    R: Threads + Wait + Clock + AllocGlobal + Print + Sync + Clone + Drop,
    requires opening { Opens J.list J.name J.parts opening }
{
    let alloc = rt.alloc();
    let seats = timing.seats.clamp(1, 64);
    let Ok((desk, seats)) = open::<J, R>(rt, alloc, &Settings::standard(), seats, opening) else {
        println!(rt; "no memory")?;
        return Ok(false);
    };
    let desk = Mutex::new(desk);
    let timed = timed(rt, alloc, timing, &desk, seats);
    desk.into_inner().close(rt);
    timed
}
