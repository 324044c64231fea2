//! Four seats look while a desk publishes 200 times.
ghost use Rattle.disco_press.specs.Openings.{Opens};

use crate::given::app;
use crate::looking::{Seen, look_until};
use crate::publishing::change_often;
use disco_press::{Desk, Naming, Opening, Seat, open};
use disco_values::{DocKey, Fault, Settings};
use std::alloc::{AllocError, Global};
use std::io;
use std::sync::atomic::AtomicU64;
use std::sync::{Mutex, Wait};
use std::thread::{Threads, join, map_vec};

const SEATS: usize = 4;

const PUBLISHES: u64 = 200;

fn look_all<J: Naming + Send + Sync, R: Threads + Wait + Sync>(
    rt: &R,
    seats: Vec<Seat<J>>,
    key: &DocKey,
    done: &AtomicU64,
) -> Result<Vec<Seen>, AllocError> {
    map_vec(
        rt,
        seats,
        &|mut seat: Seat<J>| { look_until(rt, &mut seat, key, done) },
    )
}

fn beside<J: Naming + Send + Sync, R: Threads + Wait + Sync>(
    rt: &R,
    alloc: Global,
    desk: &Mutex<Desk<J>>,
    seats: Vec<Seat<J>>,
) -> Result<Vec<Seen>, Fault> {
    let key = app(alloc, 0)?;
    let (done, key) = (AtomicU64::new(0), &key);
    let done = &done;
    let (changed, seen) = join(
        rt,
        move || change_often(rt, alloc, desk, PUBLISHES, done),
        move || look_all(rt, seats, key, done),
    );
    changed?;
    Ok(seen?)
}

/// Whether all seats saw the last version in the end, and none went back.
fn is_well(seen: &[Seen]) -> bool {
    seen.iter()
        .all(|one| one.version == PUBLISHES && !one.went_back)
}

/// Prints whether no look goes back, and tells it.
pub(crate) fn none_goes_back<J: Naming + Send + Sync, R>(
    rt: &R,
    opening: Opening,
) -> io::Result<bool>
where
    R: Threads + Wait + AllocGlobal + Print + Sync + Clone + Drop,
    requires opening { Opens J.list J.name J.parts opening }
{
    let alloc = rt.alloc();
    let Ok((desk, seats)) = open::<J, R>(rt, alloc, &Settings::standard(), SEATS, opening) else {
        println!(rt; "no memory")?;
        return Ok(false);
    };
    let desk = Mutex::new(desk);
    let seen = beside(rt, alloc, &desk, seats);
    desk.into_inner().close(rt);
    let well = seen.is_ok_and(|seen| is_well(seen.as_slice()));
    if well {
        println!(rt; "{PUBLISHES} publishes, {SEATS} seats: no look went back")?;
    } else {
        println!(rt; "a look went back, or a publish failed")?;
    }
    Ok(well)
}
