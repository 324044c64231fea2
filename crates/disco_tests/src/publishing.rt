//! One thread that writes, loads and publishes.
use crate::given::{app, registration_of};
use disco_press::{Desk, Naming};
use disco_values::Fault;
use std::alloc::Global;
use std::sync::atomic::{AtomicU64, Ordering};
use std::sync::{Mutex, MutexGuard, Wait};

/// Registers the instance of the app of a number.
fn register<J: Naming>(alloc: Global, desk: &mut Desk<J>, number: u64) -> Result<(), Fault> {
    let _ = desk.write(registration_of(alloc, number)?, 0)?;
    Ok(())
}

/// Loads the document of that app.
fn load<J: Naming>(alloc: Global, desk: &mut Desk<J>, number: u64) -> Result<(), Fault> {
    let key = app(alloc, number)?;
    let _ = desk.load(&key)?;
    Ok(())
}

/// Whether a document was copied.
fn copy<J: Naming>(desk: &mut Desk<J>) -> Result<bool, Fault> {
    Ok(desk.copy_one()?.is_some())
}

/// Copies all that is left of the open round, and publishes.
fn publish<J: Naming, R: Wait>(rt: &R, desk: &mut Desk<J>) -> Result<(), Fault> {
    for _ in 0..u64::MAX {
        if !copy(desk)? {
            break;
        }
    }
    desk.publish(rt)?;
    Ok(())
}

/// Registers the instance of an app once more, loads its document, and publishes.
fn change<J: Naming, R: Wait>(
    rt: &R,
    alloc: Global,
    desk: &mut Desk<J>,
    number: u64,
) -> Result<(), Fault> {
    register(alloc, desk, number)?;
    load(alloc, desk, number)?;
    desk.begin()?;
    publish(rt, desk)
}

/// As [`change`], under the lock.
fn change_locked<J: Naming, R: Wait>(
    rt: &R,
    alloc: Global,
    desk: &Mutex<Desk<J>>,
    number: u64,
) -> Result<(), Fault> {
    let mut guard = desk.lock(rt);
    let changed = change(rt, alloc, &mut *guard, number);
    MutexGuard::unlock(guard);
    changed
}

/// Registers an instance of each app, loads their documents, and publishes them.
fn fill<J: Naming, R: Wait>(
    rt: &R,
    alloc: Global,
    desk: &mut Desk<J>,
    apps: u64,
) -> Result<(), Fault> {
    for number in 0..apps {
        register(alloc, desk, number)?;
        load(alloc, desk, number)?;
    }
    desk.begin()?;
    publish(rt, desk)
}

/// As [`fill`], under the lock.
pub(crate) fn fill_locked<J: Naming, R: Wait>(
    rt: &R,
    alloc: Global,
    desk: &Mutex<Desk<J>>,
    apps: u64,
) -> Result<(), Fault> {
    let mut guard = desk.lock(rt);
    let filled = fill(rt, alloc, &mut *guard, apps);
    MutexGuard::unlock(guard);
    filled
}

/// So many changes, one after another; then it says that they are done.
pub(crate) fn change_often<J: Naming, R: Wait>(
    rt: &R,
    alloc: Global,
    desk: &Mutex<Desk<J>>,
    times: u64,
    done: &AtomicU64,
) -> Result<(), Fault> {
    let mut changed = Ok(());
    for _ in 0..times {
        changed = change_locked(rt, alloc, desk, 0);
        if changed.is_err() {
            break;
        }
    }
    done.store(1, Ordering::SeqCst);
    changed
}

/// Changes without a pause, until the looks are done. Answers how many there were.
pub(crate) fn change_until<J: Naming, R: Wait>(
    rt: &R,
    alloc: Global,
    desk: &Mutex<Desk<J>>,
    done: &AtomicU64,
) -> Result<u64, Fault> {
    let mut changes: u64 = 0;
    for _ in rt.forever() {
        if done.load(Ordering::SeqCst) != 0 {
            break;
        }
        change_locked(rt, alloc, desk, 0)?;
        changes = changes.saturating_add(1);
    }
    Ok(changes)
}
