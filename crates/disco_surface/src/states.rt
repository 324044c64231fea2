//! The parts of a registry's state, each by itself.
ghost use Rattle.std.specs.Prelude.{◌≡◌, IfOk, true};
ghost use Rattle.disco_history.specs.Change.{is_proper};

use crate::given::{key, record, registration, say, say_text};
use disco_history::{Change, last_of, laws};
use disco_index::{Counts, VipIndex};
use disco_instance::{Action, Entries, Fault, Key, Record, Status, Text};
use disco_lease::LeaseBook;
use disco_queue::ChangedQueue;
use disco_registry::{Applied, Op, Ready, Registry};
use std::alloc::Global;
use std::sync::Arc;

/// The change that an instance is put.
fn put(alloc: Global, id: &str) -> Result<Change, Fault>
    ensures { IfOk result (λ c. is_proper c ≡ true) }
{
    let rec = Arc::new(alloc, record(alloc, id)?)?;
    Ok(Change::Put {
        action: Action::Added,
        rec,
    })
}

/// The change that an instance is gone.
fn gone(alloc: Global, id: &str) -> Result<Change, Fault>
    ensures { IfOk result (λ c. is_proper c ≡ true) }
{
    let rec = Arc::new(alloc, record(alloc, id)?)?;
    Ok(Change::Gone { rec })
}

/// Where the last change of an instance stands, from 1; 0 where it has none.
fn last(changes: &[Change], key: &Key) -> u64 {
    match last_of(changes, key) {
        Some(at) => (at as u64).saturating_add(1),
        None => 0,
    }
}

/// An instance is put, and then gone.
fn put_and_gone(alloc: Global) -> Result<Vec<Change>, Fault> {
    let mut changes = Vec::new(alloc);
    changes.push(put(alloc, "1")?)?;
    changes.push(gone(alloc, "1")?)?;
    Ok(changes)
}

fn tell_last(alloc: Global, changes: &[Change], id: &str, out: &mut String) -> Result<(), Fault> {
    let key = key(alloc, id)?;
    say(out, "last change", last(changes, &key))
}

fn tell_changes(alloc: Global, out: &mut String) -> Result<(), Fault> {
    let changes = put_and_gone(alloc)?;
    tell_last(alloc, changes.as_slice(), "1", out)?;
    tell_last(alloc, changes.as_slice(), "2", out)
}

/// How many bytes the text of counts has.
fn size(alloc: Global, counts: &Counts) -> Result<u64, Fault> {
    let mut text = Vec::with_capacity(alloc, 160)?;
    counts.text_into(&mut text);
    Ok(text.len() as u64)
}

/// The text of counts, by the two calls that give it.
fn tell_text(alloc: Global, counts: &Counts, out: &mut String) -> Result<(), Fault> {
    say(out, "bytes", size(alloc, counts)?)?;
    let text = counts.text(alloc)?;
    say_text(out, "counts", text.as_str())
}

fn tell_counts(alloc: Global, out: &mut String) -> Result<(), Fault> {
    let mut counts = Counts::new();
    counts.add(Status::Down);
    tell_text(alloc, &counts, out)?;
    counts.take(Status::Down);
    tell_text(alloc, &counts, out)
}

fn under(alloc: Global, vips: &VipIndex) -> Result<u64, Fault> {
    Ok(vips.under(alloc, "b")?.len() as u64)
}

fn under_secure(alloc: Global, vips: &VipIndex) -> Result<u64, Fault> {
    Ok(vips.under_secure(alloc, "b")?.len() as u64)
}

fn tell_vips_of(
    alloc: Global,
    rec: &Record,
    vips: &mut VipIndex,
    out: &mut String,
) -> Result<(), Fault> {
    vips.ready(rec)?;
    vips.add(rec);
    say(out, "under vip b", under(alloc, vips)?)?;
    say(out, "under secure vip b", under_secure(alloc, vips)?)?;
    vips.take(rec);
    say(out, "then", under(alloc, vips)?)
}

fn tell_vips(alloc: Global, out: &mut String) -> Result<(), Fault> {
    let rec = record(alloc, "1")?;
    let mut vips = VipIndex::new(alloc);
    tell_vips_of(alloc, &rec, &mut vips, out)
}

/// A queue of one change.
fn queue(alloc: Global) -> Result<ChangedQueue, Fault> {
    let change = put(alloc, "1")?;
    let mut queue = ChangedQueue::new(alloc, 2);
    queue.ready(change.key())?;
    queue.push(change, 1000);
    Ok(queue)
}

fn last_changes(alloc: Global, queue: &ChangedQueue) -> Result<u64, Fault> {
    Ok(queue.last_changes(alloc)?.len() as u64)
}

fn tell_queue_of(alloc: Global, queue: &mut ChangedQueue, out: &mut String) -> Result<(), Fault> {
    say(out, "changes in the queue", queue.len() as u64)?;
    say(out, "version of the queue", queue.version())?;
    say(out, "last changes", last_changes(alloc, queue)?)?;
    say(out, "dropped", queue.clean(5000, 1000) as u64)?;
    say(out, "base of the queue", queue.base())
}

fn tell_queue(alloc: Global, out: &mut String) -> Result<(), Fault> {
    let mut queue = queue(alloc)?;
    tell_queue_of(alloc, &mut queue, out)
}

fn due(alloc: Global, leases: &LeaseBook) -> Result<u64, Fault> {
    Ok(leases.due(alloc, 1_000_000, 1)?.len() as u64)
}

fn tell_leases_of(
    alloc: Global,
    key: &Key,
    leases: &mut LeaseBook,
    out: &mut String,
) -> Result<(), Fault> {
    leases.ready(key)?;
    leases.register(key, 90, 0);
    leases.renew(key, 10)?;
    leases.touch(key, 20)?;
    say(out, "renewals", leases.close_minute(1))?;
    say(out, "due", due(alloc, leases)?)?;
    say(out, "overdue", leases.is_overdue(key, 1_000_000) as u64)?;
    leases.cancel(key)?;
    say(
        out,
        "renewed when gone",
        leases.renew(key, 30).is_ok() as u64,
    )
}

fn tell_leases(alloc: Global, out: &mut String) -> Result<(), Fault> {
    let key = key(alloc, "1")?;
    let mut leases = LeaseBook::new(alloc);
    tell_leases_of(alloc, &key, &mut leases, out)
}

/// The operations on an instance that are no registration, by a number from 0 to 4.
fn operation(alloc: Global, number: u64) -> Result<Op, Fault> {
    let key = key(alloc, "1")?;
    match number {
        0 => Ok(Op::Renew(key)),
        1 => Ok(Op::SetStatus(key, Text::new(alloc, "DOWN")?)),
        2 => Ok(Op::DropStatus(key, None)),
        3 => Ok(Op::Metadata(key, Entries::new(alloc))),
        _ => Ok(Op::Cancel(key)),
    }
}

/// A registration that is made ready and done.
fn register(alloc: Global, registry: &mut Registry) -> Result<bool, Fault> {
    let ready: Ready = registry.ready(registration(alloc, "1")?, 1000)?;
    Ok(matches!(registry.commit(ready), Applied::Changed(_)))
}

/// Since when an instance is registered, 0 for one that isn't.
fn since(registry: &Registry, key: &Key) -> u64 {
    match registry.get(key) {
        Some(rec) => rec.lease.registration,
        None => 0,
    }
}

/// Whether an instance that never came isn't held.
fn not_held(alloc: Global, registry: &Registry) -> Result<u64, Fault> {
    let other = key(alloc, "3")?;
    Ok(registry.get(&other).is_none() as u64)
}

/// Does an operation, and gives the version.
fn apply(alloc: Global, registry: &mut Registry, number: u64) -> Result<u64, Fault> {
    let _ = registry.apply(operation(alloc, number)?, 2000)?;
    Ok(registry.version())
}

fn tell_registry_of(
    alloc: Global,
    key: &Key,
    registry: &mut Registry,
    out: &mut String,
) -> Result<(), Fault> {
    say(out, "registered", register(alloc, registry)? as u64)?;
    say(out, "since", since(registry, key))?;
    say(out, "not held", not_held(alloc, registry)?)?;
    say(out, "by id", registry.by_id("1").is_some() as u64)?;
    for number in 0..5 {
        say(out, "version", apply(alloc, registry, number)?)?;
    }
    say(out, "held", registry.len() as u64)
}

fn tell_registry(alloc: Global, out: &mut String) -> Result<(), Fault> {
    let key = key(alloc, "1")?;
    let mut registry = Registry::new(alloc, 10, 10);
    tell_registry_of(alloc, &key, &mut registry, out)
}

/// What each part answers.
pub(crate) fn tell(alloc: Global, out: &mut String) -> Result<(), Fault> {
    laws::overlay_law();
    laws::form_law();
    laws::hash_law();
    laws::untouched_law();
    tell_changes(alloc, out)?;
    tell_counts(alloc, out)?;
    tell_vips(alloc, out)?;
    tell_queue(alloc, out)?;
    tell_leases(alloc, out)?;
    tell_registry(alloc, out)
}
