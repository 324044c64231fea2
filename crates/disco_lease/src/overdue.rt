//! Leases that have run out.
ghost use Rattle.std.specs.Prelude.{◌≡◌, ◌||◌, ℕ, IfOk, OnOk, map};
ghost use Rattle.std.specs.FinMap as finmap;
ghost use Rattle.std.specs.BTreeMap.{IsOrdered};
ghost use Rattle.std.specs.List.{list_any};
ghost use Rattle.std.specs.Option.{option_or};
ghost use Rattle.disco_places.specs.KeyMaps.{of_apps};
ghost use Rattle.disco_lease.specs.Due.{due_cmp};
ghost use Rattle.disco_values.specs.declared.key.Key.{Key};
ghost use Rattle.disco_lease.specs.Seen.{at_pair, ids_with_app, pair, pairs, has_run_out, seen_due};

use crate::lease::Lease;
use disco_places::IdMap;
use disco_values::{Key, Text};
use std::alloc::{AllocError, Global};
use std::collections::BTreeMap;

/// The keys of leases that have run out, by due moment and then by key.
pub(crate) type Overdue = BTreeMap<(u128, Key), ()>;

/// The places of the leases of each app.
type Apps = BTreeMap<Text, IdMap<Option<Lease>>>;

/// The key of this app and this id.
fn key_of(app: &Text, id: &Text) -> Result<Key, AllocError>
    ensures { IfOk result (λ k. k ≡ record { app = app.now; id = id.now }) }
{
    Ok(Key {
        app: app.clone()?,
        id: id.clone()?,
    })
}

/// Adds the key of a lease that has run out.
fn add(
    overdue: &mut Overdue,
    app: &Text,
    id: &Text,
    place: &Option<Lease>,
    now: u64,
) -> Result<(), AllocError>
    ensures { OnOk result ((q : ℕ × Key) → finmap.get (seen_due overdue.new.entries) q ≡
        option_or (at_pair q (pair now (record { app = app.now; id = id.now }, place.now))) (finmap.get (seen_due overdue.old.entries) q)) }
{
    if let Some(lease) = place {
        let due = lease.due();
        if due < u128::from(now) {
            overdue.insert((due, key_of(app, id)?), ())?;
        }
    }
    Ok(())
}

/// Adds the keys of those leases of an app that have run out.
fn collect_ids(
    overdue: &mut Overdue,
    app: &Text,
    ids: &IdMap<Option<Lease>>,
    now: u64,
) -> Result<(), AllocError>
    ensures { OnOk result ((q : ℕ × Key) → finmap.get (seen_due overdue.new.entries) q ≡
        option_or (finmap.find due_cmp q (pairs now (ids_with_app app.now (finmap.entries ids.now)))) (finmap.get (seen_due overdue.old.entries) q)) }
{
    for (id, place) in ids {
        add(overdue, app, id, place, now)?;
    }
    Ok(())
}

fn collect(alloc: Global, apps: &Apps, now: u64) -> Result<Overdue, AllocError>
    ensures { IfOk result (λ m. seen_due m.entries ≡ finmap.from_entries (pairs now (of_apps apps.now.entries))) }
{
    let mut overdue = BTreeMap::new(alloc);
    for (app, ids) in apps {
        collect_ids(&mut overdue, app, ids, now)?;
    }
    Ok(overdue)
}

fn keys(alloc: Global, overdue: Overdue) -> Result<Vec<Key>, AllocError>
    ensures keys { IfOk result (λ v. v.items ≡ map (λ e. e.0.1) overdue.entries) }
    ensures ordered { IsOrdered due_cmp overdue }
{
    let mut keys = Vec::new(alloc);
    for ((_, key), _) in overdue {
        keys.push(key)?;
    }
    Ok(keys)
}

/// Whether the lease of a place has run out by a moment.
pub(crate) fn has_run_out(place: &Option<Lease>, now: u64) -> bool
    ensures { result ≡ has_run_out now place.now }
{
    match place {
        Some(lease) => lease.due() < u128::from(now),
        None => false,
    }
}

/// Whether a lease of an app has run out by a moment.
fn any_in(ids: &IdMap<Option<Lease>>, now: u64) -> bool
    ensures { result ≡ list_any (λ e. has_run_out now e.1) (finmap.entries ids.now) }
{
    for (_, place) in ids {
        if has_run_out(place, now) {
            return true;
        }
    }
    false
}

/// Whether a lease has run out by a moment. Takes no memory.
pub(crate) fn any_overdue(apps: &Apps, now: u64) -> bool
    ensures { result ≡ list_any (λ e. has_run_out now e.1) (of_apps apps.now.entries) }
{
    for (_, ids) in apps {
        if any_in(ids, now) {
            return true;
        }
    }
    false
}

/// The keys of the leases that have run out by a moment, by due moment and then by key.
pub(crate) fn overdue_keys(alloc: Global, apps: &Apps, now: u64) -> Result<Vec<Key>, AllocError>
    ensures { IfOk result (λ v. v.items ≡ map (λ d. d.1) (finmap.keys (finmap.from_entries {R = due_cmp} (pairs now (of_apps apps.now.entries))))) }
{
    let overdue = collect(alloc, apps, now)?;
    Ok(keys(alloc, overdue)?)
}
