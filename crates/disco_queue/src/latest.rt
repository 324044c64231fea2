//! The last change of each key.
ghost use Rattle.std.specs.Prelude.{◌≡◌, ◌++◌, IfOk, IfSome, OnOk, map, option_map, true};
ghost use Rattle.std.specs.FinMap.{entries};
ghost use Rattle.std.specs.List.{All};
ghost use Rattle.disco_history.specs.Change.{is_proper, change_view};
ghost use Rattle.disco_queue.specs.Numbers.{keyed_change, numbered, numbered_ids, numbered_keys};
ghost use Rattle.disco_queue.specs.Seen.{change_of};

use crate::kept::Kept;
use disco_history::Change;
use disco_places::{IdMap, KeyMap};
use disco_values::Text;
use std::alloc::{AllocError, Global};
use std::collections::VecDeque;

/// The last kept change of a key, with the key's app and its id before it.
pub type Latest<'a> = (&'a Text, &'a Text, &'a Change);

/// The kept change of a number, of changes that so many others come before.
fn numbered(kept: &VecDeque<Kept>, before: u64, number: u64) -> Option<&Change>
    ensures change { option_map (λ c. change_view c.now) result ≡ numbered before (map change_of kept.now.items) number }
    ensures proper { IfSome result (λ c. is_proper c.now ≡ true) }
{
    if number <= before {
        return None;
    }
    match kept.get((number - before - 1) as usize) {
        Some(kept) => Some(&kept.change),
        None => None,
    }
}

/// Adds the kept changes of the numbers that stand in the places of an app.
fn add_numbered<'a>(
    found: &mut Vec<Latest<'a>>,
    app: &'a Text,
    ids: &'a IdMap<u64>,
    kept: &'a VecDeque<Kept>,
    before: u64,
) -> Result<(), AllocError>
    requires { All (λ p. is_proper p.2.now ≡ true) found.old.items }
    ensures changes { OnOk result (map keyed_change found.new.items ≡ map keyed_change found.old.items
        ++ numbered_ids (numbered before (map change_of kept.now.items)) app.now (entries ids.now)) }
    ensures proper { OnOk result (All (λ p. is_proper p.2.now ≡ true) found.new.items) }
{
    for (id, number) in ids {
        if let Some(change) = numbered(kept, before, *number) {
            found.push((app, id, change))?;
        }
    }
    Ok(())
}

/// The kept changes of the numbers that stand in places, with their keys and in the order of these.
pub(crate) fn numbered_in<'a>(
    places: &'a KeyMap<u64>,
    kept: &'a VecDeque<Kept>,
    before: u64,
    alloc: Global,
) -> Result<Vec<Latest<'a>>, AllocError>
    ensures changes { IfOk result (λ found. map keyed_change found.items ≡ numbered_keys (numbered before (map change_of kept.now.items)) (entries places.now)) }
    ensures proper { IfOk result (λ found. All (λ p. is_proper p.2.now ≡ true) found.items) }
{
    let mut found = Vec::with_capacity(alloc, places.len())?;
    for (app, ids) in places.apps() {
        add_numbered(&mut found, app, ids, kept, before)?;
    }
    Ok(found)
}

/// The changes without their keys, in their order.
pub(crate) fn without_keys<'a>(
    latest: &[Latest<'a>],
    alloc: Global,
) -> Result<Vec<&'a Change>, AllocError>
    requires { All (λ p. is_proper p.2.now ≡ true) latest.now }
    ensures changes { IfOk result (λ found. map (λ c. change_view c.now) found.items ≡ map (λ p. change_view p.2.now) latest.now) }
    ensures proper { IfOk result (λ found. All (λ c. is_proper c.now ≡ true) found.items) }
{
    let mut found = Vec::with_capacity(alloc, latest.len())?;
    for (_, _, change) in latest {
        found.push(*change)?;
    }
    Ok(found)
}
