//! What an `IdMap` keeps: the value of one id in itself, and those of more in a tree.
ghost use Rattle.std.specs.Prelude.{◌≡◌, [], ◌∷◌, cond, IfErr, IfOk, IsSome, IsTrue, None, OnErr, OnOk, Some, false, is_some, true};
ghost use Rattle.std.specs.BTreeMap as tree;
ghost use Rattle.std.specs.BTreeMap.{is_at};
ghost use Rattle.std.specs.FinMap as finmap;
ghost use Rattle.std.specs.FinMap.{from_entries};
ghost use Rattle.std.specs.Fn.{FnOnceReturnsAt};
ghost use Rattle.std.specs.Option.{option_flatten};
ghost use Rattle.disco_places.specs.Ids.{kept_in, map_in};
ghost use Rattle.disco_places.specs.KeyMaps.{Replaces, text_cmp};

use disco_values::Text;
use std::alloc::{AllocError, AllocFailed, Global};
use std::collections::BTreeMap;
use std::mem;

/// The ids of a map with their values.
#[derive(Drop)]
pub(crate) enum Ids<V> {
    /// None.
    Empty,
    /// One id, without memory of its own.
    One(Text, V),
    /// Ids in a tree, which stays a tree when ids go.
    Many(BTreeMap<Text, V>),
}

/// Whether two ids are the same.
pub(crate) fn is_same(id: &Text, own: &Text) -> bool
    ensures { result ≡ is_at (text_cmp id.now) own.now }
{
    id.cmp(own).is_eq()
}

/// Replaces the value of an id in a tree, where it has one, and answers the old one.
fn swap_in_tree<V: Drop>(ids: &mut BTreeMap<Text, V>, id: &Text, value: V) -> Option<V>
    ensures before { result ≡ tree.get text_cmp ids.old id.now }
    ensures there { IsSome (tree.get text_cmp ids.old id.now) → tree.Updates text_cmp ids.old ids.new id.now (Some value) }
    ensures none { tree.get text_cmp ids.old id.now ≡ None → ids.new ≡ ids.old }
{
    match ids.get_mut(id) {
        Some(place) => Some(mem::replace(place, value)),
        None => None,
    }
}

/// Replaces the value of an id, where it has one, and answers the old one.
pub(crate) fn swap<V: Drop>(ids: &mut Ids<V>, id: &Text, value: V) -> Option<V>
    ensures before { result ≡ finmap.get (map_in ids.old) id.now }
    ensures there { IsSome (finmap.get (map_in ids.old) id.now) → map_in ids.new ≡ finmap.insert (map_in ids.old) id.now value }
    ensures none { finmap.get (map_in ids.old) id.now ≡ None → map_in ids.new ≡ map_in ids.old }
{
    match ids {
        Ids::Empty => None,
        Ids::One(own, _) if !is_same(id, own) => None,
        Ids::One(_, place) => Some(mem::replace(place, value)),
        Ids::Many(ids) => swap_in_tree(ids, id, value),
    }
}

/// Applies a function to the value of a place, if it has one. Answers whether there is one.
fn change<V: Drop, F: FnOnce(&V) -> V + Drop>(place: &mut Option<V>, f: F) -> bool
    requires { F.IsAlwaysCallable f }
    ensures there { result ≡ is_some place.old }
    ensures changed { IsTrue result → (x : _) × (y : _) × (place.old ≡ Some x) × FnOnceReturnsAt F.FnOnce f x y × (place.new ≡ Some y) }
    ensures same { result ≡ false → place.new ≡ place.old }
{
    match place {
        Some(value) => {
            *value = f(value);
            true
        }
        None => false,
    }
}

/// Applies a function to the value of an id in a tree, if it has one. Answers whether there is one.
fn update_in_tree<V: Drop, F: FnOnce(&V) -> V + Drop>(
    ids: &mut BTreeMap<Text, Option<V>>,
    id: &Text,
    f: F,
) -> bool
    requires { F.IsAlwaysCallable f }
    ensures there { result ≡ is_some (option_flatten (tree.get text_cmp ids.old id.now)) }
    ensures changed { IsTrue result → (x : _) × (y : _) × (option_flatten (tree.get text_cmp ids.old id.now) ≡ Some x)
        × FnOnceReturnsAt F.FnOnce f x y × tree.Updates text_cmp ids.old ids.new id.now (Some (Some y)) }
    ensures same { result ≡ false → (q : _) → tree.get text_cmp ids.new q ≡ tree.get text_cmp ids.old q }
{
    match ids.get_mut(id) {
        Some(place) => change(place, f),
        None => false,
    }
}

/// Applies a function to the value of an id, if it has one. Answers whether there is one.
pub(crate) fn update<V: Drop, F: FnOnce(&V) -> V + Drop>(
    ids: &mut Ids<Option<V>>,
    id: &Text,
    f: F,
) -> bool
    requires { F.IsAlwaysCallable f }
    ensures there { result ≡ is_some (option_flatten (finmap.get (map_in ids.old) id.now)) }
    ensures changed { IsTrue result → Replaces (FnOnceReturnsAt F.FnOnce f) (map_in ids.old) (map_in ids.new) id.now }
    ensures same { result ≡ false → map_in ids.new ≡ map_in ids.old }
{
    match ids {
        Ids::Empty => false,
        Ids::One(own, _) if !is_same(id, own) => false,
        Ids::One(_, place) => change(place, f),
        Ids::Many(ids) => update_in_tree(ids, id, f),
    }
}

/// Removes an id from a tree. Answers whether it was there.
fn unset<V: Drop>(ids: &mut BTreeMap<Text, V>, id: &Text) -> bool
    ensures there { result ≡ is_some (tree.get text_cmp ids.old id.now) }
    ensures out { tree.Updates text_cmp ids.old ids.new id.now None }
{
    ids.remove(id).is_some()
}

/// A tree of one entry, which comes back where memory is refused.
fn tree_of<V: Drop>(
    alloc: Global,
    own: Text,
    value: V,
) -> Result<BTreeMap<Text, V>, AllocFailed<(Text, V)>>
    ensures ok { IfOk result (λ m. m.entries ≡ (own, value) ∷ []) }
    ensures err { IfErr result (λ e. e.value ≡ (own, value)) }
{
    let mut ids = BTreeMap::new(alloc);
    ids.insert(own, value)?;
    Ok(ids)
}

/// Puts an entry into a tree.
fn put<V: Drop>(ids: &mut BTreeMap<Text, V>, id: Text, value: V) -> Result<(), AllocError>
    ensures ok { OnOk result (tree.Updates text_cmp ids.old ids.new id (Some value)) }
    ensures err { OnErr result (ids.new.entries ≡ ids.old.entries) }
{
    ids.insert(id, value)?;
    Ok(())
}

/// Two entries in a tree. Where memory is refused the first one is left.
fn with_second<V: Drop>(
    alloc: Global,
    own: Text,
    old: V,
    id: Text,
    value: V,
) -> (Ids<V>, Result<(), AllocError>)
    ensures ok { OnOk result.1 (map_in result.0 ≡ finmap.insert (from_entries ((own, old) ∷ [])) id value) }
    ensures err { OnErr result.1 (kept_in result.0 ≡ (own, old) ∷ []) }
{
    match tree_of(alloc, own, old) {
        Ok(mut ids) => {
            let done = put(&mut ids, id, value);
            (Ids::Many(ids), done)
        }
        Err(back) => {
            let (own, old) = back.value;
            (Ids::One(own, old), Err(AllocError))
        }
    }
}

/// The entries with a value at an id. Where memory is refused they are as they were.
pub(crate) fn with_entry<V: Drop>(
    alloc: Global,
    ids: Ids<V>,
    id: Text,
    value: V,
) -> (Ids<V>, Result<(), AllocError>)
    ensures ok { OnOk result.1 (map_in result.0 ≡ finmap.insert (map_in ids) id value) }
    ensures err { OnErr result.1 (kept_in result.0 ≡ kept_in ids) }
{
    match ids {
        Ids::Empty => (Ids::One(id, value), Ok(())),
        Ids::One(own, old) => {
            if is_same(&id, &own) {
                (Ids::One(own, value), Ok(()))
            } else {
                with_second(alloc, own, old, id, value)
            }
        }
        Ids::Many(mut ids) => {
            let done = put(&mut ids, id, value);
            (Ids::Many(ids), done)
        }
    }
}

/// Removes an id. Answers whether it was there.
pub(crate) fn remove<V: Drop>(ids: &mut Ids<V>, id: &Text) -> bool
    ensures there { result ≡ is_some (finmap.get (map_in ids.old) id.now) }
    ensures out { map_in ids.new ≡ finmap.remove (map_in ids.old) id.now }
{
    match ids {
        Ids::Empty => false,
        Ids::One(own, _) => {
            let is_there = is_same(id, own);
            if is_there {
                drop(mem::replace(ids, Ids::Empty));
            }
            is_there
        }
        Ids::Many(ids) => unset(ids, id),
    }
}
