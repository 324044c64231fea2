//! Values by key.
ghost use Rattle.std.specs.Prelude.{◌≡◌, ℕ, IsSome, IsTrue, List, None, OnErr, OnOk, Some, false, is_some};
ghost use Rattle.std.specs.BTreeMap as tree;
ghost use Rattle.std.specs.BTreeMap.{IsOrdered};
ghost use Rattle.std.specs.FinMap as finmap;
ghost use Rattle.std.specs.Fn.{FnOnceReturnsAt};
ghost use Rattle.std.specs.Option.{option_copied, option_flatten};
ghost use Rattle.disco_places.specs.KeyMaps.{HasNoBareApp, Replaces, by_key, of_apps, text_cmp};

use crate::id_map::IdMap;
use disco_values::{Key, Text};
use std::alloc::{AllocError, Global};
use std::collections::BTreeMap;
use std::marker::Model;

/// A value for each of some keys. Those of each app are a map of their own, so a search compares the
/// names of apps, and then ids of one app alone.
#[derive(Drop)]
pub struct KeyMap<V> {
    alloc: Global,
    apps: BTreeMap<Text, IdMap<V>>,
    /// How many keys there are.
    len: usize,
}

impl<V> Model for KeyMap<V> {
    ghost use Rattle.std.specs.Prelude.{◌≡◌};
    ghost use Rattle.std.specs.BTreeMap.{IsOrdered};
    ghost use Rattle.std.specs.FinMap as finmap;
    ghost use Rattle.std.specs.FinMap.{FinMap, code};
    ghost use Rattle.disco_values.specs.contracts.key.Key as key;
    ghost use Rattle.disco_values.specs.Key.{key_cmp};
    ghost use Rattle.disco_places.specs.KeyMaps.{HasNoBareApp, by_key, text_cmp};

    ghost Value = { FinMap key_cmp V };

    ghost coded = { code key.the_row.coded V.code };

    ghost view = { λ m. by_key m.apps.entries };

    ghost invariant = { λ m. IsOrdered text_cmp m.apps × (m.len ≡ finmap.len (by_key m.apps.entries))
        × HasNoBareApp m.apps.entries };
}

/// Puts a value of a key in.
fn insert_in<V: Drop>(
    alloc: Global,
    apps: &mut BTreeMap<Text, IdMap<V>>,
    key: &Key,
    value: V,
) -> Result<(), AllocError>
    requires { IsOrdered text_cmp apps.old }
    ensures ok { OnOk result (by_key apps.new.entries ≡ finmap.insert (by_key apps.old.entries) key.now value) }
    ensures err { OnErr result (by_key apps.new.entries ≡ by_key apps.old.entries) }
    ensures ordered { IsOrdered text_cmp apps.new }
    ensures full { HasNoBareApp apps.old.entries → HasNoBareApp apps.new.entries }
{
    if let Some(ids) = apps.get_mut(&key.app) {
        return ids.insert(alloc, &key.id, value);
    }
    let mut ids = IdMap::new();
    ids.insert(alloc, &key.id, value)?;
    apps.insert(key.app.clone()?, ids)?;
    Ok(())
}

/// Replaces the value of a key, where it has one, and answers the old one.
fn swap_in<V: Drop>(apps: &mut BTreeMap<Text, IdMap<V>>, key: &Key, value: V) -> Option<V>
    requires { IsOrdered text_cmp apps.old }
    ensures before { result ≡ finmap.get (by_key apps.old.entries) key.now }
    ensures there { IsSome (finmap.get (by_key apps.old.entries) key.now) → by_key apps.new.entries ≡ finmap.insert (by_key apps.old.entries) key.now value }
    ensures none { finmap.get (by_key apps.old.entries) key.now ≡ None → by_key apps.new.entries ≡ by_key apps.old.entries }
    ensures ordered { IsOrdered text_cmp apps.new }
    ensures full { HasNoBareApp apps.old.entries → HasNoBareApp apps.new.entries }
{
    match apps.get_mut(&key.app) {
        Some(ids) => ids.swap(&key.id, value),
        None => None,
    }
}

/// Applies a function to the value of a key, if it has one. Answers whether there is one.
fn update_in<V: Drop, F: FnOnce(&V) -> V + Drop>(
    apps: &mut BTreeMap<Text, IdMap<Option<V>>>,
    key: &Key,
    f: F,
) -> bool
    requires ordered { IsOrdered text_cmp apps.old }
    requires callable { F.IsAlwaysCallable f }
    ensures there { result ≡ is_some (option_flatten (finmap.get (by_key apps.old.entries) key.now)) }
    ensures changed { IsTrue result →
        Replaces (FnOnceReturnsAt F.FnOnce f) (by_key apps.old.entries) (by_key apps.new.entries) key.now }
    ensures same { result ≡ false → by_key apps.new.entries ≡ by_key apps.old.entries }
    ensures ordered { IsOrdered text_cmp apps.new }
    ensures full { HasNoBareApp apps.old.entries → HasNoBareApp apps.new.entries }
{
    match apps.get_mut(&key.app) {
        Some(ids) => ids.update(&key.id, f),
        None => false,
    }
}

/// Removes the value of a key. Answers whether it had one, and whether its app is left without an id.
fn close_in<V: Drop>(apps: &mut BTreeMap<Text, IdMap<V>>, key: &Key) -> (bool, bool)
    requires { IsOrdered text_cmp apps.old }
    ensures there { result.0 ≡ is_some (finmap.get (by_key apps.old.entries) key.now) }
    ensures closed { by_key apps.new.entries ≡ finmap.remove (by_key apps.old.entries) key.now }
    ensures bare { IsTrue result.1 → tree.get text_cmp apps.new key.now.app ≡ Some finmap.empty }
    ensures full { result.1 ≡ false → HasNoBareApp apps.old.entries → HasNoBareApp apps.new.entries }
    ensures others { HasNoBareApp apps.old.entries → (a : List ℕ) → tree.get text_cmp apps.new a ≡ Some finmap.empty → a ≡ key.now.app }
    ensures ordered { IsOrdered text_cmp apps.new }
{
    match apps.get_mut(&key.app) {
        Some(ids) => {
            let had = ids.remove(&key.id);
            (had, ids.is_empty())
        }
        None => (false, false),
    }
}

/// Removes an app.
fn unset<V: Drop>(apps: &mut BTreeMap<Text, IdMap<V>>, app: &Text)
    ensures updates { tree.Updates text_cmp apps.old apps.new app.now None }
    ensures ordered { IsOrdered text_cmp apps.new }
{
    apps.remove(app);
}

/// Removes the value of a key, and the app with its last id. Answers whether the key had one.
fn take_out<V: Drop>(apps: &mut BTreeMap<Text, IdMap<V>>, key: &Key) -> bool
    requires { IsOrdered text_cmp apps.old }
    ensures there { result ≡ is_some (finmap.get (by_key apps.old.entries) key.now) }
    ensures closed { by_key apps.new.entries ≡ finmap.remove (by_key apps.old.entries) key.now }
    ensures ordered { IsOrdered text_cmp apps.new }
    ensures full { HasNoBareApp apps.old.entries → HasNoBareApp apps.new.entries }
{
    let (had, bare) = close_in(apps, key);
    if bare {
        unset(apps, &key.app);
    }
    had
}

impl<V: Drop> KeyMap<V> {
    /// No keys.
    pub fn new(alloc: Global) -> KeyMap<V>
        ensures { result ≡ finmap.empty }
    {
        KeyMap {
            alloc,
            apps: BTreeMap::new(alloc),
            len: 0,
        }
    }

    /// How many keys there are.
    pub fn len(&self) -> usize
        ensures { result ≡ finmap.len self.now }
    {
        self.len
    }

    /// The value of a key.
    pub fn get(&self, key: &Key) -> Option<&V>
        ensures { option_copied result ≡ finmap.get self.now key.now }
    {
        self.get_at(&key.app, &key.id)
    }

    /// The value of the key with this app and this id.
    pub fn get_at(&self, app: &Text, id: &Text) -> Option<&V>
        ensures { option_copied result ≡ finmap.get self.now (record { app = app.now; id = id.now }) }
    {
        match self.apps.get(app) {
            Some(ids) => ids.get(id),
            None => None,
        }
    }

    /// Whether a key has a value.
    pub fn has(&self, key: &Key) -> bool
        ensures { result ≡ is_some (finmap.get self.now key.now) }
    {
        match self.apps.get(&key.app) {
            Some(ids) => ids.has(&key.id),
            None => false,
        }
    }

    /// The values of each app, in the order of the apps' names.
    pub fn apps(&self) -> &BTreeMap<Text, IdMap<V>>
        ensures { of_apps result.now.entries ≡ finmap.entries self.now }
    {
        &self.apps
    }

    /// Puts a value in, where its key has none.
    ///
    /// # Errors
    ///
    /// `AllocError` where memory is refused, and only where the key has no value. The values are
    /// then as they were.
    pub fn or_insert(&mut self, key: &Key, value: V) -> Result<(), AllocError>
        ensures there { IsSome (finmap.get self.old key.now) → self.new ≡ self.old }
        ensures absent { OnOk result (finmap.get self.old key.now ≡ None → self.new ≡ finmap.insert self.old key.now value) }
        ensures err { OnErr result (self.new ≡ self.old) }
        ensures needed { OnErr result (finmap.get self.old key.now ≡ None) }
    {
        if self.has(key) {
            return Ok(());
        }
        let Some(len) = self.len.checked_add(1) else {
            return Err(AllocError);
        };
        insert_in(self.alloc, &mut self.apps, key, value)?;
        self.len = len;
        Ok(())
    }

    /// Replaces the value of a key, where it has one. Takes no memory.
    pub fn set(&mut self, key: &Key, value: V)
        ensures there { IsSome (finmap.get self.old key.now) → self.new ≡ finmap.insert self.old key.now value }
        ensures none { finmap.get self.old key.now ≡ None → self.new ≡ self.old }
    {
        let _before = self.swap(key, value);
    }

    /// Replaces the value of a key, where it has one, and answers the old one. Takes no memory.
    pub fn swap(&mut self, key: &Key, value: V) -> Option<V>
        ensures before { result ≡ finmap.get self.old key.now }
        ensures there { IsSome (finmap.get self.old key.now) → self.new ≡ finmap.insert self.old key.now value }
        ensures none { finmap.get self.old key.now ≡ None → self.new ≡ self.old }
    {
        swap_in(&mut self.apps, key, value)
    }

    /// Removes the value of a key. Takes no memory.
    pub fn remove(&mut self, key: &Key)
        ensures { self.new ≡ finmap.remove self.old key.now }
    {
        if take_out(&mut self.apps, key) {
            self.len -= 1;
        }
    }
}

impl<V: Drop> KeyMap<Option<V>> {
    /// Applies a function to the value of a key, if it has one. Answers whether there is one. Takes no
    /// memory of its own.
    pub(crate) fn update<F: FnOnce(&V) -> V + Drop>(&mut self, key: &Key, f: F) -> bool
        requires { F.IsAlwaysCallable f }
        ensures there { result ≡ is_some (option_flatten (finmap.get self.old key.now)) }
        ensures changed { IsTrue result → Replaces (FnOnceReturnsAt F.FnOnce f) self.old self.new key.now }
        ensures same { result ≡ false → self.new ≡ self.old }
    {
        update_in(&mut self.apps, key, f)
    }
}
