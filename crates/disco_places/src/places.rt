//! Places by key, which may be empty.
ghost use Rattle.std.specs.Prelude.{◌≡◌, IsSome, IsTrue, None, OnErr, OnOk, Some, false, is_some};
ghost use Rattle.std.specs.FinMap as finmap;
ghost use Rattle.std.specs.Fn.{FnOnceReturnsAt};
ghost use Rattle.std.specs.Option.{option_copied, option_flatten};
ghost use Rattle.disco_places.specs.KeyMaps.{Replaces, of_apps};

use crate::id_map::IdMap;
use crate::key_map::KeyMap;
use disco_values::{Key, Text};
use std::alloc::{AllocError, Global};
use std::collections::BTreeMap;
use std::marker::Model;

/// A place for each of some keys, with a value or empty. A value goes into a place that is there
/// without memory.
#[derive(Drop)]
pub struct Places<V> {
    places: KeyMap<Option<V>>,
}

impl<V> Model for Places<V> {
    ghost use Rattle.std.specs.Prelude.{Option};
    ghost use Rattle.std.specs.FinMap.{FinMap, code};
    ghost use Rattle.std.specs.Coded.{coded_option};
    ghost use Rattle.disco_values.specs.contracts.key.Key as key;
    ghost use Rattle.disco_values.specs.Key.{key_cmp};

    ghost Value = { FinMap key_cmp (Option V) };

    ghost coded = { code key.the_row.coded (coded_option V.code) };

    ghost view = { λ p. p.places };
}

impl<V: Drop> Places<V> {
    /// No places.
    pub fn new(alloc: Global) -> Places<V>
        ensures { result ≡ finmap.empty }
    {
        Places {
            places: KeyMap::new(alloc),
        }
    }

    /// How many places there are.
    pub fn len(&self) -> usize
        ensures { result ≡ finmap.len self.now }
    {
        self.places.len()
    }

    /// The value in the place of a key.
    pub fn get(&self, key: &Key) -> Option<&V>
        ensures { option_copied result ≡ option_flatten (finmap.get self.now key.now) }
    {
        self.get_at(&key.app, &key.id)
    }

    /// The value in the place of the key with this app and this id.
    pub fn get_at(&self, app: &Text, id: &Text) -> Option<&V>
        ensures { option_copied result ≡ option_flatten (finmap.get self.now (record { app = app.now; id = id.now })) }
    {
        match self.places.get_at(app, id) {
            Some(place) => place.as_ref(),
            None => None,
        }
    }

    /// The places of each app, in the order of the apps' names.
    pub fn apps(&self) -> &BTreeMap<Text, IdMap<Option<V>>>
        ensures { of_apps result.now.entries ≡ finmap.entries self.now }
    {
        self.places.apps()
    }

    /// Makes an empty place for a key where it has none.
    ///
    /// # Errors
    ///
    /// `AllocError` where memory is refused. The places are then as they were.
    pub fn make(&mut self, key: &Key) -> Result<(), AllocError>
        ensures ok { OnOk result (self.new ≡ finmap.insert self.old key.now (option_flatten (finmap.get self.old key.now))) }
        ensures err { OnErr result (self.new ≡ self.old) }
    {
        self.places.or_insert(key, None)
    }

    /// Puts a value into the place of a key, where it has one.
    pub fn put(&mut self, key: &Key, value: V)
        ensures there { IsSome (finmap.get self.old key.now) → self.new ≡ finmap.insert self.old key.now (Some value) }
        ensures none { finmap.get self.old key.now ≡ None → self.new ≡ self.old }
    {
        self.places.set(key, Some(value));
    }

    /// Applies a function to the value in the place of a key, if there is one. Answers whether there is
    /// one. Takes no memory of its own.
    pub fn update<F: FnOnce(&V) -> V + Drop>(&mut self, key: &Key, f: F) -> bool
        requires { F.IsAlwaysCallable f }
        ensures there { result ≡ is_some (option_flatten (finmap.get self.old key.now)) }
        ensures changed { IsTrue result → Replaces (FnOnceReturnsAt F.FnOnce f) self.old self.new key.now }
        ensures same { result ≡ false → self.new ≡ self.old }
    {
        self.places.update(key, f)
    }

    /// Removes the place of a key.
    pub fn close(&mut self, key: &Key)
        ensures { self.new ≡ finmap.remove self.old key.now }
    {
        self.places.remove(key);
    }
}
