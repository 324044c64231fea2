//! Values by id.
ghost use Rattle.std.specs.Prelude.{◌≡◌, ◌↔◌, IsSome, IsTrue, None, OnErr, OnOk, Some, false, is_some};
ghost use Rattle.std.specs.FinMap as finmap;
ghost use Rattle.std.specs.Fn.{FnOnceReturnsAt};
ghost use Rattle.std.specs.Option.{option_copied, option_flatten};
ghost use Rattle.disco_places.specs.KeyMaps.{Replaces};

use crate::ids::{Ids, is_same, remove, swap, update, with_entry};
use crate::iter::Iter;
use disco_values::Text;
use std::alloc::{AllocError, Global};
use std::marker::Model;
use std::mem;

/// A value for each of some ids of one app. One id alone takes no memory but its own.
#[derive(Drop)]
pub struct IdMap<V> {
    ids: Ids<V>,
}

impl<V> Model for IdMap<V> {
    ghost use Rattle.std.specs.FinMap.{FinMap, code};
    ghost use Rattle.disco_values.specs.contracts.text.Text as text;
    ghost use Rattle.disco_places.specs.Ids.{map_in};
    ghost use Rattle.disco_places.specs.KeyMaps.{text_cmp};

    ghost Value = { FinMap text_cmp V };

    ghost coded = { code text.the_row.coded V.code };

    ghost view = { λ m. map_in m.ids };
}

impl<V: Drop> IdMap<V> {
    pub(crate) fn new() -> IdMap<V>
        ensures { result ≡ finmap.empty }
    {
        IdMap { ids: Ids::Empty }
    }

    pub(crate) fn is_empty(&self) -> bool
        ensures { IsTrue result ↔ (self.now ≡ finmap.empty) }
    {
        match &self.ids {
            Ids::Empty => true,
            Ids::One(_, _) => false,
            Ids::Many(ids) => ids.is_empty(),
        }
    }

    /// The value of an id.
    pub fn get(&self, id: &Text) -> Option<&V>
        ensures { option_copied result ≡ finmap.get self.now id.now }
    {
        match &self.ids {
            Ids::Empty => None,
            Ids::One(own, value) => { if is_same(id, own) { Some(value) } else { None } }
            Ids::Many(ids) => ids.get(id),
        }
    }

    /// Whether an id has a value.
    pub(crate) fn has(&self, id: &Text) -> bool
        ensures { result ≡ is_some (finmap.get self.now id.now) }
    {
        self.get(id).is_some()
    }

    /// The ids and their values, in the order of the ids.
    pub fn iter(&self) -> Iter<'_, V>
        ensures { result ≡ finmap.entries self.now }
    {
        Iter::new(&self.ids)
    }

    /// Puts a value of an id in.
    ///
    /// # Errors
    ///
    /// `AllocError` where memory is refused. The values are then as they were.
    pub(crate) fn insert(&mut self, alloc: Global, id: &Text, value: V) -> Result<(), AllocError>
        ensures ok { OnOk result (self.new ≡ finmap.insert self.old id.now value) }
        ensures err { OnErr result (self.new ≡ self.old) }
    {
        let own = id.clone()?;
        let before = mem::replace(&mut self.ids, Ids::Empty);
        let (after, done) = with_entry(alloc, before, own, value);
        drop(mem::replace(&mut self.ids, after));
        done
    }

    /// Replaces the value of an id, where it has one, and answers the old one. Takes no memory.
    pub(crate) fn swap(&mut self, id: &Text, value: V) -> Option<V>
        ensures before { result ≡ finmap.get self.old id.now }
        ensures there { IsSome (finmap.get self.old id.now) → self.new ≡ finmap.insert self.old id.now value }
        ensures none { finmap.get self.old id.now ≡ None → self.new ≡ self.old }
    {
        swap(&mut self.ids, id, value)
    }

    /// Removes the value of an id, and answers whether it had one. Takes no memory.
    pub(crate) fn remove(&mut self, id: &Text) -> bool
        ensures there { result ≡ is_some (finmap.get self.old id.now) }
        ensures out { self.new ≡ finmap.remove self.old id.now }
    {
        remove(&mut self.ids, id)
    }
}

impl<V: Drop> IdMap<Option<V>> {
    /// Applies a function to the value of an id, if it has one. Answers whether there is one. Takes no
    /// memory of its own.
    pub(crate) fn update<F: FnOnce(&V) -> V + Drop>(&mut self, id: &Text, f: F) -> bool
        requires { F.IsAlwaysCallable f }
        ensures there { result ≡ is_some (option_flatten (finmap.get self.old id.now)) }
        ensures changed { IsTrue result → Replaces (FnOnceReturnsAt F.FnOnce f) self.old self.new id.now }
        ensures same { result ≡ false → self.new ≡ self.old }
    {
        update(&mut self.ids, id, f)
    }
}

impl<'a, V: Drop> IntoIterator for &'a IdMap<V> {
    type Item = (&'a Text, &'a V);

    type IntoIter = Iter<'a, V>;

    ghost into_iter_gives = { λ m r. r ≡ finmap.entries m.now };

    fn into_iter(self) -> Iter<'a, V> {
        self.iter()
    }
}
