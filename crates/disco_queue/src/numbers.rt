//! The number of each key's last change, in places that may be empty.
ghost use Rattle.std.specs.Prelude.{◌≡◌, IfOk, None, OnErr, OnOk, map, true};
ghost use Rattle.std.specs.FinMap.{empty, get, values};
ghost use Rattle.std.specs.List.{All};
ghost use Rattle.disco_history.specs.Change.{is_proper, change_view};
ghost use Rattle.disco_history.specs.Mentions.{delta};
ghost use Rattle.disco_history.specs.Slots.{AltersAt, opened, written};
ghost use Rattle.disco_queue.specs.Latest.{AreOfKeys};
ghost use Rattle.disco_queue.specs.Numbers.{AreNumbered, number_in, number_kept};
ghost use Rattle.disco_queue.specs.Seen.{change_of};

use crate::kept::Kept;
use crate::latest::{Latest, numbered_in};
use disco_places::KeyMap;
use disco_values::Key;
use std::alloc::{AllocError, Global};
use std::collections::VecDeque;
use std::marker::Model;

/// A place for each of some keys: the number of the last kept change of the key, counted from 1 at the
/// beginning of the history, or 0 where the place is empty.
#[derive(Drop)]
pub(crate) struct Numbers {
    places: KeyMap<u64>,
}

impl Model for Numbers {
    ghost use Rattle.std.specs.Prelude.{ℕ};
    ghost use Rattle.std.specs.Coded.{codes};
    ghost use Rattle.std.specs.FinMap.{FinMap, code};
    ghost use Rattle.disco_values.specs.Key.{key_cmp};

    ghost Value = { FinMap key_cmp ℕ };

    ghost coded = { Prim.hlevel (codes, code) };

    ghost view = { λ n. n.places };
}

impl Numbers {
    pub(crate) fn new(alloc: Global) -> Numbers
        ensures { result ≡ empty }
    {
        Numbers {
            places: KeyMap::new(alloc),
        }
    }

    /// Makes an empty place for a key, where there is none.
    pub(crate) fn open(&mut self, key: &Key) -> Result<(), AllocError>
        ensures ok { OnOk result (AltersAt (opened 0) key.now self.old self.new) }
        ensures err { OnErr result (self.new ≡ self.old) }
        ensures needed { OnErr result (get self.old key.now ≡ None) }
    {
        self.places.or_insert(key, 0)
    }

    /// Puts a number into the place of a key, where it has one. Answers the old number, 0 where there
    /// was none.
    pub(crate) fn put(&mut self, key: &Key, number: u64) -> u64
        ensures put { AltersAt (written number) key.now self.old self.new }
        ensures before { result ≡ number_in self.old key.now }
    {
        match self.places.swap(key, number) {
            Some(before) => before,
            None => 0,
        }
    }

    /// Removes the place of a key, where it has this number.
    pub(crate) fn close(&mut self, key: &Key, number: u64)
        ensures { AltersAt (number_kept number) key.now self.old self.new }
    {
        if self.places.get(key).copied() == Some(number) {
            self.places.remove(key);
        }
    }

    /// Each key with its last kept change, in the order of the keys. The numbers have to be those of
    /// the kept changes, which come behind `before` others.
    pub(crate) fn last_changes<'a>(
        &'a self,
        kept: &'a VecDeque<Kept>,
        before: u64,
        alloc: Global,
    ) -> Result<Vec<Latest<'a>>, AllocError>
        ensures last { AreNumbered self.now before (map change_of kept.now.items)
            → IfOk result (λ found. map (λ p. change_view p.2.now) found.items ≡ values (delta (map change_of kept.now.items) 0)) }
        ensures keys { AreNumbered self.now before (map change_of kept.now.items) → IfOk result (λ found. AreOfKeys found.items) }
        ensures proper { IfOk result (λ found. All (λ p. is_proper p.2.now ≡ true) found.items) }
    {
        numbered_in(&self.places, kept, before, alloc)
    }
}
