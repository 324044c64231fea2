//! Leases by key, in places that may be empty.
ghost use Rattle.std.specs.Prelude.{◌≡◌, ◌<◌, [], IfOk, IsSome, IsTrue, None, OnErr, OnOk, Some, false, is_some, length, map, option_map};
ghost use Rattle.std.specs.FinMap as finmap;
ghost use Rattle.std.specs.Option.{option_flatten};
ghost use Rattle.disco_lease.specs.Due.{due_moment, overdue};
ghost use Rattle.disco_lease.specs.Leases.{extended};
ghost use Rattle.disco_lease.specs.Seen.{plain_lease};

use crate::lease::Lease;
use crate::overdue::{any_overdue, overdue_keys};
use disco_values::Key;
use std::alloc::{AllocError, Global};
use std::marker::Model;

/// A place for each of some keys, with a lease or empty.
#[derive(Drop)]
pub(crate) struct Places {
    places: disco_places::Places<Lease>,
}

impl Model for Places {
    ghost use Rattle.std.specs.Prelude.{Option};
    ghost use Rattle.std.specs.Coded.{codes};
    ghost use Rattle.std.specs.FinMap.{FinMap, code};
    ghost use Rattle.disco_values.specs.Key.{key_cmp};
    ghost use Rattle.disco_lease.specs.Leases as leases;
    ghost use Rattle.disco_lease.specs.Seen.{seen};

    ghost Value = { FinMap key_cmp (Option leases.LeaseEntry) };

    ghost coded = { Prim.hlevel (codes, code) };

    ghost view = { λ p. seen p.places };
}

impl Places {
    pub(crate) fn new(alloc: Global) -> Places
        ensures { result ≡ finmap.empty }
    {
        Places {
            places: disco_places::Places::new(alloc),
        }
    }

    pub(crate) fn lease(&self, key: &Key) -> Option<Lease>
        ensures { option_map plain_lease result ≡ option_flatten (finmap.get self.now key.now) }
    {
        self.places.get(key).copied()
    }

    /// Makes an empty place for a key where it has none.
    pub(crate) fn make(&mut self, key: &Key) -> Result<(), AllocError>
        ensures ok { OnOk result (self.new ≡ finmap.insert self.old key.now (option_flatten (finmap.get self.old key.now))) }
        ensures err { OnErr result (self.new ≡ self.old) }
    {
        self.places.make(key)
    }

    /// Puts a lease into the place of a key.
    pub(crate) fn put(&mut self, key: &Key, lease: Lease)
        requires { IsSome (finmap.get self.old key.now) }
        ensures { self.new ≡ finmap.insert self.old key.now (Some (plain_lease lease)) }
    {
        self.places.put(key, lease);
    }

    /// Moves the lease of a key, if it has one, to one duration from now. Answers whether it has
    /// one.
    pub(crate) fn extend(&mut self, key: &Key, now: u64) -> bool
        ensures there { result ≡ is_some (option_flatten (finmap.get self.old key.now)) }
        ensures moved { IsTrue result → self.new ≡ finmap.insert self.old key.now (option_map (extended now) (option_flatten (finmap.get self.old key.now))) }
        ensures same { result ≡ false → self.new ≡ self.old }
    {
        self.places.update(key, |lease| lease.extended(now))
    }

    /// Removes the place of a key.
    pub(crate) fn close(&mut self, key: &Key)
        ensures { self.new ≡ finmap.remove self.old key.now }
    {
        self.places.close(key);
    }

    /// The keys of the leases that have run out by a moment, by due moment and then by key. Costs a
    /// pass over all leases, and a search in those that have run out for each of them.
    pub(crate) fn overdue(&self, alloc: Global, now: u64) -> Result<Vec<Key>, AllocError>
        ensures { IfOk result (λ v. v.items ≡
            map (λ d. d.1) (finmap.keys (overdue (λ k. option_map due_moment (option_flatten (finmap.get self.now k))) (finmap.keys self.now) now))) }
    {
        overdue_keys(alloc, self.places.apps(), now)
    }

    /// Whether a lease has run out by a moment. Takes no memory.
    pub(crate) fn any_overdue(&self, now: u64) -> bool
        ensures some { IsTrue result → 0 < length (finmap.keys
            (overdue (λ k. option_map due_moment (option_flatten (finmap.get self.now k))) (finmap.keys self.now) now)) }
        ensures none { result ≡ false → finmap.keys (overdue (λ k.
            option_map due_moment (option_flatten (finmap.get self.now k))) (finmap.keys self.now) now) ≡ [] }
    {
        any_overdue(self.places.apps(), now)
    }
}
