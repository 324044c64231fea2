//! The leases of all instances.
ghost use Rattle.std.specs.Prelude.{◌≡◌, ◌↔◌, ◌<◌, [], IfErr, IfOk, IsTrue, None, OnErr, OnOk, Some, Err, false, length, map, option_map, true};
ghost use Rattle.disco_values.specs.declared.fault.Fault.TheVariants.{NotFound, OutOfMemory};
ghost use Rattle.std.specs.FinMap.{keys};
ghost use Rattle.disco_lease.specs.Due.{due_at, is_overdue, lets_expire, taken};
ghost use Rattle.disco_lease.specs.Leases.{HasPlace, IsFilled, IsSameLeases, KeepsOthers, KeepsPlaces, Sets, counted, extended, lease_at, marked, no_leases};

use crate::lease::Lease;
use crate::minute::{Minute, most_taken};
use crate::overdue::has_run_out;
use crate::places::Places;
use disco_values::{Fault, Key};
use std::alloc::Global;
use std::marker::Model;

/// The leases of all instances, how many renewals were accepted since the last closing of a minute,
/// and what that closing kept. Moments are in milliseconds, durations in seconds.
#[derive(Drop)]
pub struct LeaseBook {
    places: Places,
    /// How many renewals were accepted since the last closing of a minute.
    renewals: u64,
    /// What the last closing kept.
    closed: Minute,
}

impl Model for LeaseBook {
    ghost use Rattle.std.specs.Coded.{codes};
    ghost use Rattle.std.specs.FinMap.{code};
    ghost use Rattle.disco_lease.specs.Leases.{Leases};

    ghost Value = { Leases };

    ghost coded = { Prim.hlevel (codes, code) };

    ghost view = { λ b. record { places = b.places; renewals = b.renewals; closed = b.closed } };
}

impl LeaseBook {
    /// An empty book: no leases, and no renewals so far.
    pub fn new(alloc: Global) -> LeaseBook
        ensures { result ≡ no_leases }
    {
        LeaseBook {
            places: Places::new(alloc),
            renewals: 0,
            closed: Minute::none(),
        }
    }

    /// Makes a place for a key, so that its lease can be registered. No answer shows a place
    /// without a lease, and `sweep` gives it back.
    ///
    /// # Errors
    ///
    /// `OutOfMemory` alone.
    pub fn ready(&mut self, key: &Key) -> Result<(), Fault>
        ensures same { IsSameLeases self.old self.new }
        ensures place { OnOk result (HasPlace self.new key.now) }
        ensures places { KeepsPlaces self.old self.new }
        ensures others { KeepsOthers key.now self.old self.new }
        ensures memory { IfErr result (λ e. e ≡ OutOfMemory) }
    {
        self.places.make(key)?;
        Ok(())
    }

    /// Gives the key a new lease of `duration_secs` seconds, whose mark is `now`, in milliseconds.
    /// Takes no memory.
    pub fn register(&mut self, key: &Key, duration_secs: u32, now: u64)
        requires { HasPlace self.old key.now }
        ensures leases { Sets key.now (Some (marked duration_secs now)) self.old self.new }
        ensures others { KeepsOthers key.now self.old self.new }
        ensures renewals { self.new.renewals ≡ self.old.renewals }
        ensures closed { self.new.closed ≡ self.old.closed }
    {
        self.places.put(key, Lease::marked(duration_secs, now));
    }

    /// Gives the key a new lease of `duration_secs` seconds, whose mark is one duration after `now`, in
    /// milliseconds: as `register` and then `touch`, by one search. Takes no memory.
    pub fn register_touched(&mut self, key: &Key, duration_secs: u32, now: u64)
        requires { HasPlace self.old key.now }
        ensures leases { Sets key.now (Some (extended now (marked duration_secs now))) self.old self.new }
        ensures others { KeepsOthers key.now self.old self.new }
        ensures renewals { self.new.renewals ≡ self.old.renewals }
        ensures closed { self.new.closed ≡ self.old.closed }
    {
        let lease = Lease::marked(duration_secs, now);
        self.places.put(key, lease.extended(now));
    }

    /// Moves the mark of the key's lease to one duration after `now`, in milliseconds, and counts a
    /// renewal. Takes no memory.
    ///
    /// # Errors
    ///
    /// `NotFound` alone, exactly where the key has no lease. The leases are then as they were.
    pub fn renew(&mut self, key: &Key, now: u64) -> Result<(), Fault>
        ensures missing { (result ≡ Err NotFound) ↔ (lease_at self.old key.now ≡ None) }
        ensures error { IfErr result (λ e. e ≡ NotFound) }
        ensures err { OnErr result (self.new ≡ self.old) }

        ensures leases { OnOk result (Sets key.now (option_map (extended now) (lease_at self.old key.now)) self.old self.new) }
        ensures others { KeepsOthers key.now self.old self.new }
        ensures renewals { OnOk result (self.new.renewals ≡ counted self.old.renewals) }
        ensures closed { self.new.closed ≡ self.old.closed }
    {
        self.touch(key, now)?;
        self.renewals = self.renewals.saturating_add(1);
        Ok(())
    }

    /// Moves the mark of the key's lease to one duration after `now`, in milliseconds, and counts no
    /// renewal. Takes no memory.
    ///
    /// # Errors
    ///
    /// `NotFound` alone, exactly where the key has no lease. The leases are then as they were.
    pub fn touch(&mut self, key: &Key, now: u64) -> Result<(), Fault>
        ensures missing { (result ≡ Err NotFound) ↔ (lease_at self.old key.now ≡ None) }
        ensures error { IfErr result (λ e. e ≡ NotFound) }
        ensures err { OnErr result (self.new ≡ self.old) }

        ensures leases { OnOk result (Sets key.now (option_map (extended now) (lease_at self.old key.now)) self.old self.new) }
        ensures others { KeepsOthers key.now self.old self.new }
        ensures renewals { self.new.renewals ≡ self.old.renewals }
        ensures closed { self.new.closed ≡ self.old.closed }
    {
        if self.places.extend(key, now) {
            Ok(())
        } else {
            Err(Fault::NotFound)
        }
    }

    /// Removes the key's lease and its place. Takes no memory.
    ///
    /// # Errors
    ///
    /// `NotFound` alone, exactly where the key has no lease. The leases are then as they were.
    pub fn cancel(&mut self, key: &Key) -> Result<(), Fault>
        ensures missing { (result ≡ Err NotFound) ↔ (lease_at self.old key.now ≡ None) }
        ensures error { IfErr result (λ e. e ≡ NotFound) }
        ensures err { OnErr result (self.new ≡ self.old) }

        ensures leases { OnOk result (Sets key.now None self.old self.new) }
        ensures gone { OnOk result (HasPlace self.new key.now → ⊥) }
        ensures others { KeepsOthers key.now self.old self.new }
        ensures renewals { self.new.renewals ≡ self.old.renewals }
        ensures closed { self.new.closed ≡ self.old.closed }
    {
        if self.places.lease(key).is_none() {
            return Err(Fault::NotFound);
        }
        self.places.close(key);
        Ok(())
    }

    /// Removes the key's lease, if it has one, and its place, by one search. Takes no memory.
    pub fn end(&mut self, key: &Key)
        ensures leases { Sets key.now None self.old self.new }
        ensures gone { HasPlace self.new key.now → ⊥ }
        ensures others { KeepsOthers key.now self.old self.new }
        ensures renewals { self.new.renewals ≡ self.old.renewals }
        ensures closed { self.new.closed ≡ self.old.closed }
    {
        self.places.close(key);
    }

    /// Gives back the place of a key where it has no lease. Takes no memory.
    pub fn sweep(&mut self, key: &Key)
        ensures same { IsSameLeases self.old self.new }
        ensures swept { IsFilled key.now self.new }
        ensures others { KeepsOthers key.now self.old self.new }
    {
        if self.places.lease(key).is_some() {
            return;
        }
        self.places.close(key);
    }

    /// Closes a minute in which so many instances are held: keeps that number and how many renewals
    /// were accepted since the last closing, and counts anew. Answers the renewals kept. Takes no
    /// memory.
    pub fn close_minute(&mut self, held: u64) -> u64
        ensures renewals { result ≡ self.old.renewals }
        ensures closed { self.new.closed ≡ record { renewals = self.old.renewals; instances = held } }
        ensures anew { self.new.renewals ≡ 0 }
        ensures places { self.new.places ≡ self.old.places }
    {
        let renewals = self.renewals;
        self.closed = Minute {
            renewals,
            instances: held,
        };
        self.renewals = 0;
        renewals
    }

    /// The keys that one run of expiry takes at a moment in milliseconds, where `held` instances are
    /// held: those whose leases have run out, the earliest first, then by key. It leaves at least 85 of
    /// 100 instances, rounded down. It takes none where too few renewals came in the minute that was
    /// closed last. A run costs a pass over all leases, and a second one where it takes any.
    ///
    /// # Errors
    ///
    /// `OutOfMemory` alone, and only where there is such a key.
    pub fn due(&self, alloc: Global, now: u64, held: u64) -> Result<Vec<Key>, Fault>
        ensures keys { IfOk result (λ found. found.items ≡ taken self.now.closed (due_at self.now) (keys self.now.places) held now) }
        ensures memory { IfErr result (λ e. e ≡ OutOfMemory) }
        ensures refused { OnErr result (0 < length (taken self.now.closed (due_at self.now) (keys self.now.places) held now)) }
    {
        if self.takes_none(now, held) {
            return Ok(Vec::new(alloc));
        }
        let mut found = self.places.overdue(alloc, now)?;
        found.truncate(most_taken(held) as usize);
        Ok(found)
    }

    /// Whether the lease of a key has run out by a moment in milliseconds. At its due moment it hasn't,
    /// and where the key has no lease none has. Takes no memory.
    pub fn is_overdue(&self, key: &Key, now: u64) -> bool
        ensures { result ≡ is_overdue now (due_at self.now key.now) }
    {
        has_run_out(&self.places.lease(key), now)
    }

    /// Whether a run at a moment takes no lease. Takes no memory.
    fn takes_none(&self, now: u64, held: u64) -> bool
        ensures none { IsTrue result → taken self.now.closed (due_at self.now) (keys self.now.places) held now ≡ [] }
        ensures some { result ≡ false → lets_expire self.now.closed ≡ true
            × (0 < length (taken self.now.closed (due_at self.now) (keys self.now.places) held now)) }
    {
        if held == 0 {
            return true;
        }
        if !self.closed.lets_expire() {
            return true;
        }
        !self.places.any_overdue(now)
    }
}
