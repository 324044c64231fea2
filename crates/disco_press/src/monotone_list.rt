//! A list that only grows and that exists in proofs alone, and its beginnings.

ghost use Rattle.std.specs.Prelude.{◌≡◌, ◌≤◌, ℕ, [], ◌∷◌, ◌++◌, length};
ghost use mathlib.Core.List.{IsPrefix};
ghost use base.Stored.{coded_list};
ghost use denote.Sharing.{said};
ghost use Rattle.std.specs.Prelude.{List};
ghost use Rattle.disco_press.specs.MonotoneLists.{list_owns, witness_owns};

use std::marker::{Model, PhantomData};

/// The whole list. There is one of each name.
pub struct MonotoneList<E> {
    marker: PhantomData<E>,
    pub ghost name: { ℕ },
    pub ghost items: { List E } by { coded_list E.code },
}

impl<E> Model for MonotoneList<E> {
    ghost also_owns = { λ s. list_owns E.row.coded.code s.name s.items };
}

/// A witness that the list began so.
pub struct PrefixWitness<E> {
    marker: PhantomData<E>,
    pub ghost name: { ℕ },
    pub ghost items: { List E } by { coded_list E.code },
}

impl<E> Model for PrefixWitness<E> {
    ghost also_owns = { λ s. witness_owns E.row.coded.code s.name s.items };

    ghost also_shares = { λ s _ κ. said (witness_owns E.row.coded.code s.name s.items) κ };
}

impl<E> MonotoneList<E> {
    /// An empty list.
    pub fn open() -> MonotoneList<E>
        ensures { result.items ≡ [] }
    {
        MonotoneList {
            marker: PhantomData,
        }
    }

    /// Adds an entry.
    pub fn grow(&mut self, entry: &E)
        ensures { (self.new.name ≡ self.old.name) × (self.new.items ≡ self.old.items ++ entry.now ∷ []) }
    {
        // For the proof alone: only the clauses name it.
        let _ = entry;
    }

    /// The list as it is.
    pub fn witness(&mut self) -> PrefixWitness<E>
        ensures { (self.new ≡ self.old) × (result.name ≡ self.old.name) × (result.items ≡ self.old.items) }
    {
        PrefixWitness {
            marker: PhantomData,
        }
    }

    /// The witness is a beginning of the list.
    pub fn holds(&mut self, witness: &PrefixWitness<E>)
        requires { witness.now.name ≡ self.old.name }
        ensures { (self.new ≡ self.old) × IsPrefix witness.now.items self.old.items }
    {
        // For the proof alone: only the clauses name it.
        let _ = witness;
    }
}

impl<E> PrefixWitness<E> {
    /// A copy.
    pub fn again(&self) -> PrefixWitness<E>
        ensures { result ≡ self.now }
    {
        PrefixWitness {
            marker: PhantomData,
        }
    }
}

impl<E> PrefixWitness<E> {
    /// The shorter of two witnesses begins the longer one.
    pub fn begins(&self, other: &PrefixWitness<E>)
        requires { (other.now.name ≡ self.now.name) × (length self.now.items ≤ length other.now.items) }
        ensures { IsPrefix self.now.items other.now.items }
    {
        // For the proof alone: only the clauses name it.
        let _ = other;
    }
}

impl<E> Drop for MonotoneList<E> {
    fn drop(self) {
        let Self { marker: _ } = self;
    }
}

impl<E> Drop for PrefixWitness<E> {
    fn drop(self) {
        let Self { marker: _ } = self;
    }
}

unsafe impl<E> Send for MonotoneList<E> {}

unsafe impl<E> Send for PrefixWitness<E> {}

unsafe impl<E> Sync for PrefixWitness<E> {}
