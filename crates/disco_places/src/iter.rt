//! The entries of an `IdMap`, one after another.
ghost use Rattle.std.specs.Prelude.{◌≡◌, length};
ghost use Rattle.std.specs.FinMap as finmap;
ghost use Rattle.std.specs.Iterator.{at_most};
ghost use Rattle.std.specs.Map.Iter.{TakesFirst, deref_pair};
ghost use Rattle.disco_places.specs.Ids.{map_in};

use crate::ids::Ids;
use crate::rest::Rest;
use disco_values::Text;
use std::marker::Model;

/// The ids of an `IdMap` with their values, in the order of the ids. Contracts see the list of those
/// that are left.
#[derive(Drop)]
pub struct Iter<'a, V> {
    rest: Rest<'a, V>,
}

impl<'a, V> Model for Iter<'a, V> {
    ghost use Rattle.std.specs.Prelude.{ℕ, List};
    ghost use Rattle.disco_places.specs.Ids.{left_in};

    ghost Value = { List (List ℕ × V) };

    ghost view = { λ i. left_in i.rest };
}

impl<'a, V: Drop> Iter<'a, V> {
    pub(crate) fn new(ids: &'a Ids<V>) -> Iter<'a, V>
        ensures { result ≡ finmap.entries (map_in ids.now) }
    {
        match ids {
            Ids::Empty => Iter {
                rest: Rest::One(None),
            },
            Ids::One(id, value) => Iter {
                rest: Rest::One(Some((id, value))),
            },
            Ids::Many(ids) => Iter {
                rest: Rest::Many(ids.iter()),
            },
        }
    }
}

impl<'a, V> Iterator for Iter<'a, V> {
    type Item = (&'a Text, &'a V);

    ghost next_gives = { TakesFirst deref_pair };

    ghost remaining = { λ s. at_most (length s) };

    #[inline]
    fn next(&mut self) -> Option<(&'a Text, &'a V)> {
        match &mut self.rest {
            Rest::One(entry) => entry.take(),
            Rest::Many(entries) => entries.next(),
        }
    }
}
