//! A chunk of the index: places that follow one another.
ghost use Rattle.std.specs.Prelude.{◌≡◌, ◌∷◌, ◌++◌, [], ◌<◌, ◌≤◌, IfErr, IfOk, OnErr, OnOk, length, map, set, slice_index_or, take, drop};
ghost use Rattle.std.specs.List as list;
ghost use Rattle.disco_index.specs.ChunkedBy.{ends_before};
ghost use Rattle.disco_index.specs.Chunks.{AreInOrder, IsPlaceAt, IsPlaceGap, Placed, keys_under, name_in, starts_after};
ghost use Rattle.disco_index.specs.Names.{name, name_cmp};

use crate::place::Place;
use disco_values::Key;
use std::alloc::{AllocError, Global};
use std::cmp::Ordering;
use std::marker::Model;

/// Makes room for one more place. A full chunk gets room for an eighth more.
fn make_room(places: &mut Vec<Place>) -> Result<(), AllocError>
    ensures { places.new.items ≡ places.old.items }
{
    let len = places.len();
    if len < places.capacity() {
        return Ok(());
    }
    Ok(places.reserve_exact(len / 8 + 1)?)
}

/// Some places that follow one another in the order of their vips and keys.
#[derive(Drop)]
pub(crate) struct Chunk {
    places: Vec<Place>,
}

impl Model for Chunk {
    ghost use Rattle.std.specs.Prelude.{Bool, List};
    ghost use Rattle.std.specs.Coded.{codes};
    ghost use Rattle.disco_index.specs.Names.{Name};

    ghost Value = { List (Name × Bool) };

    ghost coded = { Prim.hlevel (codes) };

    ghost view = { λ c. c.places.items };
}

impl Chunk {
    /// A place alone.
    pub(crate) fn of_one(alloc: Global, place: Place) -> Result<Chunk, AllocError>
        ensures { IfOk result (λ c. c ≡ place ∷ []) }
    {
        let mut places = Vec::with_capacity(alloc, 1)?;
        places.push(place)?;
        Ok(Chunk { places })
    }

    pub(crate) fn len(&self) -> usize
        ensures { result ≡ length self.now }
    {
        self.places.len()
    }

    /// Whether its last place comes before that of a key under a vip.
    pub(crate) fn ends_before(&self, vip: &[u8], key: &Key) -> bool
        ensures { result ≡ ends_before name_cmp name_in (name vip.now key.now) self.now }
    {
        match self.places.last() {
            Some(place) => place.compare(vip, key).is_lt(),
            None => true,
        }
    }

    /// Where the place of a key under a vip is, or where it would go.
    pub(crate) fn search(&self, vip: &[u8], key: &Key) -> Result<usize, usize>
        requires { AreInOrder self.now }
        ensures found { IfOk result (λ i. IsPlaceAt self.now (name vip.now key.now) i) }
        ensures absent { IfErr result (λ i. IsPlaceGap self.now (name vip.now key.now) i) }
    {
        self.places
            .as_slice()
            .binary_search_by(|place| place.compare(vip, key))
    }

    /// Whether the instance of a place is there.
    pub(crate) fn is_there(&self, i: usize) -> bool
        requires { i < length self.now }
        ensures { (d : Placed) → result ≡ (slice_index_or self.now i d).1 }
    {
        self.places[i].is_there()
    }

    /// Sets whether the instance of a place is there.
    pub(crate) fn write(&mut self, i: usize, there: bool)
        requires { i < length self.old }
        ensures { (d : Placed) → self.new ≡ set self.old i ((slice_index_or self.old i d).0, there) }
    {
        self.places[i].write(there);
    }

    pub(crate) fn insert(&mut self, i: usize, place: Place) -> Result<(), AllocError>
        requires { i ≤ length self.old }
        ensures ok { OnOk result (self.new ≡ list.insert self.old i place) }
        ensures err { OnErr result (self.new ≡ self.old) }
    {
        make_room(&mut self.places)?;
        Ok(self.places.insert(i, place)?)
    }

    /// Gives the place of a key under a vip the owner of another one.
    pub(crate) fn renew(&mut self, i: usize, place: Place)
        requires { IsPlaceAt self.old place.0 i }
        ensures { self.new ≡ self.old }
    {
        self.places[i].renew(place);
    }

    /// Removes a place, and gives memory back where over an eighth is unused.
    pub(crate) fn remove(&mut self, i: usize)
        requires { i < length self.old }
        ensures { self.new ≡ list.remove self.old i }
    {
        self.places.remove(i);
        if self.places.len() < self.places.capacity() / 8 * 7 {
            self.places.shrink_to_fit();
        }
    }

    /// Splits off the places from `i` on.
    pub(crate) fn split_off(&mut self, i: usize) -> Result<Chunk, AllocError>
        requires { i ≤ length self.old }
        ensures front { OnOk result (self.new ≡ take i self.old) }
        ensures back { IfOk result (λ c. c ≡ drop i self.old) }
        ensures err { OnErr result (self.new ≡ self.old) }
    {
        let places = self.places.split_off(i)?;
        self.places.shrink_to_fit();
        Ok(Chunk { places })
    }

    /// Whether its first place is of a vip behind this one.
    pub(crate) fn starts_after(&self, vip: &[u8]) -> bool
        ensures { result ≡ starts_after vip.now self.now }
    {
        match self.places.first() {
            Some(place) => place.is_after(vip),
            None => false,
        }
    }

    /// Pushes the keys of the places under a vip whose instances are there.
    pub(crate) fn push_under<'a>(
        &'a self,
        vip: &[u8],
        found: &mut Vec<&'a Key>,
    ) -> Result<(), AllocError>
        ensures { OnOk result (map (λ k. k.now) found.new.items ≡ map (λ k. k.now) found.old.items ++ keys_under vip.now self.now) }
    {
        for place in self.places.as_slice() {
            if place.is_under(vip) && place.is_there() {
                found.push(place.key())?;
            }
        }
        Ok(())
    }
}
