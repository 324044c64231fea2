//! The held records by key.
ghost use Rattle.disco_values.specs.Key.{same_key};
ghost use Rattle.disco_registry.specs.Records.{AreKeyed, AreKeyedById, next_left, of_key, shows_id};
ghost use Rattle.std.specs.Prelude.{◌≡◌, IfOk, IfSome, None, OnOk, Some, filter, is_some, map, option_map};
ghost use Rattle.std.specs.FinMap as finmap;
ghost use Rattle.std.specs.FinMap.{values};
ghost use Rattle.std.specs.List.{filter_map, find};
ghost use Rattle.std.specs.Option.{option_copied};
ghost use Rattle.disco_history.specs.Apps.{is_of_app, is_of_id};
ghost use Rattle.disco_history.specs.Held.{entry_of, record_at, seen_record};
ghost use Rattle.disco_places.specs.KeyMaps.{of_apps};

use disco_history::Held;
use disco_instance::Record;
use disco_places::{IdMap, Places};
use disco_values::{Key, Text};
use std::alloc::{AllocError, Global};
use std::collections::BTreeMap;
use std::marker::Model;

/// The records that are held, and at most one empty place.
#[derive(Drop)]
pub(crate) struct Records {
    places: Places<Held>,
    /// The record that is put next, whose place is empty.
    next: Option<Held>,
    /// The record that was searched for last. Looking at it first saves searches; nothing else depends
    /// on it.
    sought: Option<Held>,
}

impl Model for Records {
    ghost use Rattle.std.specs.Prelude.{option_map};
    ghost use Rattle.std.specs.Coded.{codes};
    ghost use Rattle.std.specs.FinMap.{code};
    ghost use Rattle.disco_registry.specs.Records.{AreInPlace, Contents, key_of_held, mentions_held};

    ghost Value = { Contents };

    ghost coded = { Prim.hlevel (codes, code) };

    ghost view = { λ r. record { held = mentions_held r.places; next = option_map key_of_held r.next } };

    ghost invariant = { λ r. AreInPlace r.places r.next r.sought };
}

fn is_of(held: &Held, key: &Key) -> bool
    ensures { result ≡ same_key held.now.rec.value.key key.now }
{
    held.rec.key.compare(key).is_eq()
}

/// A record, where it is of a key.
fn of_key<'a>(held: &'a Option<Held>, key: &Key) -> Option<&'a Held>
    ensures { option_copied result ≡ of_key key.now held.now }
{
    match held {
        Some(one) if is_of(one, key) => held.as_ref(),
        _ => None,
    }
}

/// The record that is put next, once one of a key is put.
fn left_after(next: Option<Held>, key: &Key) -> Option<Held>
    ensures { result ≡ next_left key.now next }
{
    match next {
        Some(next) if is_of(&next, key) => None,
        other => other,
    }
}

/// A share of the record, unless memory is refused.
fn shared(held: Option<&Held>) -> Option<Held>
    ensures { IfSome result (λ h. Some (entry_of h) ≡ option_map entry_of (option_copied held.entry)) }
{
    match held {
        Some(held) => held.share().ok(),
        None => None,
    }
}

/// Whether there is a record in a place, and it has this id.
fn has_id(place: &Option<Held>, id: &str) -> bool
    ensures { result ≡ shows_id id.now place.now }
{
    match place {
        Some(held) => held.rec.key.id.as_str() == id,
        None => false,
    }
}

/// The records in places, shared.
fn shared_in(alloc: Global, ids: &IdMap<Option<Held>>) -> Result<Vec<Held>, AllocError>
    ensures { IfOk result (λ v. map entry_of v.items ≡ filter_map (λ e. option_map entry_of e.1) (finmap.entries ids.now)) }
{
    let mut list = Vec::new(alloc);
    for (_, place) in ids {
        if let Some(held) = place {
            list.push(held.share()?)?;
        }
    }
    Ok(list)
}

/// The first record of an id in the places of one app.
fn first_in<'a>(ids: &'a IdMap<Option<Held>>, id: &str) -> Option<&'a Held>
    ensures { option_map (λ h. entry_of h.now) result ≡ find (is_of_id id.now) (filter_map (λ e. option_map entry_of e.1) (finmap.entries ids.now)) }
{
    for (_, place) in ids {
        if has_id(place, id) {
            return place.as_ref();
        }
    }
    None
}

/// The first record of an id in the places of all apps.
fn first_of_id<'a>(apps: &'a BTreeMap<Text, IdMap<Option<Held>>>, id: &str) -> Option<&'a Held>
    ensures { option_map (λ h. entry_of h.now) result ≡ find (is_of_id id.now) (filter_map (λ e. option_map entry_of e.1) (of_apps apps.now.entries)) }
{
    for (_, ids) in apps {
        if let Some(held) = first_in(ids, id) {
            return Some(held);
        }
    }
    None
}

/// The record that stands under an id in the places of one app.
fn found_in<'a>(ids: &'a IdMap<Option<Held>>, id: &Text) -> Option<&'a Held>
    requires { AreKeyedById (finmap.entries ids.now) }
    ensures { option_map (λ h. entry_of h.now) result ≡ find (is_of_id id.now) (filter_map (λ e. option_map entry_of e.1) (finmap.entries ids.now)) }
{
    match ids.get(id) {
        Some(place) => place.as_ref(),
        None => None,
    }
}

/// The first record that stands under an id in the places of all apps.
fn found_under<'a>(apps: &'a BTreeMap<Text, IdMap<Option<Held>>>, id: &Text) -> Option<&'a Held>
    requires { AreKeyed (of_apps apps.now.entries) }
    ensures { option_map (λ h. entry_of h.now) result ≡ find (is_of_id id.now) (filter_map (λ e. option_map entry_of e.1) (of_apps apps.now.entries)) }
{
    for (_, ids) in apps {
        if let Some(held) = found_in(ids, id) {
            return Some(held);
        }
    }
    None
}

impl Records {
    pub(crate) fn new(alloc: Global) -> Records
        ensures { result ≡ record { held = finmap.empty; next = None } }
    {
        Records {
            places: Places::new(alloc),
            next: None,
            sought: None,
        }
    }

    /// Searches for the record of a key, so that later calls about this key need no search. No answer
    /// shows it. Answers whether there is one.
    pub(crate) fn seek(&mut self, key: &Key) -> bool
        ensures same { self.new ≡ self.old }
        ensures held { result ≡ is_some (finmap.get self.old.held key.now) }
    {
        let held = self.places.get(key);
        let is_held = held.is_some();
        self.sought = shared(held);
        is_held
    }

    /// The record of a key, with what its last change did.
    pub(crate) fn held(&self, key: &Key) -> Option<&Held>
        ensures found { option_map (λ h. entry_of h.now) result ≡ finmap.get self.now.held key.now }
        ensures same_key { IfSome result (λ h. h.now.rec.value.key ≡ key.now) }
    {
        if of_key(&self.next, key).is_some() {
            return None;
        }
        match of_key(&self.sought, key) {
            Some(held) => Some(held),
            None => self.places.get(key),
        }
    }

    pub(crate) fn get(&self, key: &Key) -> Option<&Record>
        ensures found { seen_record result ≡ record_at self.now.held key.now }
        ensures same_key { IfSome result (λ r. r.now.key ≡ key.now) }
    {
        match self.held(key) {
            Some(held) => Some(&*held.rec),
            None => None,
        }
    }

    pub(crate) fn len(&self) -> usize
        ensures { result ≡ finmap.len self.now.held }
    {
        let empty = if self.next.is_some() { 1 } else { 0 };
        self.places.len() - empty
    }

    /// The records of an app in the order of their ids, shared. Those of other apps cost nothing, but
    /// for the search.
    pub(crate) fn of_app(&self, alloc: Global, app: &Text) -> Result<Vec<Held>, AllocError>
        ensures { IfOk result (λ v. map entry_of v.items ≡ filter (is_of_app app.now) (values self.now.held)) }
    {
        let apps = self.places.apps();
        // For the proof alone: the apps of a map stand in order, each once.
        let _len = apps.len();
        match apps.get(app) {
            Some(ids) => Ok(shared_in(alloc, ids)?),
            None => Ok(Vec::new(alloc)),
        }
    }

    /// The first record of an id: of several apps' the one with the least app, in byte order.
    pub(crate) fn of_id(&self, id: &str) -> Option<&Held>
        ensures { option_map (λ h. entry_of h.now) result ≡ find (is_of_id id.now) (values self.now.held) }
    {
        first_of_id(self.places.apps(), id)
    }

    /// The same, by a search among the ids of each app.
    pub(crate) fn with_id(&self, id: &Text) -> Option<&Held>
        ensures { option_map (λ h. entry_of h.now) result ≡ find (is_of_id id.now) (values self.now.held) }
    {
        found_under(self.places.apps(), id)
    }

    /// The places of the records, by app and then by id. One of them may be empty.
    pub(crate) fn apps(&self) -> &BTreeMap<Text, IdMap<Option<Held>>>
        ensures { filter_map (λ e. option_map entry_of e.1) (of_apps result.now.entries) ≡ values self.now.held }
    {
        self.places.apps()
    }

    /// Removes the empty place, if there is one. Takes no memory.
    pub(crate) fn forget(&mut self)
        ensures { self.new ≡ record self.old { next = None } }
    {
        if let Some(next) = self.next.take() {
            self.places.close(&next.rec.key);
        }
    }

    /// Makes the place of a record that is put next, where its key has none.
    pub(crate) fn make(&mut self, next: Held) -> Result<(), AllocError>
        requires { finmap.get self.old.held next.rec.value.key ≡ None }
        ensures held { self.new.held ≡ self.old.held }
        ensures next { OnOk result (self.new.next ≡ Some next.rec.value.key) }
    {
        self.forget();
        self.places.make(&next.rec.key)?;
        self.next = Some(next);
        Ok(())
    }

    /// Puts a record in: it replaces that of its key, or takes the place that was made for it. Takes no
    /// memory.
    pub(crate) fn put(&mut self, key: &Key, added: Held)
        requires place { finmap.get self.old.held key.now ≡ None → self.old.next ≡ Some key.now }
        requires same_key { added.rec.value.key ≡ key.now }
        ensures { self.new.held ≡ finmap.insert self.old.held key.now (entry_of added) }
    {
        self.next = left_after(self.next.take(), key);
        self.sought = None;
        self.places.put(key, added);
    }

    /// Removes the record of a key, if there is one. Takes no memory.
    pub(crate) fn take(&mut self, key: &Key)
        ensures { self.new.held ≡ finmap.remove self.old.held key.now }
    {
        self.forget();
        self.sought = None;
        self.places.close(key);
    }
}
