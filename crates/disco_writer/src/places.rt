//! The texts by key, in places that may be empty.
ghost use Rattle.std.specs.Prelude.{◌≡◌, ◌++◌, IfOk, IsSome, None, OnErr, OnOk, Some, map, option_map, true};
ghost use Rattle.std.specs.FinMap as finmap;
ghost use Rattle.std.specs.Option.{option_flatten};
ghost use Rattle.disco_values.specs.declared.key.Key.{Key};
ghost use Rattle.disco_history.specs.Places.{filled};
ghost use Rattle.disco_places.specs.KeyMaps.{of_apps};
ghost use Rattle.disco_writer.specs.InOrder.{keyed_ids, keyed_text};
ghost use Rattle.disco_writer.specs.Joined.{shown_by, shown_one, walked, walked_ids};
ghost use Rattle.disco_writer.specs.Empty.{OpensOnly, ShowSame, SweepsAt};
ghost use Rattle.disco_writer.specs.Named.{named_key};

use crate::in_order::KeyedText;
use crate::named::Named;
use crate::piece::{Piece, Source};
use disco_places::{IdMap, Places};
use disco_values::{Bytes, Key, Text};
use std::alloc::{AllocError, Global};
use std::collections::BTreeMap;

/// An app and the text of one of its instances, where the place isn't empty.
fn piece<'t>(app: &'t Text, place: &'t Option<Bytes>) -> Option<Piece<'t>>
    ensures { option_map shown_one result ≡ option_map (λ t. (app.now, t)) place.now }
{
    match place {
        Some(text) => Some(Piece {
            app,
            source: Source::Kept(text.as_slice()),
        }),
        None => None,
    }
}

/// Adds the texts of an app's places that aren't empty.
fn walk_ids<'t>(
    list: &mut Vec<Piece<'t>>,
    app: &'t Text,
    ids: &'t IdMap<Option<Bytes>>,
) -> Result<(), AllocError>
    ensures { OnOk result (shown_by list.new.items ≡ shown_by list.old.items ++ walked_ids app.now (finmap.entries ids.now)) }
{
    for (_, place) in ids {
        if let Some(piece) = piece(app, place) {
            list.push(piece)?;
        }
    }
    Ok(())
}

/// The apps and the texts of places that aren't empty.
fn walk<'t>(
    alloc: Global,
    room: usize,
    apps: &'t BTreeMap<Text, IdMap<Option<Bytes>>>,
) -> Result<Vec<Piece<'t>>, AllocError>
    ensures { IfOk result (λ v. shown_by v.items ≡ walked (of_apps apps.now.entries)) }
{
    let mut list = Vec::with_capacity(alloc, room)?;
    for (app, ids) in apps {
        walk_ids(&mut list, app, ids)?;
    }
    Ok(list)
}

/// Adds the ids and the texts of an app's places that aren't empty.
fn walk_keyed_ids<'t>(
    list: &mut Vec<KeyedText<'t>>,
    app: &'t Text,
    ids: &'t IdMap<Option<Bytes>>,
) -> Result<(), AllocError>
    ensures { OnOk result (map keyed_text list.new.items ≡ map keyed_text list.old.items ++ keyed_ids app.now (finmap.entries ids.now)) }
{
    for (id, place) in ids {
        if let Some(text) = place {
            list.push((app, id, text.as_slice()))?;
        }
    }
    Ok(())
}

/// The keys and the texts of places that aren't empty.
fn walk_keyed<'t>(
    alloc: Global,
    room: usize,
    apps: &'t BTreeMap<Text, IdMap<Option<Bytes>>>,
) -> Result<Vec<KeyedText<'t>>, AllocError>
    ensures { IfOk result (λ v. map keyed_text v.items ≡ filled (λ t. t) (of_apps apps.now.entries)) }
{
    let mut list = Vec::with_capacity(alloc, room)?;
    for (app, ids) in apps {
        walk_keyed_ids(&mut list, app, ids)?;
    }
    Ok(list)
}

/// The text in the place of the key of this app and this id.
pub(crate) fn text_at<'t>(places: &'t Places<Bytes>, app: &Text, id: &Text) -> Option<&'t [u8]>
    ensures { option_map (λ t. t.now) result ≡ option_flatten (finmap.get places.now (record { app = app.now; id = id.now })) }
{
    match places.get_at(app, id) {
        Some(text) => Some(text.as_slice()),
        None => None,
    }
}

/// The app and the text of each instance that has one, in the order of their keys.
pub(crate) fn pieces_in(alloc: Global, places: &Places<Bytes>) -> Result<Vec<Piece<'_>>, AllocError>
    ensures { IfOk result (λ v. shown_by v.items ≡ walked (finmap.entries places.now)) }
{
    walk(alloc, places.len(), places.apps())
}

/// The key and the text of each instance that has one, in the order of their keys.
pub(crate) fn entries_in(
    alloc: Global,
    places: &Places<Bytes>,
) -> Result<Vec<KeyedText<'_>>, AllocError>
    ensures { IfOk result (λ v. map keyed_text v.items ≡ filled (λ t. t) (finmap.entries places.now)) }
{
    walk_keyed(alloc, places.len(), places.apps())
}

/// Makes a place for a key where there is none.
pub(crate) fn make(places: &mut Places<Bytes>, key: &Key) -> Result<(), AllocError>
    ensures same { ShowSame places.old places.new }
    ensures place { OnOk result (IsSome (finmap.get places.new key.now)) }
    ensures opens { OpensOnly key.now places.old places.new }
    ensures err { OnErr result (places.new ≡ places.old) }
{
    places.make(key)
}

/// As `make`, but without a search where it is known that there is one.
pub(crate) fn make_unless(
    places: &mut Places<Bytes>,
    key: &Key,
    is_there: bool,
) -> Result<(), AllocError>
    requires { is_there ≡ true → IsSome (finmap.get places.old key.now) }
    ensures same { ShowSame places.old places.new }
    ensures place { OnOk result (IsSome (finmap.get places.new key.now)) }
    ensures opens { OpensOnly key.now places.old places.new }
    ensures err { OnErr result (places.new ≡ places.old) }
{
    if is_there {
        return Ok(());
    }
    make(places, key)
}

/// Removes the place of a key if it is empty.
pub(crate) fn sweep(places: &mut Places<Bytes>, key: &Key)
    ensures same { ShowSame places.old places.new }
    ensures swept { SweepsAt key.now places.old places.new }
{
    if places.get(key).is_none() {
        places.close(key);
    }
}

/// Puts a text into the place of an instance, where it has one.
pub(crate) fn put_named(places: &mut Places<Bytes>, named: Named, text: Bytes)
    ensures there { IsSome (finmap.get places.old (named_key named)) → places.new ≡ finmap.insert places.old (named_key named) (Some text) }
    ensures none { finmap.get places.old (named_key named) ≡ None → places.new ≡ places.old }
{
    places.put(named.key(), text);
}
