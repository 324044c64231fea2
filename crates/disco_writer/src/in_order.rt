//! Finds the texts of many keys, in the order of the keys.
//!
//! For many keys it walks all texts beside the keys, and searches for none. It also finds keys in
//! another order, by searches.
ghost use Rattle.std.specs.Prelude.{◌≡◌, IfOk, IfSome, Some, option_map};
ghost use Rattle.disco_writer.specs.InOrder.{AreTheirs};
ghost use Rattle.disco_writer.specs.Kept.{StoredTexts, kept_text_at};

use crate::texts::Texts;
use disco_values::Text;
use std::alloc::{AllocError, Global};
use std::cmp::Ordering;

/// A text, with the app and the id of its instance before it.
pub(crate) type KeyedText<'t> = (&'t Text, &'t Text, &'t [u8]);

/// All texts are walked where at least one of so many is wanted.
const FEW: usize = 4;

/// All texts with their keys where so many are wanted that all are walked, else none.
pub(crate) fn texts_beside(
    alloc: Global,
    texts: &Texts,
    sought: usize,
) -> Result<Vec<KeyedText<'_>>, AllocError>
    ensures { IfOk result (λ v. AreTheirs texts.now v.items) }
{
    if sought < texts.len() / FEW {
        return Ok(Vec::new(alloc));
    }
    texts.entries(alloc)
}

/// The order of a text's key and the one of this app and this id.
fn order(entry: &KeyedText<'_>, app: &Text, id: &Text) -> Ordering {
    match entry.0.cmp(app) {
        Ordering::Equal => entry.1.cmp(id),
        decided => decided,
    }
}

/// The first place from `at` on whose key isn't before this one.
fn passed(entries: &[KeyedText<'_>], at: usize, app: &Text, id: &Text) -> usize {
    let mut at = at;
    while at < entries.len() && order(&entries[at], app, id).is_lt() {
        at += 1;
    }
    at
}

/// The text at a place, where it is that of the key of this app and this id.
fn text_here<'t>(entries: &[KeyedText<'t>], at: usize, app: &Text, id: &Text) -> Option<&'t [u8]>
    ensures { IfSome result (λ t. (v : StoredTexts) → AreTheirs v entries.now → kept_text_at v (record { app = app.now; id = id.now }) ≡ Some t.now) }
{
    match entries.get(at) {
        Some((found, place, text)) if **found == *app && **place == *id => Some(*text),
        _ => None,
    }
}

/// The text of the key of this app and this id, if there is one. Walks on from place `at`, and searches
/// where the walk doesn't meet the key.
pub(crate) fn text_from<'t>(
    texts: &'t Texts,
    entries: &[KeyedText<'t>],
    at: &mut usize,
    app: &Text,
    id: &Text,
) -> Option<&'t [u8]>
    requires { AreTheirs texts.now entries.now }
    ensures { option_map (λ t. t.now) result ≡ kept_text_at texts.now (record { app = app.now; id = id.now }) }
{
    *at = passed(entries, *at, app, id);
    match text_here(entries, *at, app, id) {
        Some(text) => Some(text),
        None => texts.get_at(app, id),
    }
}
