//! The texts of mentions, by the keys of their instances.
ghost use Rattle.std.specs.Prelude.{◌≡◌, IfErr, IfOk, IsSome, List, None, OnErr, OnOk, Some, option_map, true, ℕ};
ghost use Rattle.disco_values.specs.declared.fault.Fault.TheVariants.{OutOfMemory};
ghost use Rattle.disco_values.specs.declared.key.Key.{Key};
ghost use Rattle.std.specs.FinMap.{entries, len};
ghost use Rattle.disco_writer.specs.InOrder.{AreTheirs};
ghost use Rattle.disco_writer.specs.Joined.{shown_by, walked};
ghost use Rattle.disco_writer.specs.Kept.{HasNoEmpty, IsReadyFor, IsSameTexts, SetsText, none_kept, kept_text_at};

use crate::in_order::KeyedText;
use crate::named::Named;
use crate::piece::Piece;
use crate::places::{entries_in, make, make_unless, pieces_in, put_named, sweep, text_at};
use disco_instance::Record;
use disco_places::Places;
use disco_values::{Bytes, Fault, Key, Text};
use std::alloc::{AllocError, Global};
use std::marker::Model;
use std::sync::Arc;

/// The text of each of some instances, and one that is put next.
#[derive(Drop)]
pub struct Texts {
    places: Places<Bytes>,
    next: Option<(Named, Bytes)>,
}

impl Model for Texts {
    ghost use Rattle.std.specs.Coded.{codes};
    ghost use Rattle.std.specs.FinMap.{code};
    ghost use Rattle.disco_writer.specs.Kept.{StoredTexts};
    ghost use Rattle.disco_writer.specs.Empty.{OnlyNextIsEmpty};
    ghost use Rattle.disco_writer.specs.Named.{named_text};

    ghost Value = { StoredTexts };

    ghost coded = { Prim.hlevel (codes, code) };

    ghost view = { λ t. record { places = t.places; next = named_text t.next } };

    ghost invariant = { λ t. OnlyNextIsEmpty (named_text t.next) t.places };
}

impl Texts {
    /// No texts.
    pub fn new(alloc: Global) -> Texts
        ensures { result ≡ none_kept }
    {
        Texts {
            places: Places::new(alloc),
            next: None,
        }
    }

    /// The text under a key.
    pub fn get(&self, key: &Key) -> Option<&[u8]>
        ensures { option_map (λ t. t.now) result ≡ kept_text_at self.now key.now }
    {
        self.get_at(&key.app, &key.id)
    }

    /// The text under the key of this app and this id.
    pub(crate) fn get_at(&self, app: &Text, id: &Text) -> Option<&[u8]>
        ensures { option_map (λ t. t.now) result ≡ kept_text_at self.now (record { app = app.now; id = id.now }) }
    {
        text_at(&self.places, app, id)
    }

    /// How many places there are, one of which may be empty.
    pub(crate) fn len(&self) -> usize
        ensures { result ≡ len self.now.places }
    {
        self.places.len()
    }

    /// The key and the text of each instance that has one, in the order of their keys.
    pub(crate) fn entries(&self, alloc: Global) -> Result<Vec<KeyedText<'_>>, AllocError>
        ensures { IfOk result (λ v. AreTheirs self.now v.items) }
    {
        entries_in(alloc, &self.places)
    }

    /// The app and the text of each instance that has one, in the order of their keys.
    pub(crate) fn pieces(&self, alloc: Global) -> Result<Vec<Piece<'_>>, AllocError>
        ensures { IfOk result (λ v. shown_by v.items ≡ walked (entries self.now.places)) }
    {
        pieces_in(alloc, &self.places)
    }

    /// Drops what is put next, and gives back its place where it has no text, so that no place is
    /// empty. Takes no memory.
    pub fn forget(&mut self)
        ensures same { IsSameTexts self.old self.new }
        ensures none_empty { HasNoEmpty self.new.places }
    {
        if let Some((named, _)) = self.next.take() {
            sweep(&mut self.places, named.key());
        }
    }

    /// Makes a place for a key and keeps the text for the next `put`. No answer shows a place
    /// without a text, and there is at most this one: that of an earlier text that was not put is
    /// given back.
    ///
    /// # Errors
    ///
    /// `OutOfMemory` alone. Then no place is empty.
    pub fn ready(&mut self, key: &Key, text: Vec<u8>) -> Result<(), Fault>
        ensures same { IsSameTexts self.old self.new }
        ensures ready { OnOk result (IsReadyFor self.new key.now text.items) }
        ensures given_back { OnErr result (HasNoEmpty self.new.places) }
        ensures memory { IfErr result (λ e. e ≡ OutOfMemory) }
    {
        self.forget();
        let kept = key.clone()?;
        make(&mut self.places, key)?;
        self.next = Some((Named::ByKey(kept), Bytes::from_vec(text)));
        Ok(())
    }

    /// Keeps the text for the next `put` under the key of a record, which is shared until then, as
    /// [`Texts::ready`] does. Where the key has a text, its place is there without a search.
    ///
    /// # Errors
    ///
    /// `OutOfMemory` alone. Then no place is empty.
    pub fn ready_for(
        &mut self,
        rec: &Arc<Record, Global>,
        text: Vec<u8>,
        has_text: bool,
    ) -> Result<(), Fault>
        requires { has_text ≡ true → IsSome (kept_text_at self.old rec.now.value.key) }
        ensures same { IsSameTexts self.old self.new }
        ensures ready { OnOk result (IsReadyFor self.new rec.now.value.key text.items) }
        ensures given_back { OnErr result (HasNoEmpty self.new.places) }
        ensures memory { IfErr result (λ e. e ≡ OutOfMemory) }
    {
        self.forget();
        let shared = Arc::try_clone(rec)?;
        make_unless(&mut self.places, &rec.key, has_text)?;
        self.next = Some((Named::ByRecord(shared), Bytes::from_vec(text)));
        Ok(())
    }

    /// Puts the text that `ready` or `ready_for` was given. Takes no memory.
    pub fn put(&mut self)
        ensures put { (k : Key) (t : List ℕ) → IsReadyFor self.old k t → SetsText k (Some t) self.old self.new }
        ensures none_empty { HasNoEmpty self.new.places }
    {
        if let Some((named, text)) = self.next.take() {
            put_named(&mut self.places, named, text);
        }
    }

    /// Removes the text of a key, with its place. Takes no memory.
    pub fn take(&mut self, key: &Key)
        ensures { SetsText key.now None self.old self.new }
    {
        self.places.close(key);
    }
}
