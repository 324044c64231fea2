//! The texts of what is held, which follow each change.
ghost use Rattle.std.specs.Prelude.{◌≡◌, IfErr, OnOk, Some, true};
ghost use Rattle.std.specs.FinMap.{FinMap, insert, remove};
ghost use Rattle.disco_values.specs.Key.{key_cmp};
ghost use Rattle.disco_values.specs.declared.fault.Fault.TheVariants.{OutOfMemory};
ghost use Rattle.disco_instance.specs.Row.{row};
ghost use Rattle.disco_history.specs.Change.{Entry, key_of, change_view};
ghost use Rattle.disco_history.specs.Registry.{put_of};
ghost use Rattle.disco_registry.specs.Commit.{held_after};
ghost use Rattle.disco_core.specs.Written.{AreWritten, HasNoEmptyText, HasTexts, HasTextsAt, IsSameWritten, kept_in, none_written};

use disco_history::Change;
use disco_instance::Record;
use disco_values::{Action, Fault, Form, Key};
use disco_writer::{Texts, write_texts};
use std::alloc::Global;
use std::marker::Model;
use std::sync::Arc;

/// The texts of what is held, in the full form and in the compact one.
#[derive(Drop)]
pub(crate) struct BothTexts {
    alloc: Global,
    full: Texts,
    compact: Texts,
}

impl Model for BothTexts {
    ghost use Rattle.std.specs.Coded.{codes};
    ghost use Rattle.std.specs.FinMap.{code};
    ghost use Rattle.disco_core.specs.Written.{KeptTexts};

    ghost Value = { KeptTexts };

    ghost coded = { Prim.hlevel (codes, code) };

    ghost view = { λ t. record { full = t.full; compact = t.compact } };
}

impl BothTexts {
    pub(crate) fn new(alloc: Global) -> BothTexts
        ensures { result ≡ none_written }
    {
        BothTexts {
            alloc,
            full: Texts::new(alloc),
            compact: Texts::new(alloc),
        }
    }

    /// The texts in a form.
    pub(crate) fn in_form(&self, form: Form) -> &Texts
        ensures { result.now ≡ kept_in form self.now }
    {
        match form {
            Form::Full => &self.full,
            Form::Compact => &self.compact,
        }
    }

    /// Drops the texts that are put next, and gives back their places. Takes no memory.
    pub(crate) fn forget(&mut self)
        ensures same { IsSameWritten self.old self.new }
        ensures none_empty { HasNoEmptyText self.new }
    {
        self.full.forget();
        self.compact.forget();
    }

    fn ready_both(
        &mut self,
        rec: &Arc<Record, Global>,
        action: Action,
        held: bool,
    ) -> Result<(), Fault>
        requires { held ≡ true → HasTextsAt self.old rec.now.value.key }
        ensures same { IsSameWritten self.old self.new }
        ensures texts { OnOk result (HasTexts self.new (Some (row rec.now.value, action))) }
        ensures memory { IfErr result (λ e. e ≡ OutOfMemory) }
    {
        let (full, compact) = write_texts(self.alloc, rec, Some(action))?;
        self.full.ready_for(rec, full, held)?;
        self.compact.ready_for(rec, compact, held)
    }

    /// Makes the texts of what a change puts, and places for them where its key isn't held. Refused
    /// only as `OutOfMemory`.
    pub(crate) fn ready(&mut self, change: &Change, held: bool) -> Result<(), Fault>
        requires { held ≡ true → HasTextsAt self.old (key_of (change_view change.now)) }
        ensures same { IsSameWritten self.old self.new }
        ensures texts { OnOk result (HasTexts self.new (put_of (change_view change.now))) }
        ensures memory { IfErr result (λ e. e ≡ OutOfMemory) }
    {
        match change {
            Change::Put { action, rec } => match action {
                Action::Added => self.ready_both(rec, Action::Added, held),
                Action::Modified => self.ready_both(rec, Action::Modified, held),
                Action::Deleted => Ok(()),
            },
            Change::Gone { rec: _ } => Ok(()),
        }
    }

    fn put(&mut self)
        ensures { (e : Entry) (m : FinMap key_cmp Entry) → HasTexts self.old (Some e) → AreWritten self.old m → AreWritten self.new (insert m (key_of e) e) }
    {
        self.full.put();
        self.compact.put();
    }

    fn take(&mut self, key: &Key)
        ensures { (m : FinMap key_cmp Entry) → AreWritten self.old m → AreWritten self.new (remove m key.now) }
    {
        self.full.take(key);
        self.compact.take(key);
    }

    /// Puts the texts of what a change puts, and takes out those of what goes. Takes no memory.
    pub(crate) fn follow(&mut self, change: &Change)
        requires { HasTexts self.old (put_of (change_view change.now)) }
        ensures { (m : FinMap key_cmp Entry) → AreWritten self.old m → AreWritten self.new (held_after m (Some (change_view change.now))) }
    {
        match change {
            Change::Put { action, rec: _ } => match action {
                Action::Added => self.put(),
                Action::Modified => self.put(),
                Action::Deleted => self.take(change.key()),
            },
            Change::Gone { rec: _ } => self.take(change.key()),
        }
    }
}
