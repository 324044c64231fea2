//! The press list of a desk. It exists in proofs alone, and readers keep beginnings of it.
ghost use Rattle.std.specs.Prelude.{◌≡◌, [], ◌∷◌, ◌++◌};
ghost use mathlib.Core.List.{IsPrefix};
ghost use Rattle.disco_history.specs.Change.{change_view};
ghost use Rattle.disco_hub.specs.Press as press;
ghost use Rattle.disco_hub.specs.Press.{note_of};
ghost use Rattle.disco_press.specs.Logs.{all_noted};

use crate::entry::LogEntry;
use crate::heard::Heard;
use crate::monotone_list::MonotoneList;
use crate::published_log::{LogPrefix, Naming, PublishedLog};
use disco_history::Change;
use disco_hub::Copied;
use std::marker::{Model, PhantomData};

/// What was published, publication by publication, and what was noted since. No call takes memory.
#[derive(Drop)]
pub struct PublicationLog<J: Naming> {
    entries: MonotoneList<LogEntry>,
    len: u64,
    /// The list as it was at the last publish.
    shown: LogPrefix,
    of: PhantomData<J>,
}

impl<J: Naming> Model for PublicationLog<J> {
    ghost use Rattle.std.specs.Prelude.{◌≡◌, ◌<◌, ◌-◌, ◌^◌, length};
    ghost use Rattle.disco_press.specs.Logs.{Logged, publications, logged};

    ghost Value = { Logged };

    ghost view = { λ r. logged r.entries.items };

    ghost invariant = { λ r. (r.entries.name ≡ J.list) × (r.len < 2 ^ 64 - 1 → r.len ≡ length r.entries.items) × (r.shown.witness.name ≡ J.list)
        × (publications r.shown.witness.items ≡ publications r.entries.items) };
}

impl<J: Naming> PublicationLog<J> {
    /// Nothing noted yet.
    pub fn new(mut entries: MonotoneList<LogEntry>) -> PublicationLog<J>
        requires { (entries.items ≡ []) × (entries.name ≡ J.list) }
        ensures { (result.published ≡ []) × (result.pending ≡ []) }
    {
        let shown = LogPrefix {
            len: 0,
            witness: entries.witness(),
        };
        PublicationLog {
            entries,
            len: 0,
            shown,
            of: PhantomData,
        }
    }

    /// Notes that a round begins.
    #[tactic(auto, using(crate::proofs::Publications::logged_more))]
    pub fn begin(&mut self)
        ensures { self.new ≡ record self.old { pending = self.old.pending ++ press.begin ∷ [] } }
    {
        // For the proof alone: the list has this entry too.
        self.entries.grow(&LogEntry::Begun);
        self.len = self.len.saturating_add(1);
    }

    /// Notes a change of the registry.
    #[tactic(auto, using(crate::proofs::Publications::logged_more))]
    pub fn change(&mut self, change: Change) -> Change
        ensures noted { self.new ≡ record self.old { pending = self.old.pending ++ press.change (change_view change) ∷ [] } }
        ensures same { result ≡ change }
    {
        let entry = LogEntry::Changed(change);
        // For the proof alone: the list has this entry too.
        self.entries.grow(&entry);
        self.len = self.len.saturating_add(1);
        match entry {
            LogEntry::Changed(change) => change,
            LogEntry::Copied(_other) => unreachable!(),
            LogEntry::Begun | LogEntry::Published => unreachable!(),
        }
    }

    /// Notes the copy of a key.
    #[tactic(auto, using(crate::proofs::Publications::logged_more))]
    pub fn copy(&mut self, copied: Copied) -> Copied
        ensures noted { self.new ≡ record self.old { pending = self.old.pending ++ note_of copied ∷ [] } }
        ensures same { result ≡ copied }
    {
        let copy = LogEntry::Copied(copied);
        // For the proof alone: the list has this entry too.
        self.entries.grow(&copy);
        self.len = self.len.saturating_add(1);
        match copy {
            LogEntry::Copied(copied) => copied,
            LogEntry::Changed(_other) => unreachable!(),
            LogEntry::Begun | LogEntry::Published => unreachable!(),
        }
    }

    /// Makes the notes since the last publication the next one.
    #[tactic(auto, using(crate::proofs::Publications::logged_more))]
    pub fn publish(&mut self)
        ensures { self.new ≡ record { published = self.old.published ++ self.old.pending ∷ []; pending = [] } }
    {
        // For the proof alone: the list has this entry too.
        self.entries.grow(&LogEntry::Published);
        self.len = self.len.saturating_add(1);
        self.shown = LogPrefix {
            len: self.len,
            witness: self.entries.witness(),
        };
    }

    /// What was published.
    pub fn published(&self) -> PublishedLog<J>
        ensures { result ≡ self.now.published }
    {
        PublishedLog::of(self.shown.again())
    }

    /// All that was noted.
    pub fn heard(&mut self) -> Heard<J>
        ensures { (self.new ≡ self.old) × (result ≡ all_noted self.old) }
    {
        Heard::of_witness(self.entries.witness())
    }

    /// What a reader has been told of was noted here, and is a beginning of what was noted.
    #[tactic(auto, using(crate::proofs::Publications::notes_begin_too))]
    pub fn meet_all(&mut self, heard: &Heard<J>)
        ensures { (self.new ≡ self.old) × IsPrefix heard.now (all_noted self.old) }
    {
        self.entries.holds(heard.witness());
    }

    /// What a reader knows was published here, and is a beginning of what was published.
    #[tactic(auto, using(crate::proofs::Publications::begins_too))]
    pub fn meet(&mut self, published: &PublishedLog<J>)
        ensures { (self.new ≡ self.old) × IsPrefix published.now self.old.published }
    {
        self.entries.holds(&published.prefix().witness);
    }
}
