//! Held records with the counts of their statuses.
ghost use Rattle.std.specs.Prelude.{◌≡◌, ◌<◌, ◌≤◌, ◌+◌, IfOk, IfErr, OnOk, map, vec_len};
ghost use Rattle.std.specs.FinMap.{empty, get, insert, len, remove, values};
ghost use Rattle.std.specs.Str.{bytes_eq};
ghost use Rattle.disco_values.specs.declared.fault.Fault.TheVariants.{OutOfMemory};
ghost use Rattle.disco_history.specs.Hash.{hash};
ghost use Rattle.disco_history.specs.Held.{entry_of, record_at, seen_record};
ghost use Rattle.disco_index.specs.Tally.{rows_of, tally_in, without};
ghost use Rattle.disco_client.specs.Steps.{put_or_taken, after_all};

use disco_history::{Held, RecordList};
use disco_index::Counts;
use disco_instance::Record;
use disco_values::{Action, Fault, Key, Text};
use std::alloc::{AllocError, Global};
use std::marker::Model;

/// Held records, and how many of them have each status.
#[derive(Drop)]
pub(crate) struct Counted {
    records: RecordList,
    counts: Counts,
}

impl Model for Counted {
    ghost use Rattle.std.specs.Coded.{codes};
    ghost use Rattle.std.specs.FinMap.{code};
    ghost use Rattle.disco_history.specs.Room.{Room};
    ghost use Rattle.disco_client.specs.Copies.{IsCounted};

    ghost Value = { Room };

    ghost coded = { Prim.hlevel (codes, code) };

    ghost view = { λ c. c.records };

    ghost invariant = { λ c. IsCounted c.records.held c.counts };
}

/// Takes the record that is held at a key out of the counts.
#[tactic(auto, using(disco_index::proofs::Changes::held_law))]
fn uncount(counts: &mut Counts, records: &RecordList, key: &Key)
    requires { counts.old ≡ tally_in records.now.held }
    ensures { counts.new ≡ without (tally_in records.now.held) (get records.now.held key.now) }
{
    if let Some(held) = records.get(key) {
        counts.take(held.status);
    }
}

impl Counted {
    #[tactic(auto, using(disco_index::proofs::Changes::empty_law))]
    pub(crate) fn new(alloc: Global) -> Counted
        ensures { result.held ≡ empty }
    {
        Counted {
            records: RecordList::new(alloc),
            counts: Counts::new(),
        }
    }

    /// Makes room for so many more records.
    pub(crate) fn reserve(&mut self, records: usize) -> Result<(), AllocError>
        ensures same { self.new.held ≡ self.old.held }
        ensures ok { OnOk result (records ≤ self.new.room) }
    {
        self.records.reserve_for(records)
    }

    /// Puts a record in: it replaces that of its key, or takes room that is there.
    #[tactic(auto, using(disco_index::proofs::Changes::insert_law))]
    fn put(&mut self, added: Held)
        requires { 0 < self.old.room }
        ensures held { self.new.held ≡ insert self.old.held added.rec.value.key (entry_of added) }
        ensures room { self.old.room ≤ self.new.room + 1 }
    {
        uncount(&mut self.counts, &self.records, &added.rec.key);
        let status = added.rec.status;
        self.records.put(added);
        // For the proof alone: the number of records fits a usize.
        let _held = self.records.len();
        self.counts.add(status);
    }

    /// Removes the record of a key, if there is one.
    #[tactic(auto, using(disco_index::proofs::Changes::remove_law))]
    fn take(&mut self, key: &Key)
        ensures held { self.new.held ≡ remove self.old.held key.now }
        ensures room { self.old.room ≤ self.new.room }
    {
        uncount(&mut self.counts, &self.records, key);
        self.records.take(key);
    }

    /// Puts the record of a change in, or removes that of its key where it was deleted.
    fn follow(&mut self, change: Held)
        requires { 0 < self.old.room }
        ensures held { self.new.held ≡ put_or_taken self.old.held (entry_of change) }
        ensures room { self.old.room ≤ self.new.room + 1 }
    {
        match change.action {
            Action::Added | Action::Modified => self.put(change),
            Action::Deleted => self.take(&change.rec.key),
        }
    }

    /// Applies one change after another, in room that is there. Takes no memory.
    pub(crate) fn follow_all(&mut self, changes: Vec<Held>)
        requires { vec_len changes ≤ self.old.room }
        ensures { self.new.held ≡ after_all self.old.held (map entry_of changes.items) }
    {
        for change in changes {
            self.follow(change);
        }
    }

    pub(crate) fn get(&self, key: &Key) -> Option<&Record>
        ensures { seen_record result ≡ record_at self.now.held key.now }
    {
        self.records.get(key)
    }

    /// A copy. It shares the records.
    pub(crate) fn share(&self, alloc: Global) -> Result<Counted, AllocError>
        ensures { IfOk result (λ c. c.held ≡ self.now.held) }
    {
        Ok(Counted {
            records: self.records.share(alloc)?,
            counts: self.counts.again(),
        })
    }

    /// The records in the order of their keys.
    pub(crate) fn as_slice(&self) -> &[Held]
        ensures { map entry_of result.now ≡ values self.now.held }
    {
        self.records.as_slice()
    }

    pub(crate) fn len(&self) -> usize
        ensures { result ≡ len self.now.held }
    {
        self.records.len()
    }

    /// The hash code of the records. Refused only as `OutOfMemory`.
    pub(crate) fn hash(&self, alloc: Global) -> Result<Text, Fault>
        ensures hash { IfOk result (λ t. t ≡ hash (rows_of self.now.held)) }
        ensures memory { IfErr result (λ e. e ≡ OutOfMemory) }
    {
        let hash = self.counts.text(alloc)?;
        Ok(hash)
    }

    /// Whether a text is the hash code of the records.
    pub(crate) fn hash_is(&self, text: &str) -> bool
        ensures { result ≡ bytes_eq text.now (hash (rows_of self.now.held)) }
    {
        self.counts.is_text(text)
    }
}
