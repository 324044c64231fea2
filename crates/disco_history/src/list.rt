//! Held records in the order of their keys.
ghost use Rattle.std.specs.Prelude.{◌≡◌, ◌<◌, ◌≤◌, ◌+◌, IfOk, IfErr, IfSome, OnOk, None, map};
ghost use Rattle.std.specs.FinMap as finmap;
ghost use Rattle.std.specs.FinMap.{values};
ghost use Rattle.disco_history.specs.Held.{entry_of, record_at, seen_record};
ghost use Rattle.disco_history.specs.List.{AreSorted, IsAt, IsGap};

use crate::held::Held;
use disco_instance::Record;
use disco_values::Key;
use std::alloc::{AllocError, Global};
use std::marker::Model;

/// Held records in the order of their keys, each key once.
#[derive(Drop)]
pub struct RecordList {
    records: Vec<Held>,
}

impl Model for RecordList {
    ghost use Rattle.std.specs.Prelude.{◌-◌, vec_len};
    ghost use Rattle.std.specs.Coded.{codes};
    ghost use Rattle.std.specs.FinMap.{code};
    ghost use Rattle.std.specs.Vec.{vec_capacity};
    ghost use Rattle.disco_history.specs.List.{AreSorted, map_of};
    ghost use Rattle.disco_history.specs.Room.{Room};

    ghost Value = { Room };

    ghost coded = { Prim.hlevel (codes, code) };

    ghost view = { λ r. record { held = map_of r.records.items; room = vec_capacity r.records - vec_len r.records } };

    ghost invariant = { λ r. AreSorted r.records.items };
}

/// Where the key is, or where it would go, among records in the order of their keys.
fn search(records: &[Held], key: &Key) -> Result<usize, usize>
    requires { AreSorted records.now }
    ensures found { IfOk result (λ i. IsAt records.now key.now i) }
    ensures absent { IfErr result (λ i. IsGap records.now key.now i) }
{
    records.binary_search_by(|held| held.rec.key.cmp(key))
}

impl RecordList {
    /// No records.
    pub fn new(alloc: Global) -> RecordList
        ensures { result.held ≡ finmap.empty }
    {
        RecordList {
            records: Vec::new(alloc),
        }
    }

    /// The record of a key.
    pub fn get(&self, key: &Key) -> Option<&Record>
        ensures found { seen_record result ≡ record_at self.now.held key.now }
        ensures same_key { IfSome result (λ r. r.now.key ≡ key.now) }
    {
        match search(&self.records, key) {
            Ok(i) => Some(&*self.records[i].rec),
            Err(_) => None,
        }
    }

    /// How many records there are.
    pub fn len(&self) -> usize
        ensures { result ≡ finmap.len self.now.held }
    {
        self.records.len()
    }

    /// All of them, in the order of their keys.
    pub fn as_slice(&self) -> &[Held]
        ensures { map entry_of result.now ≡ values self.now.held }
    {
        &self.records
    }

    /// A copy of the list. It shares the records.
    ///
    /// # Errors
    ///
    /// `AllocError` where memory is refused.
    pub fn share(&self, alloc: Global) -> Result<RecordList, AllocError>
        ensures { IfOk result (λ r. r.held ≡ self.now.held) }
    {
        let mut records = Vec::new(alloc);
        for held in self.records.as_slice() {
            records.push(held.share()?)?;
        }
        Ok(RecordList { records })
    }

    /// Makes room for so many more records.
    ///
    /// # Errors
    ///
    /// `AllocError` where memory is refused. The records are then as they were.
    pub fn reserve_for(&mut self, records: usize) -> Result<(), AllocError>
        ensures same { self.new.held ≡ self.old.held }
        ensures ok { OnOk result (records ≤ self.new.room) }
    {
        self.records.reserve(records)
    }

    /// Puts a record in: it replaces that of its key, or takes room that is there. Takes no memory.
    pub fn put(&mut self, added: Held)
        requires { finmap.get self.old.held added.rec.value.key ≡ None → 0 < self.old.room }
        ensures held { self.new.held ≡ finmap.insert self.old.held added.rec.value.key (entry_of added) }
        ensures room { self.old.room ≤ self.new.room + 1 }
    {
        match search(&self.records, &added.rec.key) {
            Ok(i) => self.records[i] = added,
            Err(i) => self.records.insert(i, added).unwrap(),
        }
    }

    /// Removes the record of a key, if there is one. Takes no memory.
    pub fn take(&mut self, key: &Key)
        ensures held { self.new.held ≡ finmap.remove self.old.held key.now }
        ensures room { self.old.room ≤ self.new.room }
    {
        if let Ok(i) = search(&self.records, key) {
            let _ = self.records.remove(i);
        }
    }
}
