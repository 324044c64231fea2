//! The second cache level: documents that a publisher shows to readers.
ghost use Rattle.std.specs.Prelude.{◌≡◌, IfErr, IfOk, IfSome, OnErr, OnOk, option_map};
ghost use Rattle.std.specs.FinMap as finmap;
ghost use Rattle.disco_values.specs.declared.fault.Fault.TheVariants.{OutOfMemory};
ghost use Rattle.disco_cache.specs.Shelved.{AreShelved, IsEntryAt, IsEntryGap};

use crate::entry::Entry;
use crate::payload::Payload;
use disco_values::{DocKey, Fault};
use std::alloc::Global;
use std::marker::Model;
use std::sync::Arc;

/// The second cache level, as Eureka's read-only cache: documents by key, as many as were copied.
#[derive(Drop)]
pub struct Edition {
    entries: Vec<Entry>,
}

impl Model for Edition {
    ghost use Rattle.std.specs.Coded.{codes};
    ghost use Rattle.std.specs.FinMap.{FinMap, code};
    ghost use Rattle.disco_values.specs.Keys.{doc_cmp};
    ghost use Rattle.disco_cache.specs.Shelved.{AreShelved, entries_map};
    ghost use Rattle.disco_cache.specs.declared.payload.Payload.{Payload};

    ghost Value = { FinMap doc_cmp Payload };

    ghost coded = { Prim.hlevel (codes, code) };

    ghost view = { λ e. entries_map e.entries.items };

    ghost invariant = { λ e. AreShelved e.entries.items };
}

/// Where the document of a key is, or where it would go.
fn place(entries: &[Entry], key: &DocKey) -> Result<usize, usize>
    requires { AreShelved entries.now }
    ensures found { IfOk result (λ i. IsEntryAt entries.now key.now i) }
    ensures absent { IfErr result (λ i. IsEntryGap entries.now key.now i) }
{
    entries.binary_search_by(|entry| entry.key.compare(key))
}

impl Edition {
    /// An empty edition.
    pub fn new(alloc: Global) -> Edition
        ensures { result ≡ finmap.empty }
    {
        Edition {
            entries: Vec::new(alloc),
        }
    }

    /// How many documents there are.
    pub fn len(&self) -> usize
        ensures { result ≡ finmap.len self.now }
    {
        self.entries.len()
    }

    /// The document of a key, if there is one. Takes no memory.
    pub fn get(&self, key: &DocKey) -> Option<&Arc<Payload, Global>>
        ensures found { option_map (λ d. d.now.value) result ≡ finmap.get self.now key.now }
        ensures same_key { IfSome result (λ d. d.now.value.key ≡ key.now) }
    {
        match place(&self.entries, key) {
            Ok(i) => Some(&self.entries[i].doc),
            Err(_) => None,
        }
    }

    /// Puts a document in, and replaces that of its key where there is one.
    ///
    /// # Errors
    ///
    /// `OutOfMemory` alone. The edition is then as it was.
    pub fn put(&mut self, doc: Arc<Payload, Global>) -> Result<(), Fault>
        ensures docs { OnOk result (self.new ≡ finmap.insert self.old doc.value.key doc.value) }
        ensures err { OnErr result (self.new ≡ self.old) }
        ensures memory { IfErr result (λ e. e ≡ OutOfMemory) }
    {
        let entry = Entry::of(doc)?;
        match place(&self.entries, &entry.key) {
            Ok(i) => self.entries[i] = entry,
            Err(i) => self.entries.insert(i, entry)?,
        }
        Ok(())
    }

    /// Removes the document of a key, if there is one. Takes no memory.
    pub fn remove(&mut self, key: &DocKey)
        ensures { self.new ≡ finmap.remove self.old key.now }
    {
        if let Ok(i) = place(&self.entries, key) {
            let _ = self.entries.remove(i);
        }
    }
}
