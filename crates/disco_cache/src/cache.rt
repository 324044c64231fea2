//! The first cache level: documents that are kept until a change names them.
ghost use Rattle.std.specs.Prelude.{◌≡◌, ◌≤◌, ◌||◌, IfErr, IfOk, IfSome, IsTrue, OnErr, false, if◌then◌else◌, length, map, nat_lt, option_map};
ghost use Rattle.std.specs.Option.{option_map_or};
ghost use Rattle.std.specs.List as list;
ghost use Rattle.std.specs.FinMap as finmap;
ghost use Rattle.disco_instance.specs.Row.{row};
ghost use Rattle.disco_values.specs.declared.fault.Fault.TheVariants.{OutOfMemory};
ghost use Rattle.disco_history.specs.Query.{asks_for, is_named, vips};
ghost use Rattle.disco_wire.specs.Documents.{asked_by};
ghost use Rattle.disco_cache.specs.Docs.{Drops};
ghost use Rattle.disco_cache.specs.Kept.{AreAskedAlike, AreDocsSorted, IsDocAt, IsDocGap, doc_of, is_of, is_of_any, doc_key, docs_map, query_of};

use crate::payload::Payload;
use crate::query_ref::{QueryRef, compare};
use disco_index::next_vip;
use disco_instance::Record;
use disco_values::{DocKey, Fault, Form};
use std::alloc::Global;
use std::marker::Model;
use std::sync::Arc;

/// The first cache level, as Eureka's read-write cache: up to so many documents by key, each until a
/// change names it.
#[derive(Drop)]
pub struct DocCache {
    docs: Vec<Arc<Payload, Global>>,
    max: u64,
}

impl Model for DocCache {
    ghost use Rattle.std.specs.Coded.{codes};
    ghost use Rattle.std.specs.FinMap.{code};
    ghost use Rattle.disco_cache.specs.Docs.{Docs};
    ghost use Rattle.disco_cache.specs.Kept.{AreDocsSorted, docs_map};

    ghost Value = { Docs };

    ghost coded = { Prim.hlevel (codes, code) };

    ghost view = { λ c. record { docs = docs_map c.docs.items; max = c.max } };

    ghost invariant = { λ c. AreDocsSorted c.docs.items };
}

/// Where the document of a key is, or where it would go.
fn place(docs: &[Arc<Payload, Global>], key: &DocKey) -> Result<usize, usize>
    requires { AreDocsSorted docs.now }
    ensures found { IfOk result (λ i. IsDocAt docs.now key.now i) }
    ensures absent { IfErr result (λ i. IsDocGap docs.now key.now i) }
{
    docs.binary_search_by(|doc| doc.key.cmp(key))
}

/// Where the document of a query is, in a form, or where it would go.
fn place_of(
    docs: &[Arc<Payload, Global>],
    query_ref: QueryRef<'_>,
    form: Form,
) -> Result<usize, usize>
    requires { AreDocsSorted docs.now }
    ensures found { IfOk result (λ i. IsDocAt docs.now (doc_of (query_of query_ref.entry) form) i) }
    ensures absent { IfErr result (λ i. IsDocGap docs.now (doc_of (query_of query_ref.entry) form) i) }
{
    docs.binary_search_by(|doc| compare(&doc.key, query_ref, form))
}

/// Inserts a document where it goes, if there are fewer than `max`. Answers whether it did.
fn insert(
    docs: &mut Vec<Arc<Payload, Global>>,
    i: usize,
    doc: Arc<Payload, Global>,
    max: u64,
) -> Result<bool, Fault>
    requires { i ≤ length docs.old.items }
    ensures room { IfOk result (λ kept. kept ≡ nat_lt (length docs.old.items) max) }
    ensures docs { IfOk result (λ kept. docs.new.items ≡ (if kept then list.insert docs.old.items i doc else docs.old.items)) }
    ensures err { OnErr result (docs.new.items ≡ docs.old.items) }
    ensures memory { IfErr result (λ e. e ≡ OutOfMemory) }
{
    if docs.len() as u64 >= max {
        return Ok(false);
    }
    docs.insert(i, doc)?;
    Ok(true)
}

fn keys_of(docs: &[Arc<Payload, Global>], alloc: Global) -> Result<Vec<&DocKey>, Fault>
    ensures keys { IfOk result (λ keys. map (λ k. k.now) keys.items ≡ map doc_key docs.now) }
    ensures memory { IfErr result (λ e. e ≡ OutOfMemory) }
{
    let mut keys = Vec::with_capacity(alloc, docs.len())?;
    for doc in docs {
        keys.push(&doc.key)?;
    }
    Ok(keys)
}

/// Whether both records have the same key and the same vips, so that the same queries ask for them.
fn are_asked_alike(old: Option<&Record>, new: Option<&Record>) -> bool
    ensures { IsTrue result → AreAskedAlike (option_map (λ r. row r.now) old.entry) (option_map (λ r. row r.now) new.entry) }
{
    match (old, new) {
        (Some(old), Some(new)) => {
            old.key == new.key
                && old.details.vip_address == new.details.vip_address
                && old.details.secure_vip_address == new.details.secure_vip_address
        }
        _ => false,
    }
}

impl DocCache {
    /// An empty cache, for at most so many documents (`--entries`).
    pub fn new(alloc: Global, entries: u64) -> DocCache
        ensures { result ≡ record { docs = finmap.empty; max = entries } }
    {
        DocCache {
            docs: Vec::new(alloc),
            max: entries,
        }
    }

    /// How many documents it keeps at most.
    pub fn entries(&self) -> u64
        ensures { result ≡ self.now.max }
    {
        self.max
    }

    /// The document of a key, if it is kept. Takes no memory.
    pub fn get(&self, key: &DocKey) -> Option<&Arc<Payload, Global>>
        ensures found { option_map (λ d. d.now.value) result ≡ finmap.get self.now.docs key.now }
        ensures same_key { IfSome result (λ d. d.now.value.key ≡ key.now) }
    {
        match place(&self.docs, key) {
            Ok(i) => Some(&self.docs[i]),
            Err(_) => None,
        }
    }

    /// Keeps a document, and replaces that of its key where there is one. Answers whether it is kept:
    /// it isn't where the cache is full.
    ///
    /// # Errors
    ///
    /// `OutOfMemory` alone. The cache is then as it was.
    pub fn put(&mut self, doc: Arc<Payload, Global>) -> Result<bool, Fault>
        ensures room { IfOk result (λ kept. kept ≡ (finmap.contains_key self.old.docs doc.value.key || nat_lt (finmap.len self.old.docs) self.old.max)) }
        ensures docs { IfOk result (λ kept. self.new.docs ≡ (if kept then finmap.insert self.old.docs doc.value.key doc.value else self.old.docs)) }
        ensures max { self.new.max ≡ self.old.max }
        ensures err { OnErr result (self.new ≡ self.old) }
        ensures memory { IfErr result (λ e. e ≡ OutOfMemory) }
    {
        match place(&self.docs, &doc.key) {
            Ok(i) => {
                self.docs[i] = doc;
                Ok(true)
            }
            Err(i) => insert(&mut self.docs, i, doc, self.max),
        }
    }

    /// The keys of the kept documents, in their order.
    ///
    /// # Errors
    ///
    /// `OutOfMemory` alone.
    pub fn keys(&self, alloc: Global) -> Result<Vec<&DocKey>, Fault>
        ensures keys { IfOk result (λ found. map (λ k. k.now) found.items ≡ finmap.keys self.now.docs) }
        ensures memory { IfErr result (λ e. e ≡ OutOfMemory) }
    {
        keys_of(&self.docs, alloc)
    }

    /// Drops each document, in both forms, that a change names: whose query asks for the record that
    /// was there or for the one that is put. Takes no memory. The cost grows with the number of the
    /// records' vips.
    pub fn invalidate(&mut self, old: Option<&Record>, new: Option<&Record>)
        ensures { Drops (λ k. is_named (option_map (λ r. row r.now) old.entry) (option_map (λ r. row r.now) new.entry) (asked_by k.query)) self.old self.new }
    {
        if self.docs.is_empty() {
            return;
        }
        if are_asked_alike(old, new) {
            return self.forget_any(new);
        }
        self.forget_any(old);
        self.forget_any(new);
    }

    fn forget_any(&mut self, rec: Option<&Record>)
        ensures { Drops (λ k. option_map_or (asks_for (asked_by k.query)) (option_map (λ r. row r.now) rec.entry) false) self.old self.new }
    {
        if let Some(rec) = rec {
            self.forget(rec);
        }
    }

    /// Drops each document whose query asks for the record.
    fn forget(&mut self, rec: &Record)
        ensures { Drops (λ k. asks_for (asked_by k.query) (row rec.now)) self.old self.new }
    {
        self.drop_both(QueryRef::Apps);
        self.drop_both(QueryRef::Delta);
        self.drop_both(QueryRef::App(rec.key.app.as_str()));
        self.drop_both(QueryRef::Instance(&rec.key));
        self.drop_vips(rec.details.vip_address.as_str(), false);
        self.drop_vips(rec.details.secure_vip_address.as_str(), true);
    }

    /// Drops the documents of each vip, or secure vip, of an address.
    fn drop_vips(&mut self, address: &str, secure: bool)
        ensures { Drops (is_of_any secure (vips address.now)) self.old self.new }
    {
        let mut rest = address;
        while let Some((vip, after)) = next_vip(rest) {
            self.drop_both(QueryRef::of_vip(vip, secure));
            rest = after;
        }
    }

    /// Drops the documents of a query, in both forms.
    fn drop_both(&mut self, query_ref: QueryRef<'_>)
        ensures { Drops (is_of (query_of query_ref.entry)) self.old self.new }
    {
        self.drop_one(query_ref, Form::Full);
        self.drop_one(query_ref, Form::Compact);
    }

    fn drop_one(&mut self, query_ref: QueryRef<'_>, form: Form)
        ensures docs { self.new.docs ≡ finmap.remove self.old.docs (doc_of (query_of query_ref.entry) form) }
        ensures max { self.new.max ≡ self.old.max }
    {
        if let Ok(i) = place_of(&self.docs, query_ref, form) {
            let _ = self.docs.remove(i);
        }
    }
}
