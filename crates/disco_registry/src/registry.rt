//! The registry.
ghost use Rattle.std.specs.Prelude.{◌≡◌, ◌<◌, ◌^◌, ◌&&◌, ℕ, not, nat_lt, List, [], map, Err, IfOk, IfErr, IfSome, IsTrue, None, Some, Ok};
ghost use Rattle.std.specs.Prelude.{OnOk, false, is_none, is_some};
ghost use Rattle.std.specs.Prelude.{filter, option_map, true};
ghost use Rattle.std.specs.FinMap.{get, len, values};
ghost use Rattle.std.specs.List.{filter_map, find};
ghost use Rattle.std.specs.Option.{option_map_or};
ghost use Rattle.disco_instance.specs.Instance.{Gives};
ghost use Rattle.disco_instance.specs.Moments.{modified_at};
ghost use Rattle.disco_instance.specs.Row.{row};
ghost use Rattle.disco_values.specs.declared.action.Action.TheVariants.{Added, Modified, Deleted};
ghost use Rattle.disco_values.specs.Status.{status_named};
ghost use Rattle.disco_values.specs.declared.fault.Fault.TheVariants.{OutOfMemory};
ghost use Rattle.disco_values.specs.declared.status.Status.TheVariants.{Unknown};
ghost use Rattle.disco_history.specs.Change.{Entry, is_proper, change_view};
ghost use Rattle.disco_history.specs.Query.{by_id};
ghost use Rattle.disco_history.specs.Registry.{put_of, registry_of};
ghost use Rattle.disco_registry.specs.Accept.{MayRefuse, accept_after, accepts, limits_of};
ghost use Rattle.disco_history.specs.Apps.{is_of_app, is_of_id};
ghost use Rattle.disco_registry.specs.Commit.{IsPrepared, IsReady, Takes, changes_properly, done_by, appended, outcome};
ghost use Rattle.disco_history.specs.Held.{entry_of, record_at, seen_record};
ghost use Rattle.disco_places.specs.KeyMaps.{of_apps};
ghost use Rattle.disco_registry.specs.Op.{op_view, register, cancel, renew, set_status, drop_status, add_metadata};
ghost use Rattle.disco_registry.specs.State.{IsSameRegistry, StandsFor, RegistryState};

use crate::op::{Applied, Op};
use crate::records::Records;
use crate::settle::settled;
use disco_history::{Change, Held};
use disco_instance::Record;
use disco_places::IdMap;
use disco_values::{Action, Entries, Fault, Key, Status, Text, status_of};
use std::alloc::{AllocError, Global};
use std::collections::BTreeMap;
use std::marker::Model;
use std::sync::Arc;

/// The registered instances, the number of changes that led to them, and how many of both there
/// may be.
#[derive(Drop)]
pub struct Registry {
    alloc: Global,
    records: Records,
    version: u64,
    versions: u64,
    instances: u64,
}

impl Model for Registry {
    ghost use Rattle.std.specs.Coded.{codes};
    ghost use Rattle.std.specs.FinMap.{code};
    ghost use Rattle.disco_registry.specs.State.{RegistryState};

    ghost Value = { RegistryState };

    ghost coded = { Prim.hlevel (codes, code) };

    ghost view = { λ r. record { held = r.records.held; version = r.version; versions = r.versions; instances = r.instances; next = r.records.next } };
}

/// An accepted operation, with all that its commit needs.
#[derive(Drop)]
pub struct Ready {
    change: Option<Change>,
    kept: Option<Held>,
}

impl Model for Ready {
    ghost use Rattle.std.specs.Prelude.{Option, option_map};
    ghost use Rattle.disco_history.specs.Change.{Entry, change_view};
    ghost use Rattle.disco_history.specs.Held.{entry_of};
    ghost use Rattle.disco_registry.specs.Commit.{IsPrepared};

    ghost Value = { Option Entry };

    ghost view = { λ r. option_map change_view r.change };

    ghost invariant = { λ r. IsPrepared r.change (option_map entry_of r.kept) };
}

impl Ready {
    /// The change that a commit makes, where there is one.
    pub fn change(&self) -> Option<&Change>
        ensures change { option_map (λ c. change_view c.now) result ≡ self.now }
        ensures proper { IfSome result (λ c. is_proper c.now ≡ true) }
    {
        self.change.as_ref()
    }
}

/// What is ready where there is nothing to change.
fn same_ready() -> Ready
    ensures { result ≡ None }
{
    Ready {
        change: None,
        kept: None,
    }
}

/// A record with what its last change did.
#[inline(always)]
fn kept_as(alloc: Global, rec: Record, action: Action) -> Result<Held, AllocError>
    ensures { IfOk result (λ h. entry_of h ≡ (row rec, action)) }
{
    Ok(Held {
        rec: Arc::new(alloc, rec)?,
        action,
    })
}

/// What is ready for a record that is put.
#[inline(always)]
fn put_ready(kept: Held) -> Result<Ready, Fault>
    requires { put_of (entry_of kept) ≡ Some (entry_of kept) }
    ensures memory { IfErr result (λ e. e ≡ OutOfMemory) }
    ensures change { IfOk result (λ r. r ≡ Some (entry_of kept)) }
{
    let change = Change::Put {
        action: kept.action,
        rec: Arc::try_clone(&kept.rec)?,
    };
    Ok(Ready {
        change: Some(change),
        kept: Some(kept),
    })
}

fn gone_ready(alloc: Global, record_out: Record) -> Result<Ready, Fault>
    ensures memory { IfErr result (λ e. e ≡ OutOfMemory) }
    ensures change { IfOk result (λ r. r ≡ Some (row record_out, Deleted)) }
{
    Ok(Ready {
        change: Some(Change::Gone {
            rec: Arc::new(alloc, record_out)?,
        }),
        kept: None,
    })
}

/// What is ready for a record that a change of its status or its override puts at a moment.
#[inline(always)]
fn modified_ready(
    alloc: Global,
    held: &Record,
    status: Status,
    overridden_status: Status,
    now: u64,
) -> Result<Ready, Fault>
    ensures memory { IfErr result (λ e. e ≡ OutOfMemory) }
    ensures change { IfOk result (λ r. r ≡ Some (modified_at (row held.now) status overridden_status now, Modified)) }
{
    let new = held.copy()?.modified(status, overridden_status, now);
    let kept = kept_as(alloc, new, Action::Modified)?;
    let ready = put_ready(kept)?;
    Ok(ready)
}

fn status_given(text: &Option<Text>) -> Option<Status>
    ensures { result ≡ option_map_or status_named text.now (Some Unknown) }
{
    match text {
        None => Some(Status::Unknown),
        Some(text) => status_of(text.as_str()),
    }
}

fn record_of(held: Option<&Held>) -> Option<&Record>
    ensures { seen_record result ≡ option_map (λ e. e.0) (option_map (λ h. entry_of h.now) held.entry) }
{
    match held {
        Some(held) => Some(&*held.rec),
        None => None,
    }
}

impl Registry {
    /// An empty registry at version 0, with its limits.
    pub fn new(alloc: Global, versions: u64, instances: u64) -> Registry
        ensures empty { StandsFor result [] }
        ensures limits { limits_of result ≡ record { versions = versions; instances = instances } }
    {
        Registry {
            alloc,
            records: Records::new(alloc),
            version: 0,
            versions,
            instances,
        }
    }

    /// The record under a key.
    pub fn get(&self, key: &Key) -> Option<&Record>
        ensures found { seen_record result ≡ record_at self.now.held key.now }
        ensures history { (h : List Entry) → StandsFor self.now h → seen_record result ≡ get (registry_of h) key.now }
    {
        self.records.get(key)
    }

    /// The record under a key, with what its last change did.
    pub fn held(&self, key: &Key) -> Option<&Held>
        ensures found { option_map (λ h. entry_of h.now) result ≡ get self.now.held key.now }
        ensures same_key { IfSome result (λ h. h.now.rec.value.key ≡ key.now) }
    {
        self.records.held(key)
    }

    /// The record of an id: of several apps' the one with the least app, in byte order. Goes over all
    /// records; `with_id` doesn't.
    pub fn by_id(&self, id: &str) -> Option<&Record>
        ensures found { seen_record result ≡ option_map (λ e. e.0) (find (is_of_id id.now) (values self.now.held)) }
        ensures history { (h : List Entry) → StandsFor self.now h → seen_record result ≡ by_id (registry_of h) id.now }
    {
        record_of(self.records.of_id(id))
    }

    /// The same, by a search among the ids of each app.
    pub fn with_id(&self, id: &Text) -> Option<&Record>
        ensures found { seen_record result ≡ option_map (λ e. e.0) (find (is_of_id id.now) (values self.now.held)) }
        ensures history { (h : List Entry) → StandsFor self.now h → seen_record result ≡ by_id (registry_of h) id.now }
    {
        record_of(self.records.with_id(id))
    }

    /// The records of an app in the order of their ids. It costs nothing for those of other apps,
    /// but for the search.
    ///
    /// # Errors
    ///
    /// `AllocError` where memory is refused.
    pub fn of_app(&self, alloc: Global, app: &Text) -> Result<Vec<Held>, AllocError>
        ensures { IfOk result (λ v. map entry_of v.items ≡ filter (is_of_app app.now) (values self.now.held)) }
    {
        self.records.of_app(alloc, app)
    }

    /// How many instances are held.
    pub fn len(&self) -> usize
        ensures held { result ≡ len self.now.held }
        ensures history { (h : List Entry) → StandsFor self.now h → result ≡ len (registry_of h) }
    {
        self.records.len()
    }

    /// How many changes were accepted.
    pub fn version(&self) -> u64
        ensures version { result ≡ self.now.version }
        ensures fits { self.now.versions < 2 ^ 64 }
    {
        // For the proof alone: `versions` fits a u64.
        let _versions = self.versions;
        self.version
    }

    /// The held records, by app and then by id. A place may be empty, and no other answer shows it.
    pub fn records(&self) -> &BTreeMap<Text, IdMap<Option<Held>>>
        ensures { filter_map (λ e. option_map entry_of e.1) (of_apps result.now.entries) ≡ values self.now.held }
    {
        self.records.apps()
    }

    /// Takes all memory that an operation needs, and changes no answer.
    ///
    /// # Errors
    ///
    /// The fault of the operation, or `OutOfMemory`.
    pub fn ready(&mut self, op: Op, now: u64) -> Result<Ready, Fault>
        ensures same { IsSameRegistry self.old self.new }
        ensures ready { IfOk result (λ r. accepts self.old (op_view op) now ≡ Ok r × IsReady self.new r) }
        ensures refused { IfErr result (MayRefuse self.old (op_view op) now) }
    {
        let is_held = self.seek(op.key());
        match op {
            Op::Register(posted) => self.ready_register(posted, is_held, now),
            Op::Cancel(key) => self.ready_cancel(&key, now),
            Op::Renew(key) => self.ready_renew(&key, now),
            Op::SetStatus(key, text) => self.ready_set_status(&key, &text, now),
            Op::DropStatus(key, text) => self.ready_drop_status(&key, &text, now),
            Op::Metadata(key, entries) => self.ready_metadata(&key, &entries, now),
        }
    }

    /// Makes ready an operation that its caller keeps, as [`Registry::ready`] does. Copies the record
    /// of a registration.
    ///
    /// # Errors
    ///
    /// The fault of the operation, or `OutOfMemory`.
    pub fn ready_borrowed(&mut self, op: &Op, now: u64) -> Result<Ready, Fault>
        ensures same { IsSameRegistry self.old self.new }
        ensures ready { IfOk result (λ r. accepts self.old (op_view op.now) now ≡ Ok r × IsReady self.new r) }
        ensures refused { IfErr result (MayRefuse self.old (op_view op.now) now) }
    {
        let is_held = self.seek(op.key());
        match op {
            Op::Register(posted) => self.ready_register(posted.copy()?, is_held, now),
            Op::Cancel(key) => self.ready_cancel(key, now),
            Op::Renew(key) => self.ready_renew(key, now),
            Op::SetStatus(key, text) => self.ready_set_status(key, text, now),
            Op::DropStatus(key, text) => self.ready_drop_status(key, text, now),
            Op::Metadata(key, entries) => self.ready_metadata(key, entries, now),
        }
    }

    /// Removes the place that was made for another operation, and searches for the record of a key,
    /// once for all calls until its change is made. No answer shows it. Answers whether there is one.
    fn seek(&mut self, key: &Key) -> bool
        ensures same { self.new ≡ record self.old { next = None } }
        ensures held { result ≡ is_some (get self.old.held key.now) }
    {
        self.records.forget();
        self.records.seek(key)
    }

    /// The record under a key, where it is known whether there is one. Searches only where there is.
    fn known(&self, key: &Key, is_held: bool) -> Option<&Record>
        requires { is_held ≡ is_some (get self.now.held key.now) }
        ensures found { seen_record result ≡ record_at self.now.held key.now }
        ensures same_key { IfSome result (λ r. r.now.key ≡ key.now) }
    {
        if is_held { self.records.get(key) } else { None }
    }

    fn has_no_place(&self, held: Option<&Record>) -> bool
        ensures { result ≡ (is_none (seen_record held.entry) && not (nat_lt (len self.now.held) self.now.instances)) }
    {
        held.is_none() && self.records.len() as u64 >= self.instances
    }

    /// Whether a registration over what is held under its key is admitted at a moment.
    fn admit(&self, held: Option<&Record>, posted: &Record, now: u64) -> Result<(), Fault>
        requires { seen_record held ≡ record_at self.now.held posted.now.key }
        ensures place { OnOk result ((is_none (record_at self.now.held posted.now.key) && not (nat_lt (len self.now.held) self.now.instances)) ≡ false) }
        ensures left { OnOk result (self.now.version < self.now.versions) }
        ensures refused { IfErr result (MayRefuse self.now (register (row posted.now)) now) }
    {
        // For the proof alone: only the clauses name them.
        let _ = now;
        let _ = posted;
        if self.has_no_place(held) {
            return Err(Fault::TooManyInstances);
        }
        if self.version >= self.versions {
            return Err(Fault::VersionsSpent);
        }
        Ok(())
    }

    /// Makes a place for a record that is put next, where its key is new.
    fn make_place(&mut self, kept: &Held, is_new: bool) -> Result<(), AllocError>
        requires { IsTrue is_new → get self.old.held kept.now.rec.value.key ≡ None }
        ensures same { IsSameRegistry self.old self.new }
        ensures place { OnOk result (IsTrue is_new → self.new.next ≡ Some kept.now.rec.value.key) }
    {
        if is_new {
            self.records.make(kept.share()?)?;
        }
        Ok(())
    }

    fn ready_register(&mut self, posted: Record, is_held: bool, now: u64) -> Result<Ready, Fault>
        requires { is_held ≡ is_some (get self.old.held posted.key) }
        ensures same { IsSameRegistry self.old self.new }
        ensures ready { IfOk result (λ r. accepts self.old (register (row posted)) now ≡ Ok r × IsReady self.new r) }
        ensures refused { IfErr result (MayRefuse self.old (register (row posted)) now) }
    {
        let held = self.known(&posted.key, is_held);
        self.admit(held, &posted, now)?;
        let is_new = held.is_none();
        let new = settled(held, posted, now)?;
        let kept = kept_as(self.alloc, new, Action::Added)?;
        self.make_place(&kept, is_new)?;
        let ready = put_ready(kept)?;
        Ok(ready)
    }

    fn ready_cancel(&self, key: &Key, now: u64) -> Result<Ready, Fault>
        ensures ready { IfOk result (λ r. accepts self.now (cancel key.now) now ≡ Ok r × IsReady self.now r) }
        ensures refused { IfErr result (MayRefuse self.now (cancel key.now) now) }
    {
        let Some(held) = self.records.get(key) else {
            return Err(Fault::NotFound);
        };
        if self.version >= self.versions {
            return Err(Fault::VersionsSpent);
        }
        let gone = held.copy()?.cancelled(now);
        let ready = gone_ready(self.alloc, gone)?;
        Ok(ready)
    }

    /// Whether a renewal of the lease of a key is accepted: where it is held, and its status isn't
    /// Unknown. Takes no memory.
    ///
    /// # Errors
    ///
    /// `NotFound` alone, exactly where a renewal is refused.
    pub fn admit_renewal(&self, key: &Key) -> Result<(), Fault>
        ensures accepted { OnOk result ((now : ℕ) → accepts self.now (renew key.now) now ≡ Ok None) }
        ensures refused { IfErr result (λ e. (now : ℕ) → accepts self.now (renew key.now) now ≡ Err e) }
    {
        let Some(held) = self.records.get(key) else {
            return Err(Fault::NotFound);
        };
        if held.status.is(Status::Unknown) {
            return Err(Fault::NotFound);
        }
        Ok(())
    }

    fn ready_renew(&self, key: &Key, now: u64) -> Result<Ready, Fault>
        ensures ready { IfOk result (λ r. accepts self.now (renew key.now) now ≡ Ok r × IsReady self.now r) }
        ensures refused { IfErr result (MayRefuse self.now (renew key.now) now) }
    {
        // For the proof alone: only the clauses name it.
        let _ = now;
        match self.admit_renewal(key) {
            Ok(()) => Ok(same_ready()),
            Err(fault) => Err(fault),
        }
    }

    fn ready_set_status(&self, key: &Key, text: &Text, now: u64) -> Result<Ready, Fault>
        ensures ready { IfOk result (λ r. accepts self.now (set_status key.now text.now) now ≡ Ok r × IsReady self.now r) }
        ensures refused { IfErr result (MayRefuse self.now (set_status key.now text.now) now) }
    {
        let Some(status) = status_of(text.as_str()) else {
            return Err(Fault::BadStatus);
        };
        let Some(held) = self.records.get(key) else {
            return Err(Fault::NotFound);
        };
        if held.status.is(status) {
            return Ok(same_ready());
        }
        if self.version >= self.versions {
            return Err(Fault::VersionsSpent);
        }
        let ready = modified_ready(self.alloc, held, status, status, now)?;
        Ok(ready)
    }

    fn ready_drop_status(&self, key: &Key, text: &Option<Text>, now: u64) -> Result<Ready, Fault>
        ensures ready { IfOk result (λ r. accepts self.now (drop_status key.now text.now) now ≡ Ok r × IsReady self.now r) }
        ensures refused { IfErr result (MayRefuse self.now (drop_status key.now text.now) now) }
    {
        let Some(status) = status_given(text) else {
            return Err(Fault::BadStatus);
        };
        let Some(held) = self.records.get(key) else {
            return Err(Fault::NotFound);
        };
        if held.overridden_status.is(Status::Unknown) {
            return Ok(same_ready());
        }
        if self.version >= self.versions {
            return Err(Fault::VersionsSpent);
        }
        let ready = modified_ready(self.alloc, held, status, Status::Unknown, now)?;
        Ok(ready)
    }

    fn ready_metadata(&self, key: &Key, entries: &Entries, now: u64) -> Result<Ready, Fault>
        ensures ready { IfOk result (λ r. accepts self.now (add_metadata key.now entries.now) now ≡ Ok r × IsReady self.now r) }
        ensures refused { IfErr result (MayRefuse self.now (add_metadata key.now entries.now) now) }
    {
        let Some(held) = self.records.get(key) else {
            return Err(Fault::NotFound);
        };
        if self.version >= self.versions {
            return Err(Fault::VersionsSpent);
        }
        let posted = held.copy()?.with_entries(self.alloc, entries)?;
        let new = settled(Some(held), posted, now)?;
        let kept = kept_as(self.alloc, new, Action::Added)?;
        let ready = put_ready(kept)?;
        Ok(ready)
    }

    /// Makes the change that is ready, where there is one. Takes no memory.
    pub fn commit(&mut self, ready: Ready) -> Applied
        requires { IsReady self.old ready }
        ensures change { done_by result ≡ ready }
        ensures proper { changes_properly result ≡ true }
        ensures takes { Takes self.old ready self.new }
        ensures history { (h : List Entry) → StandsFor self.old h → StandsFor self.new (appended h ready) }
    {
        let Ready { change, kept } = ready;
        match change {
            Some(change) => {
                self.take(&change, kept);
                Applied::Changed(change)
            }
            None => Applied::Same,
        }
    }

    fn take(&mut self, change: &Change, kept: Option<Held>)
        requires ready { IsReady self.old (Some (change_view change.now)) }
        requires prepared { IsPrepared (Some change.now) (option_map entry_of kept) }
        ensures { Takes self.old (Some (change_view change.now)) self.new }
    {
        prove!(self.version < self.versions);
        match change {
            Change::Put { action: _, rec } => {
                if let Some(kept) = kept {
                    self.records.put(&rec.key, kept);
                }
            }
            Change::Gone { rec } => self.records.take(&rec.key),
        }
        self.version += 1;
    }

    /// Does one operation at a moment in milliseconds.
    ///
    /// # Errors
    ///
    /// `BadStatus`, `NotFound`, `TooManyInstances` or `VersionsSpent`, the first of these whose
    /// cause holds, or `OutOfMemory`. Then no answer is changed.
    pub fn apply(&mut self, op: Op, now: u64) -> Result<Applied, Fault>
        ensures done { IfOk result (λ a. accepts self.old (op_view op) now ≡ Ok (done_by a)) }
        ensures refused { IfErr result (MayRefuse self.old (op_view op) now) }
        ensures does { (h : List Entry) → StandsFor self.old h → Gives done_by result (accept_after (limits_of self.old) h (op_view op) now) }
        ensures proper { IfOk result (λ a. changes_properly a ≡ true) }
        ensures takes { Takes self.old (outcome result) self.new }
        ensures history { (h : List Entry) → StandsFor self.old h → StandsFor self.new (appended h (outcome result)) }
    {
        let ready = self.ready(op, now)?;
        Ok(self.commit(ready))
    }
}
