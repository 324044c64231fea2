//! The registry and all that follows its changes.
ghost use Rattle.std.specs.Prelude.{◌≡◌, ◌≢◌, ◌<◌, ◌≤◌, ◌+◌, ◌-◌, List, Err, IfErr, IfNone, IfOk, IfSome, OnErr, OnOk, Ok, Some, None, length, map, true};
ghost use Rattle.std.specs.Prelude.{false, option_map};
ghost use Rattle.std.specs.FinMap.{len};
ghost use Rattle.disco_values.specs.declared.fault.Fault.TheVariants.{OutOfMemory};
ghost use Rattle.disco_instance.specs.Row.{row};
ghost use Rattle.disco_history.specs.Change.{Entry, is_proper, key_of, change_view};
ghost use Rattle.disco_history.specs.Held.{record_at};
ghost use Rattle.disco_history.specs.Query.{is_absent};
ghost use Rattle.disco_history.specs.Registry.{put_of, registry_of};
ghost use Rattle.disco_index.specs.Tally.{tally_in};
ghost use Rattle.disco_index.specs.Vips as vip;
ghost use Rattle.disco_lease.specs.Leases as lease;
ghost use Rattle.disco_queue.specs.Queue as recent;
ghost use Rattle.disco_registry.specs.Accept.{MayRefuse, accepts};
ghost use Rattle.disco_registry.specs.Commit as commit;
ghost use Rattle.disco_registry.specs.Commit.{Takes, changes_properly, done_by, held_after};
ghost use Rattle.disco_registry.specs.Op.{OpView, op_view, op_key, register, renew};
ghost use Rattle.disco_registry.specs.State as registry;
ghost use Rattle.disco_wire.specs.Documents.{IsWritten, asked_by};
ghost use Rattle.disco_values.specs.Query.{is_delta};
ghost use Rattle.disco_cache.specs.Payloads.{IsTruePayload};
ghost use Rattle.disco_core.specs.Past.{Past, cleaned, has_run_out, history, minute_closed, nothing, taken_in, with_done};
ghost use Rattle.disco_core.specs.Refusals.{doc_of_id, doc_of_key, refusal_of, refusal_of_id};
ghost use Rattle.disco_core.specs.Moves.{Moves, OthersStay};
ghost use Rattle.disco_core.specs.Tied.{AreLeased};
ghost use Rattle.disco_core.specs.Written.{AreWritten, HasNoEmptyText, HasTextsFor, IsSameWritten, OpensNoText};
ghost use Rattle.disco_core.specs.State.{AddsNoPlaces, HasPlacesFor, HasRoomFor, IsFor, IsCoreReady, IsSameCore, IsSwept, IsSweptAfter};
ghost use Rattle.disco_core.specs.State.{CoreStandsFor, is_renewal, rules, core_rules};

use crate::counts::count;
use crate::leases::{is_renewal, keep};
use crate::recent::{remember, shared};
use crate::texts::BothTexts;
use crate::{leases, vips};
use disco_cache::Payload;
use disco_history::Change;
use disco_index::{Counts, VipIndex};
use disco_instance::Record;
use disco_lease::{LeaseBook, Minute};
use disco_queue::ChangedQueue;
use disco_registry::{Applied, Op, Registry};
use disco_values::{Bytes, DocKey, Fault, Form, Key, Query, Settings, Text};
use disco_writer::{Room, room_for, write_document};
use std::alloc::Global;
use std::marker::Model;
use std::sync::Arc;

/// The registered instances with all that is kept beside them: the counts of their statuses, which
/// of them have a vip, their leases, their texts, and what changed of late.
#[derive(Drop)]
pub struct Core {
    alloc: Global,
    /// The number of this run of the server.
    run: u64,
    registry: Registry,
    counts: Counts,
    vips: VipIndex,
    leases: LeaseBook,
    queue: ChangedQueue,
    texts: BothTexts,
    /// How long a recent change is kept, in milliseconds.
    retention: u64,
    /// Whether deltas are served.
    delta: bool,
}

impl Model for Core {
    ghost use Rattle.std.specs.Coded.{codes};
    ghost use Rattle.std.specs.FinMap.{code};
    ghost use Rattle.disco_core.specs.State.{CoreState};
    ghost use Rattle.disco_core.specs.Tied.{IsTied};

    ghost Value = { CoreState };

    ghost coded = { Prim.hlevel (codes, code) };

    ghost view = { λ h. record {
      run = h.run;
      registry = h.registry;
      vips = h.vips;
      leases = h.leases;
      texts = h.texts;
      queue = h.queue;
      retention = h.retention;
      delta = h.delta;
    } };

    ghost invariant = { λ h. IsTied h.registry h.counts h.vips h.leases h.queue h.texts };
}

/// An accepted operation, with all that its commit needs.
#[derive(Drop)]
pub struct Ready {
    ready: disco_registry::Ready,
    key: Key,
    renewal: bool,
    /// A copy of the change, for the queue.
    kept: Option<Change>,
    /// The moment of the operation, in milliseconds.
    moment: u64,
}

impl Model for Ready {
    ghost use Rattle.std.specs.Prelude.{◌≡◌, IfSome, option_map, true};
    ghost use Rattle.disco_history.specs.Change.{is_proper, change_view};
    ghost use Rattle.disco_core.specs.State.{Prepared};

    ghost Value = { Prepared };

    ghost view = { λ r. record { key = r.key; renewal = r.renewal; moment = r.moment; change = r.ready } };

    ghost invariant = { λ r. (option_map change_view r.kept ≡ r.ready) × IfSome r.kept (λ c. is_proper c ≡ true) };
}

impl Ready {
    /// The change that its commit makes, where there is one.
    pub fn to_come(&self) -> Option<&Change>
        ensures change { option_map (λ c. change_view c.now) result ≡ self.now.change }
        ensures proper { IfSome result (λ c. is_proper c.now ≡ true) }
    {
        self.ready.change()
    }

    /// A copy of the change to come, where there is one.
    ///
    /// # Errors
    ///
    /// `OutOfMemory` alone.
    pub fn change(&self) -> Result<Option<Change>, Fault>
        ensures change { IfOk result (λ o. option_map change_view o ≡ self.now.change) }
        ensures proper { IfOk result (λ o. IfSome o (λ c. is_proper c ≡ true)) }
        ensures memory { IfErr result (λ e. e ≡ OutOfMemory) }
    {
        Ok(shared(self.ready.change())?)
    }
}

/// What is ready of an operation, with a copy of its change.
#[inline(always)]
fn with_kept(
    ready: disco_registry::Ready,
    key: Key,
    renewal: bool,
    moment: u64,
) -> Result<Ready, Fault>
    ensures ready { IfOk result (λ r. r ≡ record { key = key; renewal = renewal; moment = moment; change = ready }) }
    ensures memory { IfErr result (λ e. e ≡ OutOfMemory) }
{
    let kept = shared(ready.change())?;
    Ok(Ready {
        ready,
        key,
        renewal,
        kept,
        moment,
    })
}

/// Makes the registry ready for an operation. Refused as the operation is, and as `OutOfMemory`. The
/// record of a registration is moved on, and so is the key of any other operation.
#[inline(always)]
fn accept(held: &mut Registry, op: Op, now: u64) -> Result<Ready, Fault>
    ensures same { registry.IsSameRegistry held.old held.new }
    ensures ready { IfOk result (λ r. accepts held.old (op_view op) now ≡ Ok r.change × commit.IsReady held.new r.change) }
    ensures moment { IfOk result (λ r. r.moment ≡ now) }
    ensures asked { IfOk result (λ r. (r.key ≡ op_key (op_view op)) × (r.renewal ≡ is_renewal (op_view op))) }
    ensures refused { IfErr result (MayRefuse held.old (op_view op) now) }
{
    match op {
        Op::Register(posted) => accept_registration(held, posted, now),
        other => accept_other(held, other, now),
    }
}

#[inline(always)]
fn accept_registration(held: &mut Registry, posted: Record, now: u64) -> Result<Ready, Fault>
    ensures same { registry.IsSameRegistry held.old held.new }
    ensures ready { IfOk result (λ r. accepts held.old (register (row posted)) now ≡ Ok r.change × commit.IsReady held.new r.change) }
    ensures moment { IfOk result (λ r. r.moment ≡ now) }
    ensures asked { IfOk result (λ r. (r.key ≡ op_key (register (row posted))) × (r.renewal ≡ false)) }
    ensures refused { IfErr result (MayRefuse held.old (register (row posted)) now) }
{
    let key = posted.key.clone()?;
    let ready = held.ready(Op::Register(posted), now)?;
    with_kept(ready, key, false, now)
}

#[inline(always)]
fn accept_other(held: &mut Registry, op: Op, now: u64) -> Result<Ready, Fault>
    ensures same { registry.IsSameRegistry held.old held.new }
    ensures ready { IfOk result (λ r. accepts held.old (op_view op) now ≡ Ok r.change × commit.IsReady held.new r.change) }
    ensures moment { IfOk result (λ r. r.moment ≡ now) }
    ensures asked { IfOk result (λ r. (r.key ≡ op_key (op_view op)) × (r.renewal ≡ is_renewal (op_view op))) }
    ensures refused { IfErr result (MayRefuse held.old (op_view op) now) }
{
    let renewal = is_renewal(&op);
    let ready = held.ready_borrowed(&op, now)?;
    with_kept(ready, into_key(op), renewal, now)
}

#[inline(always)]
fn into_key(op: Op) -> Key
    ensures { result ≡ op_key (op_view op) }
{
    match op {
        Op::Register(posted) => posted.key,
        Op::Cancel(key) => key,
        Op::Renew(key) => key,
        Op::SetStatus(key, _) => key,
        Op::DropStatus(key, _) => key,
        Op::Metadata(key, _) => key,
    }
}

/// Makes the places and the texts that a change of what is held needs. Where its key is held, the
/// places of its lease and of its texts are there without a search. Refused only as `OutOfMemory`, with
/// places half made.
fn open_all(
    index: &mut VipIndex,
    book: &mut LeaseBook,
    queue: &mut ChangedQueue,
    texts: &mut BothTexts,
    registry: &Registry,
    change: &Change,
) -> Result<(), Fault>
    requires index { vip.IsIndexOf index.old registry.now.held }
    requires leased { AreLeased registry.now.held book.old }
    requires kept { AreWritten texts.old registry.now.held }
    ensures vips { vip.IsSameVips index.old index.new }
    ensures other_vips { OthersStay (put_of (change_view change.now)) index.old index.new }
    ensures leases { lease.IsSameLeases book.old book.new }
    ensures other_leases { lease.KeepsOthers (key_of (change_view change.now)) book.old book.new }
    ensures queue { recent.IsSameQueue queue.old queue.new }
    ensures places { OnOk result (HasPlacesFor index.new book.new (Some (change_view change.now))) }
    ensures room { OnOk result (HasRoomFor queue.new (Some (change_view change.now))) }
    ensures texts { IsSameWritten texts.old texts.new }
    ensures written { OnOk result (HasTextsFor texts.new (Some (change_view change.now))) }
    ensures given_back { OnErr result (queue.new.places ≡ queue.old.places) }
    ensures memory { IfErr result (λ e. e ≡ OutOfMemory) }
{
    let held = registry.get(change.key()).is_some();
    vips::open(index, registry, change)?;
    leases::open(book, change.key(), held)?;
    texts.ready(change, held)?;
    queue.ready(change.key())
}

/// Gives back the empty places of a change.
fn sweep_all(index: &mut VipIndex, book: &mut LeaseBook, texts: &mut BothTexts, change: &Change)
    ensures vips { vip.IsSameVips index.old index.new }
    ensures other_vips { OthersStay (put_of (change_view change.now)) index.old index.new }
    ensures swept_vips { IsSwept index.new (put_of (change_view change.now)) }
    ensures leases { lease.IsSameLeases book.old book.new }
    ensures other_leases { lease.KeepsOthers (key_of (change_view change.now)) book.old book.new }
    ensures swept_leases { lease.IsFilled (key_of (change_view change.now)) book.new }
    ensures texts { IsSameWritten texts.old texts.new }
    ensures swept_texts { HasNoEmptyText texts.new }
{
    vips::close(index, change);
    book.sweep(change.key());
    texts.forget();
}

/// Makes the places and the texts that a change needs, if there is one. Refused only as
/// `OutOfMemory`, and then gives back what was made.
fn open_places(
    index: &mut VipIndex,
    book: &mut LeaseBook,
    queue: &mut ChangedQueue,
    texts: &mut BothTexts,
    registry: &Registry,
    change: Option<&Change>,
) -> Result<(), Fault>
    requires index { vip.IsIndexOf index.old registry.now.held }
    requires leased { AreLeased registry.now.held book.old }
    requires kept { AreWritten texts.old registry.now.held }
    ensures vips { vip.IsSameVips index.old index.new }
    ensures leases { lease.IsSameLeases book.old book.new }
    ensures queue { recent.IsSameQueue queue.old queue.new }
    ensures places { OnOk result (HasPlacesFor index.new book.new (option_map (λ c. change_view c.now) change.entry)) }
    ensures room { OnOk result (HasRoomFor queue.new (option_map (λ c. change_view c.now) change.entry)) }
    ensures texts { IsSameWritten texts.old texts.new }
    ensures written { OnOk result (HasTextsFor texts.new (option_map (λ c. change_view c.now) change.entry)) }
    ensures memory { IfErr result (λ e. e ≡ OutOfMemory) }
    ensures given_back { OnErr result (vip.KeepsVipPlaces index.new index.old × lease.KeepsPlaces book.new book.old × OpensNoText texts.old texts.new
        × (queue.new.places ≡ queue.old.places)) }
{
    let Some(change) = change else {
        return Ok(());
    };
    let opened = open_all(index, book, queue, texts, registry, change);
    if opened.is_err() {
        sweep_all(index, book, texts, change);
    }
    opened
}

/// Does to what is kept beside the registry what the ready operation does to the registry.
fn follow(
    counts: &mut Counts,
    index: &mut VipIndex,
    book: &mut LeaseBook,
    texts: &mut BothTexts,
    registry: &Registry,
    ready: &Ready,
)
    requires tally { counts.old ≡ tally_in registry.now.held }
    requires index { vip.IsIndexOf index.old registry.now.held }
    requires few { len registry.now.held ≤ registry.now.version }
    requires ready { commit.IsReady registry.now ready.now.change }
    requires places { HasPlacesFor index.old book.old ready.now.change }
    requires written { HasTextsFor texts.old ready.now.change }
    ensures counts { counts.new ≡ tally_in (held_after registry.now.held ready.now.change) }
    ensures vips { vip.IsIndexOf index.new (held_after registry.now.held ready.now.change) }
    ensures swept { IsSweptAfter registry.now.held ready.now.change index.new book.new }
    ensures written { AreWritten texts.old registry.now.held → AreWritten texts.new (held_after registry.now.held ready.now.change) }
    ensures leases { Moves ready.now.change ready.now.key ready.now.renewal ready.now.moment book.old book.new }
{
    // For the proof alone: a version fits a u64.
    let _version = registry.version();
    match ready.ready.change() {
        Some(change) => {
            count(counts, registry, change);
            vips::follow(index, registry, change);
            leases::follow(book, change, ready.moment);
            texts.follow(change);
        }
        None => keep(book, &ready.key, ready.renewal, ready.moment),
    }
}

impl Core {
    /// An empty registry within the limits of the settings, in their run.
    pub fn new(alloc: Global, settings: &Settings) -> Core
        ensures empty { CoreStandsFor result (nothing settings.now.run) }
        ensures rules { core_rules result ≡ rules settings.now }
    {
        Core {
            alloc,
            run: settings.run,
            registry: Registry::new(alloc, settings.versions, settings.instances),
            counts: Counts::new(),
            vips: VipIndex::new(alloc),
            leases: LeaseBook::new(alloc),
            queue: ChangedQueue::new(alloc, settings.queue),
            texts: BothTexts::new(alloc),
            retention: settings.retention,
            delta: settings.delta,
        }
    }

    /// The number of this run of the server.
    pub fn run(&self) -> u64
        ensures run { result ≡ self.now.run }
        ensures past { (p : Past) → CoreStandsFor self.now p → result ≡ p.run }
    {
        self.run
    }

    /// How many changes were accepted.
    pub fn version(&self) -> u64
        ensures { result ≡ self.now.registry.version }
    {
        self.registry.version()
    }

    /// The record of a key, if it is held.
    pub fn held(&self, key: &Key) -> Option<&Record>
        ensures found { option_map (λ r. row r.now) result ≡ record_at self.now.registry.held key.now }
    {
        self.registry.get(key)
    }

    /// Whether deltas are served.
    pub fn serves_deltas(&self) -> bool
        ensures { result ≡ self.now.delta }
    {
        self.delta
    }

    /// Takes all memory that an operation at a moment in milliseconds needs, makes the texts of what it
    /// puts, and changes no answer.
    ///
    /// # Errors
    ///
    /// The fault of the operation, or `OutOfMemory`. Then no new place of a vip, a lease, a text or a
    /// recent change stays.
    pub fn ready(&mut self, op: Op, now: u64) -> Result<Ready, Fault>
        ensures same { IsSameCore self.old self.new }
        ensures ready { IfOk result (λ r. accepts self.old.registry (op_view op) now ≡ Ok r.change × IsCoreReady self.new r) }
        ensures moment { IfOk result (λ r. r.moment ≡ now) }
        ensures asked { IfOk result (λ r. IsFor self.new r (op_view op)) }
        ensures refused { IfErr result (MayRefuse self.old.registry (op_view op) now) }
        ensures given_back { OnErr result (AddsNoPlaces self.old self.new) }
    {
        let ready = accept(&mut self.registry, op, now)?;
        open_places(
            &mut self.vips,
            &mut self.leases,
            &mut self.queue,
            &mut self.texts,
            &self.registry,
            ready.to_come(),
        )?;
        Ok(ready)
    }

    /// Does what is ready, which has to be of this core as it is. Takes no memory, and gives back the
    /// places of vips, of the lease and of a recent change that the change leaves empty.
    pub fn commit(&mut self, ready: Ready) -> Applied
        requires { IsCoreReady self.old ready }
        ensures change { done_by result ≡ ready.change }
        ensures proper { changes_properly result ≡ true }
        ensures takes { Takes self.old.registry ready.change self.new.registry }
        ensures swept { IsSweptAfter self.old.registry.held ready.change self.new.vips self.new.leases }
        ensures empty { recent.AddsNoneEmpty self.old.queue self.new.queue }
        ensures history { (p : Past) (ask : OpView) → IsFor self.old ready ask → CoreStandsFor self.old p
            → CoreStandsFor self.new (with_done self.old.queue.max p ready.moment ask (done_by result)) }
        ensures rules { core_rules self.new ≡ core_rules self.old }
    {
        // For the proof alone: a version fits a u64.
        let _version = self.registry.version();
        follow(
            &mut self.counts,
            &mut self.vips,
            &mut self.leases,
            &mut self.texts,
            &self.registry,
            &ready,
        );
        remember(&mut self.queue, ready.kept, ready.moment);
        self.registry.commit(ready.ready)
    }

    /// Renews the lease of a key at a moment in milliseconds: what [`Core::ready`] and
    /// [`Core::commit`] of a renewal do, with nothing made ready. Takes no memory.
    ///
    /// # Errors
    ///
    /// `NotFound` alone, as the registry refuses a renewal. All is then as it was.
    pub fn renew(&mut self, key: &Key, now: u64) -> Result<(), Fault>
        ensures accepted { OnOk result (accepts self.old.registry (renew key.now) now ≡ Ok None) }
        ensures history { OnOk result ((p : Past) → CoreStandsFor self.old p
            → CoreStandsFor self.new (with_done self.old.queue.max p now (renew key.now) None)) }
        ensures refused { IfErr result (λ e. accepts self.old.registry (renew key.now) now ≡ Err e) }
        ensures as_before { OnErr result (self.new ≡ self.old) }
        ensures rest { self.new ≡ record self.old { leases = self.new.leases } }
    {
        leases::renew(&mut self.leases, &self.registry, &self.counts, key, now)
    }

    /// Forgets the recent changes that are older than the retention at a moment in milliseconds, up
    /// to the first that isn't. Answers the version from which deltas start now. Takes no memory.
    pub fn clean(&mut self, now: u64) -> u64
        ensures base { result ≡ self.new.queue.base }
        ensures room { self.new.queue.room ≡ self.old.queue.room + (result - self.old.queue.base) }
        ensures registry { self.new.registry ≡ self.old.registry }
        ensures vips { self.new.vips ≡ self.old.vips }
        ensures leases { self.new.leases ≡ self.old.leases }
        ensures texts { self.new.texts ≡ self.old.texts }
        ensures rules { core_rules self.new ≡ core_rules self.old }
        ensures history { (p : Past) → CoreStandsFor self.old p → CoreStandsFor self.new (cleaned self.old.retention p now) }
    {
        self.queue.clean(now, self.retention);
        self.queue.base()
    }

    /// How many instances are held.
    fn instances(&self) -> u64
        ensures held { result ≡ len self.now.registry.held }
        ensures history { (h : List Entry) → registry.StandsFor self.now.registry h → result ≡ len (registry_of h) }
    {
        self.registry.len() as u64
    }

    /// Closes a minute: keeps how many renewals were accepted since the last closing, and how many
    /// instances are held. Answers both. Takes no memory.
    pub fn close_minute(&mut self) -> Minute
        ensures kept { (p : Past) → CoreStandsFor self.old p → result ≡ (minute_closed p).closed }
        ensures registry { self.new.registry ≡ self.old.registry }
        ensures vips { self.new.vips ≡ self.old.vips }
        ensures places { self.new.leases.places ≡ self.old.leases.places }
        ensures queue { self.new.queue ≡ self.old.queue }
        ensures texts { self.new.texts ≡ self.old.texts }
        ensures rules { core_rules self.new ≡ core_rules self.old }
        ensures history { (p : Past) → CoreStandsFor self.old p → CoreStandsFor self.new (minute_closed p) }
    {
        let instances = self.instances();
        let renewals = self.leases.close_minute(instances);
        Minute {
            renewals,
            instances,
        }
    }

    /// The keys that one run of expiry takes at a moment in milliseconds: those whose leases have run
    /// out, the earliest first, then by key. It leaves at least 85 of 100 instances, rounded down. It
    /// takes none where too few renewals came in the minute that was closed last.
    ///
    /// # Errors
    ///
    /// `OutOfMemory` alone, and only where there is such a key.
    pub fn due(&self, now: u64) -> Result<Vec<Key>, Fault>
        ensures keys { IfOk result (λ found. (p : Past) → CoreStandsFor self.now p → found.items ≡ taken_in p now) }
        ensures memory { IfErr result (λ e. e ≡ OutOfMemory) }
        ensures refused { OnErr result ((p : Past) → CoreStandsFor self.now p → 0 < length (taken_in p now)) }
    {
        self.leases.due(self.alloc, now, self.instances())
    }

    /// Whether the lease of a key has run out by a moment in milliseconds. At its due moment it hasn't,
    /// and where no instance is held under the key none has. Takes no memory.
    pub fn is_overdue(&self, key: &Key, now: u64) -> bool
        ensures { (p : Past) → CoreStandsFor self.now p → result ≡ has_run_out p now key.now }
    {
        self.leases.is_overdue(key, now)
    }

    fn payload(&self, key: &DocKey, base: u64, text: Vec<u8>) -> Result<Arc<Payload, Global>, Fault>
        ensures payload { IfOk result (λ p. p.value ≡ record {
          key = key.now;
          run = self.now.run;
          base = base;
          version = self.now.registry.version;
          text = text.items;
        }) }
        ensures memory { IfErr result (λ e. e ≡ OutOfMemory) }
    {
        let payload = Payload {
            key: key.clone()?,
            run: self.run,
            base,
            version: self.registry.version(),
            text: Bytes::from_vec(text),
        };
        Ok(Arc::new(self.alloc, payload)?)
    }

    fn text_of(&self, key: &DocKey, room: Vec<u8>) -> Result<Option<Vec<u8>>, Fault>
        ensures written { IfOk result (λ o. is_delta key.now.query ≡ false
            → (h : List Entry) → registry.StandsFor self.now.registry h → IsWritten key.now.form key.now.query h (length h) (option_map (λ v. v.items) o)) }
        ensures delta { IfOk result (λ o. is_delta key.now.query ≡ true
            → (p : Past) → CoreStandsFor self.now p → IsWritten key.now.form key.now.query (history p) self.now.queue.base (option_map (λ v. v.items) o)) }
        ensures memory { IfErr result (λ e. e ≡ OutOfMemory) }
    {
        write_document(
            room,
            key.form,
            &key.query,
            &self.registry,
            &self.vips,
            &self.queue,
            &self.counts,
            self.texts.in_form(key.form),
        )
    }

    /// The document that is asked for, joined from the texts that are kept: none exactly where an
    /// app, a vip, a secure vip or an instance is asked for and there is none. An app's name has to
    /// be in upper case. A delta is written also where deltas are off. It takes the room that is lent, and
    /// more where that isn't enough.
    ///
    /// # Errors
    ///
    /// `OutOfMemory` alone.
    pub fn document(
        &self,
        key: &DocKey,
        room: Vec<u8>,
    ) -> Result<Option<Arc<Payload, Global>>, Fault>
        ensures key { IfOk result (λ o. IfSome o (λ d. d.value.key ≡ key.now)) }
        ensures version { IfOk result (λ o. IfSome o (λ d. d.value.version ≡ self.now.registry.version)) }
        ensures base { IfOk result (λ o. IfSome o (λ d. is_delta key.now.query ≡ true → d.value.base ≡ self.now.queue.base)) }
        ensures true_now { IfOk result (λ o. IfSome o (λ d. (p : Past) → CoreStandsFor self.now p → IsTruePayload p.run d.value (history p))) }
        ensures absent { IfOk result (λ o. IfNone o ((p : Past) → CoreStandsFor self.now p
            → is_absent (registry_of (history p)) (asked_by key.now.query) ≡ true)) }
        ensures memory { IfErr result (λ e. e ≡ OutOfMemory) }
    {
        if key.query.is_delta() {
            self.delta_document(key, room)
        } else {
            self.held_document(key, room)
        }
    }

    /// How much room the document of a key takes, where it names many instances. It is a hint.
    pub fn room_for(&self, key: &DocKey) -> Option<Room> {
        room_for(
            self.alloc,
            key.form,
            &key.query,
            &self.registry,
            &self.vips,
            &self.queue,
            self.texts.in_form(key.form),
        )
    }

    fn delta_document(
        &self,
        key: &DocKey,
        room: Vec<u8>,
    ) -> Result<Option<Arc<Payload, Global>>, Fault>
        requires { is_delta key.now.query ≡ true }
        ensures key { IfOk result (λ o. IfSome o (λ d. d.value.key ≡ key.now)) }
        ensures version { IfOk result (λ o. IfSome o (λ d. d.value.version ≡ self.now.registry.version)) }
        ensures base { IfOk result (λ o. IfSome o (λ d. d.value.base ≡ self.now.queue.base)) }
        ensures true_now { IfOk result (λ o. IfSome o (λ d. (p : Past) → CoreStandsFor self.now p → IsTruePayload p.run d.value (history p))) }
        ensures absent { IfOk result (λ o. IfNone o ((p : Past) → CoreStandsFor self.now p
            → is_absent (registry_of (history p)) (asked_by key.now.query) ≡ true)) }
        ensures memory { IfErr result (λ e. e ≡ OutOfMemory) }
    {
        match self.text_of(key, room)? {
            Some(text) => Ok(Some(self.payload(key, self.queue.base(), text)?)),
            None => Ok(None),
        }
    }

    fn held_document(
        &self,
        key: &DocKey,
        room: Vec<u8>,
    ) -> Result<Option<Arc<Payload, Global>>, Fault>
        requires { is_delta key.now.query ≡ false }
        ensures key { IfOk result (λ o. IfSome o (λ d. d.value.key ≡ key.now)) }
        ensures version { IfOk result (λ o. IfSome o (λ d. d.value.version ≡ self.now.registry.version)) }
        ensures true_now { IfOk result (λ o. IfSome o (λ d. (h : List Entry) → registry.StandsFor self.now.registry h → IsTruePayload self.now.run d.value h)) }
        ensures absent { IfOk result (λ o. IfNone o ((h : List Entry) → registry.StandsFor self.now.registry h
            → is_absent (registry_of h) (asked_by key.now.query) ≡ true)) }
        ensures memory { IfErr result (λ e. e ≡ OutOfMemory) }
    {
        match self.text_of(key, room)? {
            Some(text) => Ok(Some(self.payload(key, self.registry.version(), text)?)),
            None => Ok(None),
        }
    }

    /// The document of an instance, joined from its text.
    ///
    /// # Errors
    ///
    /// `NotFound` exactly where there is no such instance, and `OutOfMemory`.
    pub fn instance(&self, key: &Key, form: Form) -> Result<Arc<Payload, Global>, Fault>
        ensures key { IfOk result (λ p. p.value.key ≡ doc_of_key key.now form) }
        ensures version { IfOk result (λ p. p.value.version ≡ self.now.registry.version) }
        ensures true_now { IfOk result (λ p. (h : List Entry) → registry.StandsFor self.now.registry h → IsTruePayload self.now.run p.value h) }
        ensures allowed { IfOk result (λ _. (h : List Entry) → registry.StandsFor self.now.registry h
            → refusal_of true (doc_of_key key.now form).query h ≡ None) }
        ensures refused { IfErr result (λ e. e ≢ OutOfMemory → (h : List Entry) → registry.StandsFor self.now.registry h
            → refusal_of true (doc_of_key key.now form).query h ≡ Some e) }
    {
        let key = DocKey {
            query: Query::Instance(key.clone()?),
            form,
        };
        match self.held_document(&key, Vec::new(self.alloc))? {
            Some(doc) => Ok(doc),
            None => Err(Fault::NotFound),
        }
    }

    /// The document of the instance of an id, joined from its text: of several apps' the one with
    /// the least app.
    ///
    /// # Errors
    ///
    /// `NotFound` exactly where there is no such instance, and `OutOfMemory`.
    pub fn by_id(&self, id: &str, form: Form) -> Result<Arc<Payload, Global>, Fault>
        ensures key { IfOk result (λ p. (h : List Entry) → registry.StandsFor self.now.registry h → doc_of_id id.now form h ≡ Some p.value.key) }
        ensures version { IfOk result (λ p. p.value.version ≡ self.now.registry.version) }
        ensures true_now { IfOk result (λ p. (h : List Entry) → registry.StandsFor self.now.registry h → IsTruePayload self.now.run p.value h) }
        ensures allowed { IfOk result (λ _. (h : List Entry) → registry.StandsFor self.now.registry h → refusal_of_id id.now h ≡ None) }
        ensures refused { IfErr result (λ e. e ≢ OutOfMemory → (h : List Entry) → registry.StandsFor self.now.registry h → refusal_of_id id.now h ≡ Some e) }
    {
        let id = Text::new(self.alloc, id)?;
        match self.registry.with_id(&id) {
            Some(rec) => self.instance(&rec.key, form),
            None => Err(Fault::NotFound),
        }
    }
}
