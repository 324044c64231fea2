//! The hub: the registry with its response cache.
ghost use Rattle.std.specs.Prelude.{◌≡◌, ◌≢◌, ◌<◌, [], IfErr, IfNone, IfOk, IfSome, OnErr, OnOk, Ok, None, Some, is_some, length, map, option_map};
ghost use Rattle.std.specs.Prelude.{slice_get, true};
ghost use Rattle.disco_values.specs.declared.fault.Fault.TheVariants.{NoRound, OutOfMemory};
ghost use Rattle.disco_registry.specs.Accept.{MayRefuse, accepts};
ghost use Rattle.disco_registry.specs.Commit.{Takes, changes_properly, done_by};
ghost use Rattle.disco_registry.specs.Op.{OpView, op_view, renew};
ghost use Rattle.disco_registry.specs.State as registry;
ghost use Rattle.disco_values.specs.Query.{is_delta};
ghost use Rattle.disco_core.specs.Past.{Past, has_run_out, history, taken_in, with_done};
ghost use Rattle.disco_history.specs.Registry.{registry_of};
ghost use Rattle.std.specs.FinMap.{get};
ghost use Rattle.disco_core.specs.Refusals.{doc_of_key};
ghost use Rattle.disco_core.specs.State.{IsFor, IsCoreReady};
ghost use Rattle.disco_hub.specs.Expiry.{Expires};
ghost use Rattle.disco_hub.specs.Kept.{Forgets, IsCopiedAsKept};
ghost use Rattle.disco_hub.specs.Transitions.{BeginsRound, Cleans, Closes, CopiesOne, Declines, EndsRound, HasNoneLeft, IsDocOf, IsDocOfId};
ghost use Rattle.disco_hub.specs.Transitions.{IsNextCopy, KeepsRest, Loads, MovesRounds, RefusesCopy, RefusesRound, Withholds, WithholdsId, Writes};
ghost use Rattle.disco_hub.specs.Press.{put_copy, is_doc};
ghost use Rattle.disco_hub.specs.Rounds.{Advances, StaysOpen};
ghost use Rattle.disco_hub.specs.State.{IsCopied, IsEmptyHub, IsSameHub, HubStandsFor, open_round, rules_of, version_of};

use crate::copied::Copied;
use crate::expiry::{Expired, expire};
use crate::kept::{forget, keep};
use crate::rounds::Rounds;
use disco_cache::{DocCache, Edition, Payload};
use disco_core::{Core, Ready, Room};
use disco_lease::Minute;
use disco_registry::{Applied, Op};
use disco_values::{DocKey, Fault, Form, Key, Settings};
use std::alloc::Global;
use std::marker::Model;
use std::sync::Arc;

/// The registry with its response cache: the core, the documents that are kept until a change names
/// them, and the rounds of a publisher.
#[derive(Drop)]
pub struct Hub {
    alloc: Global,
    core: Core,
    cache: DocCache,
    rounds: Rounds,
}

impl Model for Hub {
    ghost use Rattle.std.specs.Coded.{codes};
    ghost use Rattle.std.specs.FinMap.{code};
    ghost use Rattle.disco_hub.specs.State.{HubState};

    ghost Value = { HubState };

    ghost coded = { Prim.hlevel (codes, code) };

    ghost view = { λ h. record { core = h.core; docs = h.cache; rounds = h.rounds } };
}

impl Hub {
    /// An empty registry within the limits of the settings, in their run.
    pub fn new(alloc: Global, settings: &Settings) -> Hub
        ensures { IsEmptyHub settings.now result }
    {
        Hub {
            alloc,
            core: Core::new(alloc, settings),
            cache: DocCache::new(alloc, settings.entries),
            rounds: Rounds::new(alloc),
        }
    }

    /// The number of this run of the server.
    pub fn run(&self) -> u64
        ensures run { result ≡ self.now.core.run }
        ensures past { (p : Past) → HubStandsFor self.now p → result ≡ p.run }
    {
        self.core.run()
    }

    /// How many changes were accepted.
    pub fn version(&self) -> u64
        ensures { result ≡ version_of self.now }
    {
        self.core.version()
    }

    /// Takes all memory that an operation at a moment in milliseconds needs, and changes no answer.
    ///
    /// # Errors
    ///
    /// The fault of the operation, or `OutOfMemory`.
    pub fn ready(&mut self, op: Op, now: u64) -> Result<Ready, Fault>
        ensures same { IsSameHub self.old self.new }
        ensures ready { IfOk result (λ r. accepts self.old.core.registry (op_view op) now ≡ Ok r.change × IsCoreReady self.new.core r) }
        ensures moment { IfOk result (λ r. r.moment ≡ now) }
        ensures asked { IfOk result (λ r. IsFor self.new.core r (op_view op)) }
        ensures refused { IfErr result (MayRefuse self.old.core.registry (op_view op) now) }
    {
        self.core.ready(op, now)
    }

    /// Does what is ready, which has to be of this hub as it is. Takes no memory. Drops exactly the
    /// kept documents that the change names.
    pub fn commit(&mut self, ready: Ready) -> Applied
        requires { IsCoreReady self.old.core ready }
        ensures change { done_by result ≡ ready.change }
        ensures proper { changes_properly result ≡ true }
        ensures takes { Takes self.old.core.registry ready.change self.new.core.registry }
        ensures docs { (p : Past) → HubStandsFor self.old p → Forgets (get (registry_of (history p))) ready.change self.old.docs self.new.docs }
        ensures history { (p : Past) (ask : OpView) → IsFor self.old.core ready ask → HubStandsFor self.old p
            → HubStandsFor self.new (with_done (rules_of self.old).queue p ready.moment ask (done_by result)) }
        ensures rest { KeepsRest self.old self.new }
    {
        forget(&mut self.cache, &self.core, &ready);
        self.core.commit(ready)
    }

    /// Does one operation at a moment in milliseconds, as the registry does it.
    ///
    /// # Errors
    ///
    /// The fault of the registry, or `OutOfMemory`.
    pub fn write(&mut self, op: Op, now: u64) -> Result<Applied, Fault>
        ensures done { IfOk result (λ a. Writes self.old self.new (op_view op) now (done_by a)) }
        ensures proper { IfOk result (λ a. changes_properly a ≡ true) }
        ensures refused { IfErr result (Declines self.old self.new (op_view op) now) }
        ensures rest { KeepsRest self.old self.new }
    {
        match op {
            Op::Renew(key) => self.renew(&key, now),
            other => self.perform(other, now),
        }
    }

    /// Renews the lease of a key. Renewals come most often, and nothing is made ready for them.
    fn renew(&mut self, key: &Key, now: u64) -> Result<Applied, Fault>
        ensures done { IfOk result (λ a. Writes self.old self.new (renew key.now) now (done_by a)) }
        ensures proper { IfOk result (λ a. changes_properly a ≡ true) }
        ensures refused { IfErr result (Declines self.old self.new (renew key.now) now) }
        ensures rest { KeepsRest self.old self.new }
    {
        if let Err(fault) = self.core.renew(key, now) {
            return Err(fault);
        }
        Ok(Applied::Same)
    }

    /// Makes an operation ready and commits it.
    fn perform(&mut self, op: Op, now: u64) -> Result<Applied, Fault>
        ensures done { IfOk result (λ a. Writes self.old self.new (op_view op) now (done_by a)) }
        ensures proper { IfOk result (λ a. changes_properly a ≡ true) }
        ensures refused { IfErr result (Declines self.old self.new (op_view op) now) }
        ensures rest { KeepsRest self.old self.new }
    {
        let ready = self.ready(op, now)?;
        Ok(self.commit(ready))
    }

    /// Forgets the recent changes that are older than the retention at a moment in milliseconds, up
    /// to the first that isn't. Answers the version from which deltas start now. Kept documents stay,
    /// a delta with the base from which it starts. Takes no memory.
    pub fn clean(&mut self, now: u64) -> u64
        ensures { Cleans self.old self.new now result }
    {
        self.core.clean(now)
    }

    /// Closes a minute: keeps how many renewals were accepted since the last closing, and how many
    /// instances are held. Answers both. Takes no memory.
    pub fn close_minute(&mut self) -> Minute
        ensures { Closes self.old self.new result }
    {
        self.core.close_minute()
    }

    /// The keys that one run of expiry takes at a moment in milliseconds: those whose leases have run
    /// out, the earliest first, then by key. It leaves at least 85 of 100 instances, rounded down. It
    /// takes none where too few renewals came in the minute that was closed last.
    ///
    /// # Errors
    ///
    /// `OutOfMemory` alone, and only where there is such a key.
    pub fn due(&self, now: u64) -> Result<Vec<Key>, Fault>
        ensures keys { IfOk result (λ found. (p : Past) → HubStandsFor self.now p → found.items ≡ taken_in p now) }
        ensures memory { IfErr result (λ e. e ≡ OutOfMemory) }
        ensures refused { OnErr result ((p : Past) → HubStandsFor self.now p → 0 < length (taken_in p now)) }
    {
        self.core.due(now)
    }

    /// Whether the lease of a key has run out by a moment in milliseconds, as
    /// [`disco_core::Core::is_overdue`] says. Takes no memory.
    pub fn is_overdue(&self, key: &Key, now: u64) -> bool
        ensures { (p : Past) → HubStandsFor self.now p → result ≡ has_run_out p now key.now }
    {
        self.core.is_overdue(key, now)
    }

    /// Cancels at a moment in milliseconds, one by one, the instances that [`Hub::due`] gives when it
    /// begins. It stops before the first cancel that is refused, as `OutOfMemory` or
    /// `VersionsSpent`; what it cancelled until then stays so.
    pub fn expire(&mut self, now: u64) -> Expired
        ensures history { Expires self.old self.new now (λ p. taken_in p now) result.gone result.stopped }
        ensures rest { KeepsRest self.old self.new }
    {
        expire(self, now)
    }

    /// The document that is asked for, shared: the kept one, or else one that is written now, which may
    /// then be kept. Rows show that it is kept where there is memory and room; no clause says so. An
    /// app's name has to be in upper case.
    ///
    /// # Errors
    ///
    /// `NotFound` exactly where an app, a vip, a secure vip or an instance is asked for and there
    /// is none, `DeltaDisabled` exactly for a delta where deltas are off, and `OutOfMemory`. Then
    /// all is as before.
    pub fn load(&mut self, key: &DocKey) -> Result<Arc<Payload, Global>, Fault>
        ensures served { IfOk result (λ d. IsDocOf self.old (rules_of self.old).delta key.now d.value) }
        ensures refused { IfErr result (Withholds self.old (rules_of self.old).delta key.now) }
        ensures loads { IfOk result (λ d. Loads self.old self.new key.now d.value) }
        ensures as_before { OnErr result (self.new ≡ self.old) }
    {
        if key.query.is_delta() && !self.core.serves_deltas() {
            return Err(Fault::DeltaDisabled);
        }
        if let Some(doc) = self.cache.get(key) {
            return Ok(Arc::try_clone(doc)?);
        }
        let Some(doc) = self.core.document(key, Vec::new(self.alloc))? else {
            return Err(Fault::NotFound);
        };
        keep(&mut self.cache, &doc);
        Ok(doc)
    }

    /// The document of an instance, as [`Hub::load`] gives it. It is not kept.
    ///
    /// # Errors
    ///
    /// As of [`Hub::load`]: `NotFound` where there is no such instance, and `OutOfMemory`.
    pub fn instance(&self, key: &Key, form: Form) -> Result<Arc<Payload, Global>, Fault>
        ensures served { IfOk result (λ d. IsDocOf self.now true (doc_of_key key.now form) d.value) }
        ensures refused { IfErr result (Withholds self.now true (doc_of_key key.now form)) }
    {
        self.core.instance(key, form)
    }

    /// The document of the instance of an id, as [`Hub::load`] gives it: of several apps' the one
    /// with the least app. It is not kept.
    ///
    /// # Errors
    ///
    /// `NotFound` exactly where there is no such instance, and `OutOfMemory`.
    pub fn by_id(&self, id: &str, form: Form) -> Result<Arc<Payload, Global>, Fault>
        ensures served { IfOk result (λ d. IsDocOfId self.now id.now form d.value) }
        ensures refused { IfErr result (WithholdsId self.now id.now) }
    {
        self.core.by_id(id, form)
    }

    /// Begins a round: a publisher copies one after another the keys of the edition, then those of
    /// kept documents in their order until there are as many as may be kept. Answers how many keys
    /// it has.
    ///
    /// # Errors
    ///
    /// `RoundOpen` in an open round, and `OutOfMemory`. The hub is then as it was.
    pub fn begin(&mut self) -> Result<usize, Fault>
        ensures begun { IfOk result (BeginsRound self.old self.new) }
        ensures refused { IfErr result (RefusesRound self.old) }
        ensures as_before { OnErr result (self.new ≡ self.old) }
    {
        self.rounds.begin(self.alloc, &self.cache)
    }

    /// What a copy of the first key that is left of the open round gives: its document, the kept one
    /// where it is kept, or that there is none; nothing where no key is left. Nothing is kept, and the
    /// round stays as it was.
    ///
    /// # Errors
    ///
    /// `NoRound` where no round is open, and `OutOfMemory`.
    pub fn next_copy(&self) -> Result<Option<Copied>, Fault>
        ensures copied { IfOk result (λ o. IfSome o (IsNextCopy self.now)) }
        ensures next { IfOk result (λ o. IfSome (open_round self.now) (λ r. is_some (slice_get r.left 0) ≡ is_some o)) }
        ensures open { OnOk result (open_round self.now ≢ None) }
        ensures refused { IfErr result (RefusesCopy self.now) }
    {
        self.next_copy_in(Vec::new(self.alloc))
    }

    /// What a copy of the first key that is left gives, as [`Hub::next_copy`], in room that is lent.
    fn next_copy_in(&self, room: Vec<u8>) -> Result<Option<Copied>, Fault>
        ensures copied { IfOk result (λ o. IfSome o (IsNextCopy self.now)) }
        ensures next { IfOk result (λ o. IfSome (open_round self.now) (λ r. is_some (slice_get r.left 0) ≡ is_some o)) }
        ensures open { OnOk result (open_round self.now ≢ None) }
        ensures refused { IfErr result (RefusesCopy self.now) }
    {
        match self.rounds.first()? {
            Some(key) => Ok(Some(self.copied(key, room)?)),
            None => Ok(None),
        }
    }

    /// How much room the document of the first key takes that is left of the open round, where it is to
    /// be written and names many instances. It is a hint.
    pub fn next_room(&self) -> Option<Room> {
        let key = self.rounds.first().ok()??;
        if self.cache.get(key).is_some() {
            return None;
        }
        self.core.room_for(key)
    }

    /// What a copy of a key gives.
    fn copied(&self, key: &DocKey, room: Vec<u8>) -> Result<Copied, Fault>
        ensures copied { IfOk result (λ c. (p : Past) → HubStandsFor self.now p → IsCopied key.now c p) }
        ensures as_kept { IfOk result (IsCopiedAsKept (version_of self.now) self.now.core.queue.base self.now.docs key.now) }
        ensures memory { IfErr result (λ e. e ≡ OutOfMemory) }
    {
        if let Some(doc) = self.cache.get(key) {
            return Ok(Copied::Doc(Arc::try_clone(doc)?));
        }
        match self.core.document(key, room)? {
            Some(doc) => Ok(Copied::Doc(doc)),
            None => Ok(Copied::Drop(key.clone()?)),
        }
    }

    /// Removes the first key that is left of the open round. When the round is finished, it is a key of
    /// the edition exactly where `kept` is true. Takes no memory.
    ///
    /// # Errors
    ///
    /// `NoRound` where no round is open or no key is left. The hub is then as it was.
    pub fn mark(&mut self, kept: bool) -> Result<(), Fault>
        ensures marked { OnOk result (Advances kept self.old.rounds self.new.rounds) }
        ensures refused { IfErr result (λ e. (e ≡ NoRound) × IfSome (open_round self.old) (λ r. r.left ≡ [])) }
        ensures rest { MovesRounds self.old self.new }
        ensures as_before { OnErr result (self.new ≡ self.old) }
    {
        self.rounds.mark(kept)
    }

    /// Copies the first key that is left of the open round, as [`Hub::next_copy`] gives it, and takes
    /// it out, kept where it has a document.
    ///
    /// # Errors
    ///
    /// As of [`Hub::next_copy`]: `NoRound` where no round is open, and `OutOfMemory`. Then all is
    /// as before.
    pub fn copy_one(&mut self) -> Result<Option<Copied>, Fault>
        ensures copied { IfOk result (λ o. IfSome o (CopiesOne self.old self.new)) }
        ensures none { IfOk result (λ o. IfNone o (HasNoneLeft self.old × (self.new ≡ self.old))) }
        ensures refused { IfErr result (RefusesCopy self.old) }
        ensures as_before { OnErr result (self.new ≡ self.old) }
    {
        let Some(copied) = self.next_copy()? else {
            return Ok(None);
        };
        let kept = copied.is_doc();
        self.mark(kept)?;
        Ok(Some(copied))
    }

    /// Copies as [`Hub::copy_one`] does, and puts what was copied into an edition too. A document that
    /// is written takes the room that is lent, and more where that isn't enough.
    ///
    /// # Errors
    ///
    /// As of [`Hub::copy_one`]: `NoRound` where no round is open, and `OutOfMemory`. Then hub and
    /// edition are as before.
    pub fn copy_into(&mut self, next: &mut Edition, room: Vec<u8>) -> Result<Option<Copied>, Fault>
        ensures copied { IfOk result (λ o. IfSome o (CopiesOne self.old self.new)) }
        ensures put { IfOk result (λ o. IfSome o (λ c. next.new ≡ put_copy next.old c)) }
        ensures none { IfOk result (λ o. IfNone o (HasNoneLeft self.old × (self.new ≡ self.old) × (next.new ≡ next.old))) }
        ensures refused { IfErr result (RefusesCopy self.old) }
        ensures as_before { OnErr result ((self.new ≡ self.old) × (next.new ≡ next.old)) }
    {
        let Some(copied) = self.next_copy_in(room)? else {
            return Ok(None);
        };
        copied.put_into(next)?;
        self.mark(copied.is_doc())?;
        Ok(Some(copied))
    }

    /// Ends an open round of which no key was copied. Takes no memory.
    ///
    /// # Errors
    ///
    /// `NoRound` where there is no such round. The hub is then as it was.
    pub fn abandon(&mut self) -> Result<(), Fault>
        ensures abandoned { OnOk result (IfSome (open_round self.old) (λ r. r.done ≡ []) × (open_round self.old ≢ None)
            × (self.new.rounds ≡ record self.old.rounds { round = None })) }
        ensures refused { IfErr result (λ e. (e ≡ NoRound) × IfSome (open_round self.old) (λ r. r.done ≢ [])) }
        ensures rest { MovesRounds self.old self.new }
        ensures as_before { OnErr result (self.new ≡ self.old) }
    {
        self.rounds.abandon()
    }

    /// How many keys of the open round are left, if one is open. Takes no memory.
    pub fn round(&self) -> Option<usize>
        ensures { result ≡ option_map (λ r. length r.left) (open_round self.now) }
    {
        self.rounds.left()
    }

    /// Ends the open round: the edition's keys are those that had a document. Answers how many these
    /// are. Takes no memory.
    ///
    /// # Errors
    ///
    /// `NoRound` where no round is open, and `KeysLeft` where not all of its keys were copied. The
    /// hub is then as it was.
    pub fn finish(&mut self) -> Result<usize, Fault>
        ensures finished { IfOk result (EndsRound self.old self.new) }
        ensures refused { IfErr result (λ e. StaysOpen e (open_round self.old)) }
        ensures as_before { OnErr result (self.new ≡ self.old) }
    {
        self.rounds.finish()
    }
}
