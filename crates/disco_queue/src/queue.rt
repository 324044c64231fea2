//! The recently changed queue.
ghost use Rattle.std.specs.Prelude.{◌≡◌, ◌+◌, ◌-◌, ◌^◌, ◌<◌, ◌≤◌, List, [], ◌∷◌, ◌++◌, IfErr, IfOk, OnErr, OnOk, drop, length, map, true, nat_le, nat_lt};
ghost use Rattle.std.specs.FinMap.{values};
ghost use Rattle.std.specs.List.{All, prefix_len};
ghost use Rattle.std.specs.VecDeque.{deque_capacity, deque_len};
ghost use Rattle.disco_values.specs.declared.fault.Fault.TheVariants.{OutOfMemory};
ghost use Rattle.disco_history.specs.Change.{Entry, is_proper, key_of, change_view};
ghost use Rattle.disco_history.specs.Mentions.{delta};
ghost use Rattle.disco_queue.specs.Latest.{AreOfKeys};
ghost use Rattle.disco_queue.specs.Numbers.{AreNumbered, LeavesNone};
ghost use Rattle.disco_queue.specs.Seen.{change_of, timed};
ghost use Rattle.disco_queue.specs.Superseded.{AreSuperseded, IsFollowedAt};
ghost use Rattle.disco_queue.specs.Base.{base_after_change, base_after_cleaning, leaving};
ghost use Rattle.disco_queue.specs.Queue.{AddsNoneEmpty, AreFilled, HasNumberPlace, HasRoom, IsSameQueue, KeepsHistory, OpensPlace, newest, version};
ghost use Rattle.disco_queue.specs.Timed.{Timed, changes};

use crate::kept::Kept;
use crate::latest::{Latest, without_keys};
use crate::numbers::Numbers;
use disco_history::Change;
use disco_values::{Fault, Key};
use std::alloc::{AllocError, Global};
use std::collections::VecDeque;
use std::marker::Model;

/// The last changes of a history with the moments at which they came, in milliseconds. A moment may
/// be below the one before it.
#[derive(Drop)]
pub struct ChangedQueue {
    max: u64,
    base: u64,
    kept: VecDeque<Kept>,
    /// Of each kept key the number of its last change, so that a delta reads no earlier one.
    numbers: Numbers,
}

impl Model for ChangedQueue {
    ghost use Rattle.std.specs.Prelude.{◌-◌, map};
    ghost use Rattle.std.specs.Coded.{codes};
    ghost use Rattle.std.specs.FinMap.{code};
    ghost use Rattle.std.specs.VecDeque.{deque_capacity, deque_len};
    ghost use Rattle.disco_queue.specs.Numbers.{AreNumbered};
    ghost use Rattle.disco_queue.specs.Queue.{IsWithin, Queue};
    ghost use Rattle.disco_queue.specs.Seen.{change_of, timed};
    ghost use Rattle.disco_queue.specs.Superseded.{AreSuperseded};

    ghost Value = { Queue };

    ghost coded = { Prim.hlevel (codes, code) };

    ghost view = { λ q. record {
      max = q.max;
      base = q.base;
      kept = map timed q.kept.items;
      room = deque_capacity q.kept - deque_len q.kept;
      places = q.numbers;
    } };

    ghost invariant = { λ q. IsWithin q.max q.base (deque_len q.kept) × AreNumbered q.numbers q.base (map change_of q.kept.items)
        × AreSuperseded q.kept.items };
}

/// Drops the oldest change, and the place of its key where it is the key's last.
fn drop_front(kept: &mut VecDeque<Kept>, base: &mut u64, numbers: &mut Numbers)
    requires some { 0 < deque_len kept.old }
    requires fits { base.old + 1 < 2 ^ 64 }
    requires superseded { AreSuperseded kept.old.items }
    ensures kept { kept.new.items ≡ drop 1 kept.old.items }
    ensures len { deque_len kept.new + 1 ≡ deque_len kept.old }
    ensures capacity { deque_capacity kept.new ≡ deque_capacity kept.old }
    ensures base { base.new ≡ base.old + 1 }
    ensures empty { LeavesNone numbers.old numbers.new }
    ensures superseded { AreSuperseded kept.new.items }
    ensures numbers { (es : List Entry) → AreNumbered numbers.old base.old (map change_of kept.old.items ++ es)
        → AreNumbered numbers.new base.new (map change_of kept.new.items ++ es) }
{
    if let Some(oldest) = kept.pop_front() {
        *base += 1;
        if oldest.superseded {
            return;
        }
        numbers.close(oldest.change.key(), *base);
    }
}

/// Marks the change of a number as superseded, if it is kept. `base` changes came before the kept ones.
fn supersede(kept: &mut VecDeque<Kept>, base: u64, number: u64)
    requires superseded { AreSuperseded kept.old.items }
    requires followed { base < number → IsFollowedAt kept.old.items (number - base - 1) }
    ensures changes { map timed kept.new.items ≡ map timed kept.old.items }
    ensures entries { map change_of kept.new.items ≡ map change_of kept.old.items }
    ensures len { deque_len kept.new ≡ deque_len kept.old }
    ensures capacity { deque_capacity kept.new ≡ deque_capacity kept.old }
    ensures superseded { AreSuperseded kept.new.items }
{
    if number <= base {
        return;
    }
    let place = number - base - 1;
    if let Some(earlier) = kept.get_mut(place as usize) {
        earlier.superseded = true;
    }
}

impl ChangedQueue {
    /// An empty queue, which keeps at most `max` changes; `max` is at least 1. Takes no memory.
    pub fn new(alloc: Global, max: u64) -> ChangedQueue
        requires { 1 ≤ max }
        ensures max { result.max ≡ max }
        ensures base { result.base ≡ 0 }
        ensures kept { result.kept ≡ [] }
        ensures history { KeepsHistory result [] }
    {
        ChangedQueue {
            max,
            base: 0,
            kept: VecDeque::new(alloc),
            numbers: Numbers::new(alloc),
        }
    }

    /// How many leading changes of the history have left the queue. Takes no memory.
    pub fn base(&self) -> u64
        ensures { result ≡ self.now.base }
    {
        self.base
    }

    /// How many changes are kept. Takes no memory.
    pub fn len(&self) -> usize
        ensures kept { result ≡ length self.now.kept }
        ensures most { result ≤ self.now.max }
    {
        self.kept.len()
    }

    /// How many changes the history has: the base and the kept ones. Takes no memory.
    pub fn version(&self) -> u64
        ensures sum { result ≡ version self.now }
        ensures history { (h : List Timed) → KeepsHistory self.now h → result ≡ length h }
    {
        self.base + self.kept.len() as u64
    }

    /// What holds of every queue. Does nothing.
    pub fn check(&self)
        ensures { AreFilled self.now }
    {
        // For the proof alone: the invariant of a queue.
        let _base = self.base;
    }

    /// Makes room for one more change of this key, where the queue is not full, and a place for the
    /// key. No answer shows either.
    ///
    /// # Errors
    ///
    /// `OutOfMemory` alone, and only where room or place isn't there already. Then no place is
    /// made.
    pub fn ready(&mut self, key: &Key) -> Result<(), Fault>
        ensures same { IsSameQueue self.old self.new }
        ensures history { (h : List Timed) → KeepsHistory self.old h → KeepsHistory self.new h }
        ensures room { OnOk result (HasRoom self.new) }
        ensures place { OnOk result (HasNumberPlace key.now self.new) }
        ensures opens { OnOk result (OpensPlace key.now self.old self.new) }
        ensures needed { OnErr result (HasRoom self.old → HasNumberPlace key.now self.old → ⊥) }
        ensures given_back { OnErr result (self.new.places ≡ self.old.places) }
        ensures memory { IfErr result (λ e. e ≡ OutOfMemory) }
    {
        self.make_room()?;
        self.numbers.open(key)?;
        Ok(())
    }

    /// Adds a change at the back, with its moment `now`, in milliseconds. A full queue drops its oldest
    /// change, and the place of that one's key where it was the key's last. Takes no memory: room and
    /// place are there after `ready`.
    pub fn push(&mut self, change: Change, now: u64)
        requires room { HasRoom self.old }
        requires place { HasNumberPlace (key_of (change_view change)) self.old }
        requires version { version self.old < 2 ^ 64 - 1 }
        requires proper { is_proper change ≡ true }
        ensures max { self.new.max ≡ self.old.max }
        ensures base { self.new.base ≡ base_after_change self.old.max self.old.base (version self.old + 1) }
        ensures kept { self.new.kept ≡ newest self.old.max (self.old.kept ++ (change_view change, now) ∷ []) }
        ensures version { version self.new ≡ version self.old + 1 }
        ensures empty { AddsNoneEmpty self.old self.new }
        ensures history { (h : List Timed) → KeepsHistory self.old h → KeepsHistory self.new (h ++ (change_view change, now) ∷ []) }
        ensures history_base { (h : List Timed) → KeepsHistory self.old h
            → self.new.base ≡ base_after_change self.old.max self.old.base (length (h ++ (change_view change, now) ∷ [])) }
    {
        let number = self.version() + 1;
        let is_full = self.is_full();
        let earlier = self.numbers.put(change.key(), number);
        if is_full {
            drop_front(&mut self.kept, &mut self.base, &mut self.numbers);
        }
        self.kept.push_back_reserved(Kept {
            change,
            moment: now,
            superseded: false,
        });
        supersede(&mut self.kept, self.base, earlier);
    }

    /// Drops changes at the front: those before the first whose moment is not below `now` less
    /// `retention`, all in milliseconds, and none where `now` is below the retention. Answers how
    /// many it dropped. Takes no memory.
    pub fn clean(&mut self, now: u64, retention: u64) -> usize
        ensures max { self.new.max ≡ self.old.max }
        ensures dropped { self.new.base ≡ self.old.base + result }
        ensures leaving { result ≡ leaving now retention self.old.kept }
        ensures kept { self.new.kept ≡ drop result self.old.kept }
        ensures version { version self.new ≡ version self.old }
        ensures room { HasRoom self.old → HasRoom self.new }
        ensures grows { self.new.room ≡ self.old.room + result }
        ensures empty { AddsNoneEmpty self.old self.new }
        ensures history { (h : List Timed) → KeepsHistory self.old h → KeepsHistory self.new h }
        ensures history_base { (h : List Timed) → KeepsHistory self.old h → self.new.base ≡ base_after_cleaning now retention self.old.base h }
    {
        match now.checked_sub(retention) {
            Some(bound) => self.drop_before(bound),
            None => 0,
        }
    }

    /// The last kept change of each key, in the order of the keys. Takes memory for the references
    /// alone.
    ///
    /// # Errors
    ///
    /// `OutOfMemory` alone.
    pub fn last_changes(&self, alloc: Global) -> Result<Vec<&Change>, Fault>
        ensures kept { IfOk result (λ found. map (λ c. change_view c.now) found.items ≡ values (delta (changes self.now.kept) 0)) }
        ensures history { (h : List Timed) → KeepsHistory self.now h
            → IfOk result (λ found. map (λ c. change_view c.now) found.items ≡ values (delta (changes h) self.now.base)) }
        ensures proper { IfOk result (λ found. All (λ c. is_proper c.now ≡ true) found.items) }
        ensures memory { IfErr result (λ e. e ≡ OutOfMemory) }
    {
        let latest = self.last_changes_with_keys(alloc)?;
        Ok(without_keys(latest.as_slice(), alloc)?)
    }

    /// Each kept key with its last change, in the order of the keys. Takes memory for the references
    /// alone.
    ///
    /// # Errors
    ///
    /// `OutOfMemory` alone.
    pub fn last_changes_with_keys(&self, alloc: Global) -> Result<Vec<Latest<'_>>, Fault>
        ensures kept { IfOk result (λ found. map (λ p. change_view p.2.now) found.items ≡ values (delta (changes self.now.kept) 0)) }
        ensures history { (h : List Timed) → KeepsHistory self.now h
            → IfOk result (λ found. map (λ p. change_view p.2.now) found.items ≡ values (delta (changes h) self.now.base)) }
        ensures keys { IfOk result (λ found. AreOfKeys found.items) }
        ensures proper { IfOk result (λ found. All (λ p. is_proper p.2.now ≡ true) found.items) }
        ensures memory { IfErr result (λ e. e ≡ OutOfMemory) }
    {
        Ok(self.numbers.last_changes(&self.kept, self.base, alloc)?)
    }

    /// Makes room for one more change, where the queue is not full.
    fn make_room(&mut self) -> Result<(), AllocError>
        ensures same { self.new ≡ record self.old { room = self.new.room } }
        ensures room { OnOk result (HasRoom self.new) }
        ensures needed { OnErr result (HasRoom self.old → ⊥) }
    {
        if self.is_full() {
            return Ok(());
        }
        self.kept.reserve(1)
    }

    fn is_full(&self) -> bool
        ensures { result ≡ nat_le self.now.max (length self.now.kept) }
    {
        self.max <= self.kept.len() as u64
    }

    /// Whether there is an oldest change, and its moment is below the bound.
    fn oldest_is_before(&self, bound: u64) -> bool
        ensures before { result ≡ nat_lt 0 (prefix_len (λ t. nat_lt t.1 bound) self.now.kept) }
        ensures fits { version self.now < 2 ^ 64 }
    {
        match self.kept.front() {
            Some(oldest) => oldest.moment < bound,
            None => false,
        }
    }

    fn drop_oldest(&mut self)
        requires { 0 < length self.old.kept }
        ensures max { self.new.max ≡ self.old.max }
        ensures base { self.new.base ≡ self.old.base + 1 }
        ensures kept { self.new.kept ≡ drop 1 self.old.kept }
        ensures room { self.new.room ≡ self.old.room + 1 }
        ensures empty { AddsNoneEmpty self.old self.new }
    {
        drop_front(&mut self.kept, &mut self.base, &mut self.numbers);
    }

    /// Drops the changes before the first whose moment is not below the bound.
    fn drop_before(&mut self, bound: u64) -> usize
        ensures max { self.new.max ≡ self.old.max }
        ensures base { self.new.base ≡ self.old.base + result }
        ensures dropped { result ≡ prefix_len (λ t. nat_lt t.1 bound) self.old.kept }
        ensures kept { self.new.kept ≡ drop result self.old.kept }
        ensures room { self.new.room ≡ self.old.room + result }
        ensures empty { AddsNoneEmpty self.old self.new }
    {
        let mut dropped = 0;
        while self.oldest_is_before(bound) {
            self.drop_oldest();
            dropped += 1;
        }
        dropped
    }
}
