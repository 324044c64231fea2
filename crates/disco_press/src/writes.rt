//! Writes, which note their changes.
ghost use Rattle.std.specs.Prelude.{◌≡◌, ◌+◌, ◌<◌, ◌≤◌, IfErr, IfOk, OnErr, length, true, vec_len};
ghost use Rattle.std.specs.Vec.{vec_capacity};
ghost use Rattle.disco_values.specs.declared.fault.Fault.TheVariants.{OutOfMemory};
ghost use Rattle.disco_registry.specs.Commit.{changes_properly, done_by};
ghost use Rattle.disco_registry.specs.Op.{op_view};
ghost use Rattle.disco_core.specs.Past.{Past, taken_in};
ghost use Rattle.disco_hub.specs.Expiry.{Expires, cancelled, overdue_among};
ghost use Rattle.disco_hub.specs.State.{HubStandsFor, rules_of};
ghost use Rattle.disco_hub.specs.Transitions.{Declines, KeepsRest, Writes};
ghost use Rattle.disco_press.specs.Desks.{CountsByNone, CountsBySeat, Notes, NotesCancels, NotesNothing, note_done};

use crate::desk::Desk;
use crate::published_log::Naming;
use crate::seat::Seat;
use disco_hub::{Cancel, Expired, Hub, cancel_all};
use disco_registry::{Applied, Op};
use disco_values::{Fault, Key};

/// Keeps of these keys those whose leases have run out by a moment.
fn keep_overdue(hub: &Hub, keys: &mut Vec<Key>, now: u64)
    ensures fewer { vec_len keys.new ≤ vec_len keys.old }
    ensures room { vec_capacity keys.new ≡ vec_capacity keys.old }
    ensures keys { (p : Past) → HubStandsFor hub.now p → keys.new.items ≡ overdue_among p now keys.old.items }
{
    keys.retain(|key| hub.is_overdue(key, now));
}

impl<J: Naming> Desk<J> {
    /// Does one operation at a moment in milliseconds, as [`disco_hub::Hub::write`] does, and notes
    /// its change, if it makes one. No seat counts it.
    ///
    /// # Errors
    ///
    /// As of [`disco_hub::Hub::write`]: what the registry refuses the operation as, and
    /// `OutOfMemory`. Nothing is noted then.
    pub fn write(&mut self, op: Op, now: u64) -> Result<Applied, Fault>
        ensures done { IfOk result (λ a. Writes self.old.hub self.new.hub (op_view op) now (done_by a)) }
        ensures proper { IfOk result (λ a. changes_properly a ≡ true) }
        ensures noted { IfOk result (λ a. Notes (note_done (done_by a)) self.old self.new) }
        ensures counted { IfOk result (λ a. CountsByNone (length (note_done (done_by a))) self.old self.new) }
        ensures refused { IfErr result (Declines self.old.hub self.new.hub (op_view op) now) }
        ensures not_noted { OnErr result (NotesNothing self.old self.new) }
        ensures rest { KeepsRest self.old.hub self.new.hub }
    {
        let applied = self.hub.write(op, now)?;
        // For the proof alone: a version fits a u64.
        let _version = self.hub.version();
        match applied {
            Applied::Changed(change) => {
                self.by_none += 1;
                Ok(Applied::Changed(self.log.change(change)))
            }
            Applied::Same => Ok(Applied::Same),
        }
    }

    /// Does one operation as [`Desk::write`] does, for a seat, which counts its change, if it makes
    /// one.
    ///
    /// # Errors
    ///
    /// What [`Desk::write`] is refused as. Nothing is noted then, and the seat is as it was.
    pub fn write_as(&mut self, seat: &mut Seat<J>, op: Op, now: u64) -> Result<Applied, Fault>
        ensures done { IfOk result (λ a. Writes self.old.hub self.new.hub (op_view op) now (done_by a)) }
        ensures proper { IfOk result (λ a. changes_properly a ≡ true) }
        ensures noted { IfOk result (λ a. Notes (note_done (done_by a)) self.old self.new) }
        ensures counted { IfOk result (λ a. CountsBySeat (length (note_done (done_by a))) self.old self.new) }
        ensures count { IfOk result (λ a. seat.new ≡ record seat.old { changes = seat.old.changes + length (note_done (done_by a)) }) }
        ensures refused { IfErr result (Declines self.old.hub self.new.hub (op_view op) now) }
        ensures not_noted { OnErr result (NotesNothing self.old self.new) }
        ensures not_counted { OnErr result (seat.new ≡ seat.old) }
        ensures rest { KeepsRest self.old.hub self.new.hub }
    {
        let applied = self.hub.write(op, now)?;
        // For the proof alone: a version fits a u64.
        let _version = self.hub.version();
        match applied {
            Applied::Changed(change) => {
                seat.count(&mut self.book);
                Ok(Applied::Changed(self.log.change(change)))
            }
            Applied::Same => Ok(Applied::Same),
        }
    }

    /// Cancels the instances whose leases ran out, as [`disco_hub::Hub::expire`] does, and notes each
    /// cancel. No seat counts them.
    pub fn expire(&mut self, now: u64) -> Expired
        ensures history { Expires self.old.hub self.new.hub now (λ p. taken_in p now) result.gone result.stopped }
        ensures noted { NotesCancels self.old self.new (λ p. cancelled (rules_of self.old.hub) p now (taken_in p now) result.gone) }
        ensures rest { KeepsRest self.old.hub self.new.hub }
    {
        match self.due(now) {
            Ok(keys) => cancel_all(self, keys.as_slice(), now),
            Err(fault) => Expired {
                gone: 0,
                stopped: Some(fault),
            },
        }
    }
}

impl<J: Naming> Desk<J> {
    /// The keys that one run takes at a moment in milliseconds, as [`disco_hub::Hub::due`] gives them.
    ///
    /// # Errors
    ///
    /// `OutOfMemory` alone, and only where there is such a key.
    pub fn due(&self, now: u64) -> Result<Vec<Key>, Fault>
        ensures keys { IfOk result (λ found. (p : Past) → HubStandsFor self.now.hub p → found.items ≡ taken_in p now) }
        ensures memory { IfErr result (λ e. e ≡ OutOfMemory) }
        ensures refused { OnErr result ((p : Past) → HubStandsFor self.now.hub p → 0 < length (taken_in p now)) }
    {
        self.hub.due(now)
    }

    /// Keeps of these keys exactly those whose leases have run out by a moment in milliseconds, in
    /// their order. Cancels their instances at that moment, as [`Desk::write`] does, up to the first
    /// cancel that is refused, and notes each cancel. No seat counts them. What is cancelled stays so;
    /// a caller may pass the keys of a stopped run again. The list of the keys keeps its room.
    pub fn cancel_overdue(&mut self, keys: &mut Vec<Key>, now: u64) -> Expired
        ensures fewer { vec_len keys.new ≤ vec_len keys.old }
        ensures room { vec_capacity keys.new ≡ vec_capacity keys.old }
        ensures keys { (p : Past) → HubStandsFor self.old.hub p → keys.new.items ≡ overdue_among p now keys.old.items }
        ensures history { Expires self.old.hub self.new.hub now (λ p. overdue_among p now keys.old.items) result.gone result.stopped }
        ensures noted { NotesCancels self.old self.new (λ p. cancelled (rules_of self.old.hub) p now (overdue_among p now keys.old.items) result.gone) }
        ensures rest { KeepsRest self.old.hub self.new.hub }
    {
        keep_overdue(&self.hub, keys, now);
        cancel_all(self, keys.as_slice(), now)
    }
}

impl<J: Naming> Cancel for Desk<J> {
    ghost use Rattle.disco_press.specs.Desks.{NotesCancels};

    ghost hub = { λ d. d.hub };

    ghost noted = { NotesCancels };

    fn cancel(&mut self, key: &Key, now: u64) -> Result<(), Fault> {
        let key = key.clone()?;
        self.write(Op::Cancel(key), now)?;
        Ok(())
    }
}
