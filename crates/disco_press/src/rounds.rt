//! Rounds of a publisher.
ghost use Rattle.std.specs.Prelude.{◌≡◌, [], ◌∷◌, ◌++◌, IfErr, IfNone, IfOk, IfSome, None, OnErr, OnOk};
ghost use Rattle.std.specs.FinMap.{len};
ghost use Rattle.disco_hub.specs.Press as press;
ghost use Rattle.disco_hub.specs.Press.{edition_of, note_of};
ghost use Rattle.disco_hub.specs.Rounds.{StaysOpen};
ghost use Rattle.disco_hub.specs.State.{open_round};
ghost use Rattle.disco_hub.specs.Transitions.{BeginsRound, CopiesOne, EndsRound, HasNoneLeft, RefusesCopy, RefusesRound};
ghost use Rattle.disco_press.specs.Desks.{CountsNone, Notes, notes_of};

use crate::desk::Desk;
use crate::published_log::Naming;
use crate::snapshot::Snapshot;
use core::mem::replace;
use disco_cache::Edition;
use disco_hub::{Copied, Room};
use disco_values::Fault;
use std::sync::Wait;

impl<J: Naming> Desk<J> {
    /// How much room the next copy takes, where its document is to be written and names many
    /// instances.
    pub fn next_room(&self) -> Option<Room> {
        self.hub.next_room()
    }

    /// Lends room, which the next copy writes into.
    pub fn lend(&mut self, room: Vec<u8>)
        ensures { self.new ≡ self.old }
    {
        self.room = room;
    }

    /// Begins a round, as [`disco_hub::Hub::begin`] does, and notes it. Answers how many keys it
    /// has.
    ///
    /// # Errors
    ///
    /// As of [`disco_hub::Hub::begin`]: `RoundOpen` in an open round, and `OutOfMemory`. The desk
    /// is then as it was.
    pub fn begin(&mut self) -> Result<usize, Fault>
        ensures begun { IfOk result (BeginsRound self.old.hub self.new.hub) }
        ensures noted { OnOk result (Notes (press.begin ∷ []) self.old self.new) }
        ensures counted { CountsNone self.old self.new }
        ensures refused { IfErr result (RefusesRound self.old.hub) }
        ensures as_before { OnErr result (self.new ≡ self.old) }
    {
        let keys = self.hub.begin()?;
        self.next = Edition::new(self.alloc);
        self.log.begin();
        Ok(keys)
    }

    /// Copies the first key that is left of the open round, as [`disco_hub::Hub::copy_one`] does,
    /// and notes its document, or that there is none now. Nothing where no key is left.
    ///
    /// # Errors
    ///
    /// As of [`disco_hub::Hub::copy_one`]: `NoRound` where no round is open, and `OutOfMemory`. The
    /// desk is then as it was.
    pub fn copy_one(&mut self) -> Result<Option<Copied>, Fault>
        ensures copied { IfOk result (λ o. IfSome o (CopiesOne self.old.hub self.new.hub)) }
        ensures noted { IfOk result (λ o. IfSome o (λ c. Notes (note_of c ∷ []) self.old self.new)) }
        ensures counted { CountsNone self.old self.new }
        ensures none { IfOk result (λ o. IfNone o (HasNoneLeft self.old.hub × (self.new ≡ self.old))) }
        ensures refused { IfErr result (RefusesCopy self.old.hub) }
        ensures as_before { OnErr result (self.new ≡ self.old) }
    {
        let room = replace(&mut self.room, Vec::new(self.alloc));
        let Some(copied) = self.hub.copy_into(&mut self.next, room)? else {
            return Ok(None);
        };
        Ok(Some(self.log.copy(copied)))
    }

    /// Ends the open round and publishes: from now on readers take the edition of all that was noted.
    /// Answers how many documents it has. Takes no memory, and may wait for a seat that is inside its
    /// look.
    ///
    /// # Errors
    ///
    /// `NoRound` where no round is open, and `KeysLeft` where not all of its keys were copied. The
    /// desk is then as it was.
    pub fn publish<R: Wait>(&mut self, rt: &R) -> Result<usize, Fault>
        ensures documents { IfOk result (λ n. n ≡ len (edition_of (notes_of self.old))) }
        ensures published { OnOk result ((self.new.published ≡ self.old.published ++ self.old.pending ∷ []) × (self.new.pending ≡ [])) }
        ensures counted { CountsNone self.old self.new }
        ensures finished { IfOk result (EndsRound self.old.hub self.new.hub) }
        ensures refused { IfErr result (λ e. StaysOpen e (open_round self.old.hub)) }
        ensures as_before { OnErr result (self.new ≡ self.old) }
    {
        let documents = self.hub.finish()?;
        let docs = replace(&mut self.next, Edition::new(self.alloc));
        self.log.publish();
        let prefix = self.log.published().into_prefix();
        self.snapshots.show(rt, Snapshot { docs, prefix });
        Ok(documents)
    }
}
