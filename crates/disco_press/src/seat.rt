//! Seats of readers.
ghost use Rattle.std.specs.Prelude.{◌≡◌, ◌<◌, ◌≤◌, ◌+◌, ◌^◌};
ghost use mathlib.Core.List.{IsPrefix};
ghost use Rattle.disco_press.specs.Looks.{Shows};
ghost use Rattle.disco_press.specs.Logs.{notes_in};
ghost use Rattle.disco_press.specs.Seats.{IsNew};

use crate::heard::Heard;
use crate::look::Looked;
use crate::published_log::{Naming, PublishedLog};
use crate::seen::Seen;
use crate::snapshot_reader::SnapshotReader;
use disco_values::DocKey;
use std::marker::Model;
use std::sync::ledger::{Book, Share};

/// A thread's read handle on the editions of the desk of this name, and a count of the changes made for
/// it. It may go to another thread.
#[derive(Drop)]
pub struct Seat<J: Naming> {
    reader: SnapshotReader<J>,
    heard: Heard<J>,
    mine: Share<J>,
    changes: u64,
}

impl<J: Naming> Model for Seat<J> {
    ghost use Rattle.std.specs.Prelude.{◌≡◌, ◌<◌};
    ghost use Rattle.disco_press.specs.Seats.{SeatState};

    ghost Value = { SeatState };

    ghost view = { λ s. record { known = s.reader; heard = s.heard; changes = s.changes } };

    ghost invariant = { λ s. (s.mine.amount ≡ s.changes) × (0 < s.mine.parts) };
}

impl<J: Naming> Seat<J> {
    pub(crate) fn new(reader: SnapshotReader<J>, heard: Heard<J>, mine: Share<J>) -> Seat<J>
        requires share { (0 < mine.parts) × (mine.amount ≡ 0) }
        requires heard { heard ≡ notes_in reader }
        ensures { IsNew reader result }
    {
        Seat {
            reader,
            heard,
            mine,
            changes: 0,
        }
    }

    /// The document of a key in the edition that was published last, as far as this seat sees: no
    /// earlier one than it knows. An app's name has to be in upper case. Takes no
    /// lock and no memory, and waits for nobody.
    pub fn look(&mut self, key: &DocKey) -> Looked
        ensures shows { Shows (notes_in self.new.known) key.now result }
        ensures known { IsPrefix self.old.known self.new.known }
        ensures heard { self.new.heard ≡ self.old.heard }
        ensures count { self.new.changes ≡ self.old.changes }
    {
        self.reader.look(key)
    }

    /// How many changes this seat has made. Takes no memory.
    pub fn changes(&self) -> u64
        ensures { result ≡ self.now.changes }
    {
        self.changes
    }

    /// Counts a change.
    pub(crate) fn count(&mut self, book: &mut Book<J>)
        requires { book.old.total + 1 < 2 ^ 64 }
        ensures total { book.new.total ≡ book.old.total + 1 }
        ensures count { self.new ≡ record self.old { changes = self.old.changes + 1 } }
    {
        // For the proof alone: its share is no more than the total, and counts the change too.
        book.audit(&mut self.mine);
        book.add(&mut self.mine, 1);
        self.changes += 1;
    }

    /// No seat has made more changes than all together.
    pub(crate) fn check(&mut self, book: &mut Book<J>)
        ensures total { book.new.total ≡ book.old.total }
        ensures same { self.new ≡ self.old }
        ensures bound { self.old.changes ≤ book.new.total }
    {
        // For the proof alone: a share is no more than the total.
        book.audit(&mut self.mine);
    }

    /// The publications that this seat knows.
    pub(crate) fn known(&self) -> &PublishedLog<J>
        ensures { result.now ≡ self.now.known }
    {
        self.reader.known()
    }

    /// The notes that this seat has been told of.
    pub(crate) fn heard(&self) -> &Heard<J>
        ensures { result.now ≡ self.now.heard }
    {
        &self.heard
    }

    /// What this seat has seen and been told of. Takes no memory.
    pub fn seen(&self) -> Seen<J>
        ensures { (result.known ≡ self.now.known) × (result.heard ≡ self.now.heard) }
    {
        Seen {
            known: self.known().again(),
            heard: self.heard.again(),
        }
    }

    /// Replaces what this seat knows by what was seen. Takes no memory.
    pub fn tell(&mut self, seen: Seen<J>)
        ensures { self.new ≡ record self.old { known = seen.known; heard = seen.heard } }
    {
        let Seen { known, heard } = seen;
        self.reader.tell(known);
        self.heard = heard;
    }
}
