//! The desk: the state behind one lock.
ghost use Rattle.std.specs.Prelude.{◌≡◌, ◌≤◌, [], IfErr, IfOk, OnErr, true};
ghost use mathlib.Core.List.{IsPrefix};
ghost use Rattle.disco_core.specs.Refusals.{doc_of_key};
ghost use Rattle.disco_core.specs.Past.{Past};
ghost use Rattle.disco_hub.specs.State.{IsEmptyHub, HubStandsFor, rules_of, version_of};
ghost use Rattle.disco_hub.specs.Transitions.{Cleans, Closes, IsDocOf, IsDocOfId, Loads, Withholds, WithholdsId};
ghost use Rattle.disco_press.specs.Desks.{IsValid, NotesNothing, notes_of};

use crate::log::PublicationLog;
use crate::published_log::Naming;
use crate::reserve::Reserve;
use crate::seat::Seat;
use crate::seen::Seen;
use crate::snapshot_writer::SnapshotWriter;
use disco_cache::{Edition, Payload};
use disco_hub::Hub;
use disco_lease::Minute;
use disco_values::{DocKey, Fault, Form, Key, Settings};
use std::alloc::Global;
use std::marker::Model;
use std::sync::ledger::Book;
use std::sync::{Arc, Wait};

/// The state behind one lock: a hub, and the writer of the editions that seats read. Its owner has to
/// call [`Desk::close`], which may wait for a seat. Contracts see what was published, publication by
/// publication, what was noted since, and the hub.
pub struct Desk<J: Naming> {
    pub(crate) alloc: Global,
    pub(crate) hub: Hub,
    pub(crate) snapshots: SnapshotWriter<J>,
    pub(crate) log: PublicationLog<J>,
    /// What the open round has copied.
    pub(crate) next: Edition,
    /// Room for the document of the next copy.
    pub(crate) room: Vec<u8>,
    /// Memory to give up when a cancel is refused memory.
    pub(crate) reserve: Reserve,
    /// The changes that seats made.
    pub(crate) book: Book<J>,
    /// How many changes were made without a seat.
    pub(crate) by_none: u64,
}

impl<J: Naming> Model for Desk<J> {
    ghost use Rattle.std.specs.Prelude.{◌+◌};
    ghost use Rattle.std.specs.Coded.{codes};
    ghost use Rattle.std.specs.FinMap.{code};
    ghost use Rattle.disco_press.specs.Desks.{DeskState};
    ghost use Rattle.disco_press.specs.Keeping.{IsKept};

    ghost Value = { DeskState };

    ghost coded = { Prim.hlevel (codes, code) };

    ghost view = { λ d. record { published = d.log.published; pending = d.log.pending; hub = d.hub; by_seats = d.book.total; by_none = d.by_none } };

    ghost invariant = { λ d. IsKept d.snapshots d.log d.hub d.next (d.book.total + d.by_none) };
}

impl<J: Naming> Desk<J> {
    pub(crate) fn new(
        alloc: Global,
        settings: &Settings,
        snapshots: SnapshotWriter<J>,
        log: PublicationLog<J>,
        book: Book<J>,
    ) -> Desk<J>
        requires log { (log.published ≡ []) × (log.pending ≡ []) }
        requires snapshots { snapshots ≡ [] }
        requires book { book.total ≡ 0 }
        ensures nothing { (result.published ≡ []) × (result.pending ≡ []) × (result.by_seats ≡ 0) × (result.by_none ≡ 0) }
        ensures hub { IsEmptyHub settings.now result.hub }
    {
        Desk {
            alloc,
            hub: Hub::new(alloc, settings),
            snapshots,
            log,
            next: Edition::new(alloc),
            room: Vec::new(alloc),
            reserve: Reserve::none(alloc),
            book,
            by_none: 0,
        }
    }

    /// The number of this run of the server. Takes no memory.
    pub fn run(&self) -> u64
        ensures run { result ≡ self.now.hub.core.run }
        ensures past { (p : Past) → HubStandsFor self.now.hub p → result ≡ p.run }
    {
        self.hub.run()
    }

    /// What holds of every desk. Does nothing.
    pub fn check(&self)
        ensures { IsValid self.now }
    {
        // For the proof alone: the invariant of a desk.
        let _by_none = self.by_none;
    }

    /// The document that is asked for, as [`Hub::load`] gives it.
    ///
    /// # Errors
    ///
    /// As of [`Hub::load`]: `NotFound`, `DeltaDisabled` or `OutOfMemory`. The desk is then as it
    /// was.
    pub fn load(&mut self, key: &DocKey) -> Result<Arc<Payload, Global>, Fault>
        ensures served { IfOk result (λ d. IsDocOf self.old.hub (rules_of self.old.hub).delta key.now d.value) }
        ensures refused { IfErr result (Withholds self.old.hub (rules_of self.old.hub).delta key.now) }
        ensures loads { IfOk result (λ d. Loads self.old.hub self.new.hub key.now d.value) }
        ensures as_before { OnErr result (self.new ≡ self.old) }
        ensures noted { NotesNothing self.old self.new }
    {
        self.hub.load(key)
    }

    /// The document of an instance, as [`Hub::instance`] gives it.
    ///
    /// # Errors
    ///
    /// As of [`Hub::instance`]: `NotFound` where there is no such instance, and `OutOfMemory`.
    pub fn instance(&self, key: &Key, form: Form) -> Result<Arc<Payload, Global>, Fault>
        ensures served { IfOk result (λ d. IsDocOf self.now.hub true (doc_of_key key.now form) d.value) }
        ensures refused { IfErr result (Withholds self.now.hub true (doc_of_key key.now form)) }
    {
        self.hub.instance(key, form)
    }

    /// The document of the instance of an id, as [`Hub::by_id`] gives it.
    ///
    /// # Errors
    ///
    /// As of [`Hub::by_id`]: `NotFound` where there is no such instance, and `OutOfMemory`.
    pub fn by_id(&self, id: &str, form: Form) -> Result<Arc<Payload, Global>, Fault>
        ensures served { IfOk result (λ d. IsDocOfId self.now.hub id.now form d.value) }
        ensures refused { IfErr result (WithholdsId self.now.hub id.now) }
    {
        self.hub.by_id(id, form)
    }

    /// Forgets recent changes, as [`Hub::clean`] does. Answers the version from which deltas start
    /// now. Takes no memory.
    pub fn clean(&mut self, now: u64) -> u64
        ensures cleans { Cleans self.old.hub self.new.hub now result }
        ensures noted { NotesNothing self.old self.new }
    {
        self.hub.clean(now)
    }

    /// Closes a minute, as [`Hub::close_minute`] does. Takes no memory.
    pub fn close_minute(&mut self) -> Minute
        ensures closes { Closes self.old.hub self.new.hub result }
        ensures noted { NotesNothing self.old self.new }
    {
        self.hub.close_minute()
    }

    /// Ends publishing: from now on each look of its seats answers `Shut`. May wait for a seat that is
    /// inside its look.
    pub fn close<R: Wait>(self, rt: &R) {
        let Desk {
            alloc: _,
            hub: _hub,
            snapshots,
            log: _log,
            next: _next,
            room: _room,
            reserve: _reserve,
            book: _book,
            by_none: _,
        } = self;
        snapshots.close(rt);
    }
}

impl<J: Naming> Seat<J> {
    /// Tells this seat what the desk has published and noted: no later look answers from an earlier
    /// edition. What the seat knew is a beginning of that, since desk and seat have one name, and so
    /// one list of notes. Takes no memory.
    pub fn learn(&mut self, desk: &mut Desk<J>)
        ensures desk { desk.new ≡ desk.old }
        ensures knew { IsPrefix self.old.known desk.old.published }
        ensures heard { IsPrefix self.old.heard (notes_of desk.old) }
        ensures knows { self.new ≡ record self.old { known = desk.old.published; heard = notes_of desk.old } }
        ensures bound { self.old.changes ≤ version_of desk.old.hub }
    {
        // For the proof alone: its changes are bounded, and what it knew and heard of are beginnings.
        self.check(&mut desk.book);
        desk.log.meet(self.known());
        desk.log.meet_all(self.heard());
        let seen = Seen {
            known: desk.log.published(),
            heard: desk.log.heard(),
        };
        self.tell(seen);
    }
}
