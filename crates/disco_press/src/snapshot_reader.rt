//! Readers of published editions, through which seats look.
ghost use Rattle.std.specs.Prelude.{◌≡◌};
ghost use mathlib.Core.List.{IsPrefix};
ghost use Rattle.disco_press.specs.Looks.{Shows};
ghost use Rattle.disco_press.specs.Logs.{notes_in};

use crate::look::{Looked, look_in};
use crate::published_log::{Naming, PublishedLog};
use crate::snapshot_writer::PressReader;
use core::mem::replace_with;
use disco_values::DocKey;
use std::marker::Model;

/// A thread's read handle on the editions of the desk of this name. Contracts see the publications that
/// it has seen or been told of. It may go to another thread.
#[derive(Drop)]
pub struct SnapshotReader<J: Naming> {
    reader: PressReader<J>,
    known: PublishedLog<J>,
}

impl<J: Naming> Model for SnapshotReader<J> {
    ghost use Rattle.std.specs.Prelude.{List};
    ghost use Rattle.disco_hub.specs.Press.{Note};

    ghost Value = { List (List Note) };

    ghost view = { λ w. w.known };
}

impl<J: Naming> SnapshotReader<J> {
    pub(crate) fn new(reader: PressReader<J>, known: PublishedLog<J>) -> SnapshotReader<J>
        ensures { result ≡ known }
    {
        SnapshotReader { reader, known }
    }

    /// The document of a key in the edition that was published last, as far as this reader sees: no
    /// earlier one than it has seen or been told of. An app's name has to be in upper case. Takes no
    /// lock and no memory, and waits for nobody.
    pub fn look(&mut self, key: &DocKey) -> Looked
        ensures shows { Shows (notes_in self.new) key.now result }
        ensures known { IsPrefix self.old self.new }
    {
        let (looked, published) = replace_with(
            &mut self.reader,
            key,
            |reader, key| look_in(reader, key),
        );
        let Some(published) = published else {
            return Looked::Shut;
        };
        if !self.known.is_before(&published) {
            return Looked::Shut;
        }
        self.known = published;
        looked
    }

    /// The publications that it knows.
    pub fn known(&self) -> &PublishedLog<J>
        ensures { result.now ≡ self.now }
    {
        &self.known
    }

    /// Replaces what it knows by these publications.
    pub fn tell(&mut self, known: PublishedLog<J>)
        ensures { self.new ≡ known }
    {
        self.known = known;
    }
}
