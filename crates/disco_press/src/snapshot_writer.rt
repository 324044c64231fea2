//! The writer of the editions that readers take.
ghost use Rattle.std.specs.Prelude.{◌≡◌, ◌^◌, ◌<◌, [], IfOk};
ghost use Rattle.disco_press.specs.Editions.{IsShown};
ghost use Rattle.disco_press.specs.Logs.{publications};

use crate::published_log::{LogPrefix, Naming, PublishedLog};
use crate::snapshot::{Press, Sees, Snapshot};
use crate::snapshot_reader::SnapshotReader;
use core::mem::replace_with;
use disco_cache::Edition;
use left_right::reader::Reader;
use left_right::writer::Writer;
use std::alloc::{AllocError, Global};
use std::marker::Model;
use std::sync::Wait;

pub(crate) type PressReader<J> = Reader<Snapshot, (), Press<J>>;

type PressWriter<J> = Writer<Snapshot, (), (), Press<J>>;

/// The writer of the editions. Contracts see the publications of whose edition readers take.
pub struct SnapshotWriter<J: Naming> {
    writer: PressWriter<J>,
}

impl<J: Naming> Model for SnapshotWriter<J> {
    ghost use Rattle.std.specs.Prelude.{List};
    ghost use Rattle.disco_hub.specs.Press.{Note};
    ghost use Rattle.disco_press.specs.Logs.{publications};

    ghost Value = { List (List Note) };

    ghost view = { λ p. publications p.writer.desk.shown.value.prefix.witness.items };
}

impl<J: Naming> SnapshotWriter<J> {
    /// A writer of an empty edition, for so many readers.
    ///
    /// # Errors
    ///
    /// `AllocError` where memory is refused.
    pub fn new(
        alloc: Global,
        prefix: LogPrefix,
        readers: usize,
    ) -> Result<SnapshotWriter<J>, AllocError>
        requires empty { (publications prefix.witness.items ≡ []) × (prefix.witness.name ≡ J.list) }
        requires readers { (0 < readers) × (readers < 2 ^ 32) }
        ensures { IfOk result (λ p. p ≡ []) }
    {
        let first = Snapshot {
            docs: Edition::new(alloc),
            prefix: prefix.again(),
        };
        let second = Snapshot {
            docs: Edition::new(alloc),
            prefix,
        };
        Ok(SnapshotWriter {
            writer: Writer::new(alloc, first, second, readers)?,
        })
    }

    /// One more reader, which knows these publications.
    ///
    /// # Errors
    ///
    /// `AllocError` where memory is refused.
    pub fn snapshot_reader(&self, known: PublishedLog<J>) -> Result<SnapshotReader<J>, AllocError>
        ensures { IfOk result (λ w. w ≡ known) }
    {
        Ok(SnapshotReader::new(self.writer.factory().reader()?, known))
    }

    /// Readers take this edition from now on. Takes no memory, and may wait for a reader that is
    /// inside its look.
    pub fn show<R: Wait>(&mut self, rt: &R, shown: Snapshot)
        requires { IsShown J.list shown }
        ensures { self.new ≡ publications shown.prefix.witness.items }
    {
        replace_with(
            &mut self.writer.desk,
            (rt, shown),
            |desk, (rt, shown)|
                requires { IsShown J.list shown }
            {
                let (open, mut spare) = desk.open(rt);
                *spare = shown;
                (open.show_as::<Sees<J>>(spare), ())
            },
        )
    }

    /// Ends publishing: readers take nothing from now on.
    pub fn close<R: Wait>(self, rt: &R) {
        let SnapshotWriter { writer } = self;
        writer.take(rt);
    }
}
