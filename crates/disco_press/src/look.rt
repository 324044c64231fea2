//! Looks into an edition.
ghost use Rattle.std.specs.Prelude.{IfSome};
ghost use Rattle.std.specs.FinMap.{get};
ghost use Rattle.disco_press.specs.Looks.{Finds, Shows};
ghost use Rattle.disco_press.specs.Logs.{notes_in};

use crate::published_log::{Naming, PublishedLog};
use crate::snapshot::Sees;
use crate::snapshot_writer::PressReader;
use disco_cache::{Edition, Payload};
use disco_values::DocKey;
use std::alloc::Global;
use std::sync::Arc;

/// What a look finds.
#[derive(Debug, Drop)]
pub enum Looked {
    /// The document, shared.
    Doc(Arc<Payload, Global>),
    /// The edition has no document of this key.
    Miss,
    /// Nothing can be seen now: the desk is closed, or the host refused to share the document. What
    /// the seat knows is not lost.
    Shut,
}

/// The document of a key, shared, or that there is none.
fn find(edition: &Edition, key: &DocKey) -> Looked
    ensures { Finds (get edition.now key.now) result }
{
    let Some(doc) = edition.get(key) else {
        return Looked::Miss;
    };
    match Arc::try_clone(doc) {
        Ok(doc) => Looked::Doc(doc),
        Err(_) => Looked::Shut,
    }
}

/// The document of a key, and the publications of the edition that it is from, unless the desk is gone.
pub(crate) fn look_in<J: Naming>(
    reader: PressReader<J>,
    key: &DocKey,
) -> (PressReader<J>, (Looked, Option<PublishedLog<J>>))
    ensures { IfSome result.1.1 (λ ps. Shows (notes_in ps) key.now result.1.0) }
{
    match reader.enter_as::<Sees<J>>() {
        Err(reader) => (reader, (Looked::Shut, None)),
        Ok(reading) => {
            let shown = reading.get();
            let published = PublishedLog::of(shown.prefix.again());
            let looked = find(&shown.docs, key);
            (reading.leave(), (looked, Some(published)))
        }
    }
}
