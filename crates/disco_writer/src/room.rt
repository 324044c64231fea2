//! Room for a document, made before the document is written.
ghost use Rattle.std.specs.Prelude.{◌≡◌, [], IfOk};

use crate::delta::pieces_by;
use crate::join::room_of;
use crate::piece::{Piece, pieces_of};
use crate::selected::{held_under_svip, held_under_vip};
use crate::texts::Texts;
use disco_history::Held;
use disco_index::VipIndex;
use disco_queue::ChangedQueue;
use disco_registry::Registry;
use disco_values::{Form, Query, Text};
use std::alloc::{AllocError, Global};

/// For so many instances or more, room is made before the document is written. For fewer the host gives
/// memory soon enough.
const MANY: usize = 1_000;

/// How many bytes a document of the present instances takes. It is a hint: a document that takes more
/// when it is written gets more then.
#[derive(Clone, Copy, Debug)]
pub struct Room {
    alloc: Global,
    bytes: usize,
}

impl Room {
    /// Makes the room, which is empty. It writes to each byte, so the host has to give the memory.
    ///
    /// # Errors
    ///
    /// `AllocError` where memory is refused.
    pub fn make(self) -> Result<Vec<u8>, AllocError>
        ensures { IfOk result (λ v. v.items ≡ []) }
    {
        let mut room = Vec::with_capacity(self.alloc, self.bytes)?;
        room.resize(self.bytes, 0)?;
        room.clear();
        Ok(room)
    }
}

/// The room of these pieces, and of a few that may come until they are joined.
fn room_of_pieces(alloc: Global, pieces: &[Piece<'_>]) -> Room {
    let bytes = room_of(pieces, &Text::empty(alloc));
    let more = bytes / 64 + 4_096;
    Room {
        alloc,
        bytes: bytes.saturating_add(more),
    }
}

/// The room of these instances, where there are many.
fn room_of_held(alloc: Global, form: Form, texts: &Texts, held: &[Held]) -> Option<Room> {
    if held.len() < MANY {
        return None;
    }
    let pieces = pieces_of(alloc, form, texts, held).ok()?;
    Some(room_of_pieces(alloc, pieces.as_slice()))
}

/// The room of all instances, where there are many.
fn room_of_apps(alloc: Global, texts: &Texts) -> Option<Room> {
    if texts.len() < MANY {
        return None;
    }
    let pieces = texts.pieces(alloc).ok()?;
    Some(room_of_pieces(alloc, pieces.as_slice()))
}

/// The room of the recent changes, where they are of many instances.
fn room_of_delta(alloc: Global, form: Form, queue: &ChangedQueue, texts: &Texts) -> Option<Room> {
    let last = queue.last_changes_with_keys(alloc).ok()?;
    if last.len() < MANY {
        return None;
    }
    let pieces = pieces_by(alloc, form, texts, last.as_slice()).ok()?;
    Some(room_of_pieces(alloc, pieces.as_slice()))
}

/// How much room the document of a query takes in the form of the texts, where it names many instances.
/// It is a hint, so it is none too where memory is refused.
pub fn room_for(
    alloc: Global,
    form: Form,
    query: &Query,
    registry: &Registry,
    vips: &VipIndex,
    queue: &ChangedQueue,
    texts: &Texts,
) -> Option<Room> {
    match query {
        Query::Apps => room_of_apps(alloc, texts),
        Query::Delta => room_of_delta(alloc, form, queue, texts),
        Query::App(name) => {
            let held = registry.of_app(alloc, name).ok()?;
            room_of_held(alloc, form, texts, held.as_slice())
        }
        Query::Vip(vip) => {
            let held = held_under_vip(alloc, registry, vips, vip).ok()?;
            room_of_held(alloc, form, texts, held.as_slice())
        }
        Query::Svip(svip) => {
            let held = held_under_svip(alloc, registry, vips, svip).ok()?;
            room_of_held(alloc, form, texts, held.as_slice())
        }
        Query::Instance(_) => None,
    }
}
