//! Writes the delta, the document of recent changes.
ghost use Rattle.std.specs.Prelude.{◌≡◌, List, IfOk, IfErr, Some, map, option_map};
ghost use Rattle.disco_values.specs.declared.fault.Fault.TheVariants.{OutOfMemory};
ghost use Rattle.disco_history.specs.Change.{change_view, key_of};
ghost use Rattle.disco_index.specs.Tally.{tally_in};
ghost use Rattle.disco_queue.specs.Latest.{AreOfKeys, latest_key};
ghost use Rattle.disco_queue.specs.Queue.{KeepsHistory};
ghost use Rattle.disco_queue.specs.Timed.{Timed, changes};
ghost use Rattle.disco_registry.specs.State.{StandsFor};
ghost use Rattle.disco_wire.specs.Documents.{IsWritten};
ghost use Rattle.disco_writer.specs.InOrder.{AreTheirs};
ghost use Rattle.disco_writer.specs.Joined.{AreJoinedTexts, IsJoinedText, IsToldText, shown_by, shown_one, texts_by, told_by, told_one};
ghost use Rattle.disco_writer.specs.Kept.{AreKept};
ghost use Rattle.disco_values.specs.declared.query.Query.TheVariants as query;

use crate::in_order::{KeyedText, text_from, texts_beside};
use crate::join::join_many;
use crate::piece::{Piece, kept_piece, make_piece};
use crate::texts::Texts;
use disco_history::Change;
use disco_index::Counts;
use disco_queue::{ChangedQueue, Latest};
use disco_registry::Registry;
use disco_values::{Action, Fault, Form, Text};
use std::alloc::Global;

/// The piece of a changed instance, with its kept text or, where none is kept, one that is made.
fn piece_by<'t>(
    alloc: Global,
    form: Form,
    kept: Option<&'t [u8]>,
    app: &'t Text,
    change: &'t Change,
) -> Result<Piece<'t>, Fault>
    requires { app.now ≡ (key_of (change_view change.now)).app }
    ensures piece { IfOk result (λ p. shown_one p ≡ told_by form (option_map (λ t. t.now) kept.entry) (change_view change.now)) }
    ensures told { IfOk result (λ p. IsToldText form (option_map (λ t. t.now) kept.entry) (change_view change.now)) }
    ensures memory { IfErr result (λ e. e ≡ OutOfMemory) }
{
    match kept {
        Some(text) => Ok(kept_piece(app, text)),
        None => match change {
            Change::Put { action, rec } => make_piece(alloc, form, rec, *action),
            Change::Gone { rec } => make_piece(alloc, form, rec, Action::Deleted),
        },
    }
}

/// The piece of a change of a key. Searches for the kept text.
fn piece_sought<'t>(
    alloc: Global,
    form: Form,
    texts: &'t Texts,
    entries: &[KeyedText<'t>],
    at: &mut usize,
    latest: &Latest<'t>,
) -> Result<Piece<'t>, Fault>
    requires theirs { AreTheirs texts.now entries.now }
    requires key { latest_key latest.now ≡ key_of (change_view latest.now.2.now) }
    ensures piece { IfOk result (λ p. shown_one p ≡ told_one form texts.now (change_view latest.now.2.now)) }
    ensures told { IfOk result (λ p. IsJoinedText form texts.now (change_view latest.now.2.now)) }
    ensures memory { IfErr result (λ e. e ≡ OutOfMemory) }
{
    let (app, id, change) = *latest;
    let kept = text_from(texts, entries, at, app, id);
    piece_by(alloc, form, kept, app, change)
}

/// The pieces of these changes of keys.
pub(crate) fn pieces_by<'t>(
    alloc: Global,
    form: Form,
    texts: &'t Texts,
    changes: &'t [Latest<'t>],
) -> Result<Vec<Piece<'t>>, Fault>
    requires { AreOfKeys changes.now }
    ensures pieces { IfOk result (λ v. shown_by v.items ≡ texts_by form texts.now (map (λ p. change_view p.2.now) changes.now)) }
    ensures told { IfOk result (λ v. AreJoinedTexts form texts.now (map (λ p. change_view p.2.now) changes.now)) }
    ensures memory { IfErr result (λ e. e ≡ OutOfMemory) }
{
    let mut list = Vec::with_capacity(alloc, changes.len())?;
    let entries = texts_beside(alloc, texts, changes.len())?;
    let mut at = 0;
    for latest in changes {
        list.push(piece_sought(alloc, form, texts, &entries, &mut at, latest)?)?;
    }
    Ok(list)
}

/// The document in a form of the last change of each key that the queue keeps, with the hash code of
/// all records. It takes kept texts, and makes those of instances that are gone. Refused only as
/// `OutOfMemory`.
pub(crate) fn write_delta(
    room: Vec<u8>,
    form: Form,
    registry: &Registry,
    queue: &ChangedQueue,
    counts: &Counts,
    texts: &Texts,
) -> Result<Vec<u8>, Fault>
    requires counts { counts.now ≡ tally_in registry.now.held }
    requires kept { AreKept form texts.now registry.now.held }
    ensures written { IfOk result (λ v. (h : List Timed) → StandsFor registry.now (changes h) → KeepsHistory queue.now h
        → IsWritten form query.Delta (changes h) queue.now.base (Some v.items)) }
    ensures memory { IfErr result (λ e. e ≡ OutOfMemory) }
{
    let alloc = *room.allocator();
    let last = queue.last_changes_with_keys(alloc)?;
    let pieces = pieces_by(alloc, form, texts, last.as_slice())?;
    let hash = counts.text(alloc)?;
    Ok(join_many(room, pieces.as_slice(), &hash, registry.version())?)
}
