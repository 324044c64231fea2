//! Documents of held instances.
ghost use Rattle.std.specs.Prelude.{◌≡◌, ◌∷◌, [], IfErr, IfOk, None, Ok, Some};
ghost use Rattle.serde_json.specs.Written.{compact_text};
ghost use Rattle.disco_values.specs.declared.fault.Fault.TheVariants.{OutOfMemory};
ghost use Rattle.disco_history.specs.Held.{entry_of};
ghost use Rattle.disco_wire.specs.Documents.{document_of};
ghost use Rattle.disco_wire.specs.Meaning.{meant};
ghost use Rattle.disco_wire.specs.declared.wire.Shape.TheVariants.{App, Many, One};
ghost use Rattle.disco_writer.specs.Joined.{Agrees, AllAgree};
ghost use Rattle.disco_wire.specs.Rows.{held_entries, mentions_in};
ghost use Rattle.disco_wire.specs.Written.{app_document, document_tree, instance_document};

use crate::join::{join_app, join_many, join_one};
use crate::piece::{piece_of, pieces_of};
use crate::texts::Texts;
use disco_history::Held;
use disco_values::{Fault, Form, Text};
use std::alloc::Global;

/// The document of many apps with these instances in a form, where kept texts are theirs.
pub(crate) fn many_text(
    room: Vec<u8>,
    form: Form,
    texts: &Texts,
    held: &[Held],
    hash: &Text,
    version: u64,
) -> Result<Vec<u8>, Fault>
    ensures text { IfOk result (λ v. AllAgree form texts.now (held_entries held.now)
        → v.items ≡ compact_text (document_tree form (held_entries held.now) hash.now version)) }
    ensures means { IfOk result (λ v. AllAgree form texts.now (held_entries held.now)
        → document_of v.items ≡ Ok (meant Many (Some hash.now) (Some version) (mentions_in form (held_entries held.now)))) }
    ensures memory { IfErr result (λ e. e ≡ OutOfMemory) }
{
    let pieces = pieces_of(*room.allocator(), form, texts, held)?;
    Ok(join_many(room, pieces.as_slice(), hash, version)?)
}

/// The document of an app with these instances in a form, where kept texts are theirs.
pub(crate) fn app_text(
    room: Vec<u8>,
    form: Form,
    texts: &Texts,
    name: &Text,
    held: &[Held],
) -> Result<Vec<u8>, Fault>
    ensures text { IfOk result (λ v. AllAgree form texts.now (held_entries held.now)
        → v.items ≡ compact_text (app_document form name.now (held_entries held.now))) }
    ensures means { IfOk result (λ v. AllAgree form texts.now (held_entries held.now)
        → document_of v.items ≡ Ok (meant App None None (mentions_in form (held_entries held.now)))) }
    ensures memory { IfErr result (λ e. e ≡ OutOfMemory) }
{
    let pieces = pieces_of(*room.allocator(), form, texts, held)?;
    Ok(join_app(room, name, pieces.as_slice())?)
}

/// The document of an instance in a form, where a kept text is its.
pub(crate) fn one_text(
    alloc: Global,
    form: Form,
    texts: &Texts,
    held: &Held,
) -> Result<Vec<u8>, Fault>
    ensures text { IfOk result (λ v. Agrees form texts.now (entry_of held.now) → v.items ≡ compact_text (instance_document form (entry_of held.now ∷ []))) }
    ensures means { IfOk result (λ v. Agrees form texts.now (entry_of held.now)
        → document_of v.items ≡ Ok (meant One None None (mentions_in form (entry_of held.now ∷ [])))) }
    ensures memory { IfErr result (λ e. e ≡ OutOfMemory) }
{
    let piece = piece_of(alloc, form, texts, held)?;
    Ok(join_one(alloc, piece.bytes())?)
}
