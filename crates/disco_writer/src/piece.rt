//! The pieces of which a document is joined: the texts of its instances.
ghost use Rattle.std.specs.Prelude.{◌≡◌, IfErr, IfOk, None};
ghost use Rattle.disco_values.specs.declared.fault.Fault.TheVariants.{OutOfMemory};
ghost use Rattle.disco_instance.specs.Row.{row};
ghost use Rattle.disco_history.specs.Held.{entry_of};
ghost use Rattle.disco_wire.specs.Rows.{held_entries};
ghost use Rattle.disco_writer.specs.Joined.{AreJoinedTexts, IsJoinedText, IsToldText, bytes_of, shown_by, shown_one, texts_by, told_by, told_one};

use crate::instance::write_text;
use crate::texts::Texts;
use disco_history::Held;
use disco_instance::Record;
use disco_values::{Action, Fault, Form, Key, Text};
use std::alloc::Global;

/// A text that is kept, or one that was made for this document.
#[derive(Drop)]
pub(crate) enum Source<'t> {
    Kept(&'t [u8]),
    Made(Vec<u8>),
}

/// An instance's app and its text.
#[derive(Drop)]
pub(crate) struct Piece<'t> {
    pub(crate) app: &'t Text,
    pub(crate) source: Source<'t>,
}

impl Piece<'_> {
    pub(crate) fn bytes(&self) -> &[u8]
        ensures { result.now ≡ bytes_of self.now.source }
    {
        match &self.source {
            Source::Kept(text) => *text,
            Source::Made(text) => text.as_slice(),
        }
    }
}

/// The piece of an instance of an app, of which that text is kept.
pub(crate) fn kept_piece<'t>(app: &'t Text, text: &'t [u8]) -> Piece<'t>
    ensures { shown_one result ≡ (app.now, text.now) }
{
    Piece {
        app,
        source: Source::Kept(text),
    }
}

/// The piece of a record and what was done to it, with a text that is made.
pub(crate) fn make_piece<'t>(
    alloc: Global,
    form: Form,
    rec: &'t Record,
    action: Action,
) -> Result<Piece<'t>, Fault>
    ensures piece { IfOk result (λ p. shown_one p ≡ told_by form None (row rec.now, action)) }
    ensures told { IfOk result (λ p. IsToldText form None (row rec.now, action)) }
    ensures memory { IfErr result (λ e. e ≡ OutOfMemory) }
{
    Ok(Piece {
        app: &rec.key.app,
        source: Source::Made(write_text(alloc, form, rec, Some(action))?),
    })
}

/// The piece of a held instance, with its kept text or, where none is kept, one that is made.
pub(crate) fn piece_of<'t>(
    alloc: Global,
    form: Form,
    texts: &'t Texts,
    held: &'t Held,
) -> Result<Piece<'t>, Fault>
    ensures piece { IfOk result (λ p. shown_one p ≡ told_one form texts.now (entry_of held.now)) }
    ensures told { IfOk result (λ p. IsJoinedText form texts.now (entry_of held.now)) }
    ensures memory { IfErr result (λ e. e ≡ OutOfMemory) }
{
    let key = &held.rec.key;
    match texts.get(key) {
        Some(text) => Ok(kept_piece(&key.app, text)),
        None => make_piece(alloc, form, &held.rec, held.action),
    }
}

/// The pieces of these instances.
pub(crate) fn pieces_of<'t>(
    alloc: Global,
    form: Form,
    texts: &'t Texts,
    held: &'t [Held],
) -> Result<Vec<Piece<'t>>, Fault>
    ensures pieces { IfOk result (λ v. shown_by v.items ≡ texts_by form texts.now (held_entries held.now)) }
    ensures told { IfOk result (λ v. AreJoinedTexts form texts.now (held_entries held.now)) }
    ensures memory { IfErr result (λ e. e ≡ OutOfMemory) }
{
    let mut list = Vec::with_capacity(alloc, held.len())?;
    for one in held {
        list.push(piece_of(alloc, form, texts, one)?)?;
    }
    Ok(list)
}
