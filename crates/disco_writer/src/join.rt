//! Documents joined from the texts of their instances.
ghost use Rattle.std.specs.Prelude.{◌≡◌, ◌++◌, ◌∷◌, [], List, IfOk, OnOk, None, Some, Ok, option_map, codes, decimal, false};
ghost use Rattle.json.specs.Print.{escape, quoted};
ghost use Rattle.serde_json.specs.Written.{compact_text};
ghost use Rattle.disco_values.specs.declared.form.Form.{Form};
ghost use Rattle.disco_history.specs.Change.{Entry};
ghost use Rattle.disco_history.specs.Mentions.{mention_of};
ghost use Rattle.disco_wire.specs.Documents.{document_of};
ghost use Rattle.disco_wire.specs.Meaning.{meant};
ghost use Rattle.disco_wire.specs.declared.wire.Shape.TheVariants.{App, Many, One};
ghost use Rattle.disco_writer.specs.Kept.{IsTextOf};
ghost use Rattle.disco_writer.specs.Joined.{AreTextsOf, Pushes, after_last, app_close, app_joined, app_open, before_next, in_apps, in_commas};
ghost use Rattle.disco_writer.specs.Joined.{many_close, many_joined, many_open, one_joined, shown_by};
ghost use Rattle.disco_wire.specs.Rows.{mentions_in};
ghost use Rattle.disco_wire.specs.Written.{app_document, document_tree, instance_document};

use crate::piece::Piece;
use crate::plain_text::is_plain;
use disco_values::Text;
use serde_json::Value;
use std::alloc::{AllocError, Global};

/// Room for the text around the instances of an app, beside its name.
const ROUND: usize = 64;

fn push(out: &mut Vec<u8>, text: &[u8]) -> Result<(), AllocError>
    ensures { OnOk result (Pushes out.old.items out.new.items text.now) }
{
    out.extend_from_slice(text)
}

fn push_str(out: &mut Vec<u8>, text: &str) -> Result<(), AllocError>
    ensures { OnOk result (Pushes out.old.items out.new.items text.now) }
{
    push(out, text.as_bytes())
}

/// A text between quotes, with the escapes that it needs.
pub(crate) fn quoted(alloc: Global, text: &str) -> Result<Vec<u8>, AllocError>
    ensures { IfOk result (λ v. v.items ≡ quoted text.now) }
{
    let value = Value::String(String::from_str(alloc, text)?);
    Ok(value.to_vec(alloc)?)
}

fn push_plain(out: &mut Vec<u8>, text: &str) -> Result<(), AllocError>
    requires { escape text.now ≡ text.now }
    ensures { OnOk result (Pushes out.old.items out.new.items (quoted text.now)) }
{
    push_str(out, "\"")?;
    push_str(out, text)?;
    push_str(out, "\"")
}

fn push_string(alloc: Global, out: &mut Vec<u8>, text: &str) -> Result<(), AllocError>
    ensures { OnOk result (Pushes out.old.items out.new.items (quoted text.now)) }
{
    if is_plain(text.as_bytes()) {
        return push_plain(out, text);
    }
    let text = quoted(alloc, text)?;
    push(out, text.as_slice())
}

fn push_quoted(alloc: Global, out: &mut Vec<u8>, text: &Text) -> Result<(), AllocError>
    ensures { OnOk result (Pushes out.old.items out.new.items (quoted text.now)) }
{
    push_string(alloc, out, text.as_str())
}

fn push_digits(alloc: Global, out: &mut Vec<u8>, number: u64) -> Result<(), AllocError>
    ensures { OnOk result (Pushes out.old.items out.new.items (quoted (decimal number))) }
{
    let digits = format!(in alloc; "{number}")?;
    push_string(alloc, out, digits.as_str())
}

#[tactic(auto, unfolding(crate::specs::Joined::app_open))]
fn push_open(out: &mut Vec<u8>) -> Result<(), AllocError>
    ensures { OnOk result (Pushes out.old.items out.new.items app_open) }
{
    push_str(out, "{\"instance\":[")
}

fn push_close(alloc: Global, out: &mut Vec<u8>, app: &Text) -> Result<(), AllocError>
    ensures { OnOk result (Pushes out.old.items out.new.items (app_close app.now)) }
{
    push_str(out, "],\"name\":")?;
    push_quoted(alloc, out, app)?;
    push_str(out, "}")
}

fn push_between(alloc: Global, out: &mut Vec<u8>, last: &Text) -> Result<(), AllocError>
    ensures { OnOk result (Pushes out.old.items out.new.items ((app_close last.now ++ (codes "," ++ app_open)))) }
{
    push_close(alloc, out, last)?;
    push_str(out, ",")?;
    push_open(out)
}

fn push_before(
    alloc: Global,
    out: &mut Vec<u8>,
    last: Option<&Text>,
    app: &Text,
) -> Result<(), AllocError>
    ensures { OnOk result (Pushes out.old.items out.new.items (before_next (option_map (λ t. t.now) last.entry) app.now)) }
{
    match last {
        None => push_open(out),
        Some(last) => {
            if *app == *last {
                push_str(out, ",")
            } else {
                push_between(alloc, out, last)
            }
        }
    }
}

fn push_after(alloc: Global, out: &mut Vec<u8>, last: Option<&Text>) -> Result<(), AllocError>
    ensures { OnOk result (Pushes out.old.items out.new.items (after_last (option_map (λ t. t.now) last.entry))) }
{
    match last {
        None => Ok(()),
        Some(last) => push_close(alloc, out, last),
    }
}

/// Applications of these instances, neighbours of one app together.
fn push_apps(alloc: Global, out: &mut Vec<u8>, pieces: &[Piece<'_>]) -> Result<(), AllocError>
    ensures { OnOk result (Pushes out.old.items out.new.items (in_apps None (shown_by pieces.now))) }
{
    let mut last: Option<&Text> = None;
    for piece in pieces {
        push_before(alloc, out, last, piece.app)?;
        push(out, piece.bytes())?;
        last = Some(piece.app);
    }
    push_after(alloc, out, last)
}

/// The texts of these instances with commas between them.
fn push_list(out: &mut Vec<u8>, pieces: &[Piece<'_>]) -> Result<(), AllocError>
    ensures { OnOk result (Pushes out.old.items out.new.items (in_commas false (shown_by pieces.now))) }
{
    let mut later = false;
    for piece in pieces {
        push_str(out, if later { "," } else { "" })?;
        push(out, piece.bytes())?;
        later = true;
    }
    Ok(())
}

fn push_many_close(
    alloc: Global,
    out: &mut Vec<u8>,
    hash: &Text,
    version: u64,
) -> Result<(), AllocError>
    ensures { OnOk result (Pushes out.old.items out.new.items (many_close hash.now version)) }
{
    push_str(out, "],\"apps__hashcode\":")?;
    push_quoted(alloc, out, hash)?;
    push_str(out, ",\"versions__delta\":")?;
    push_digits(alloc, out, version)?;
    push_str(out, "}}")
}

/// How many bytes to ask for, once, for a document of these texts with this name. No document needs
/// more: an escaped byte of a name takes 6. No contract depends on it.
pub(crate) fn room_of(pieces: &[Piece<'_>], name: &Text) -> usize {
    let mut bytes = around(name).saturating_add(4 * ROUND);
    let mut last: Option<&Text> = None;
    for piece in pieces {
        bytes = bytes.saturating_add(piece.bytes().len()).saturating_add(1);
        if last != Some(piece.app) {
            bytes = bytes.saturating_add(around(piece.app));
        }
        last = Some(piece.app);
    }
    bytes
}

/// The room that was lent, empty; where none was, as much as a document of these texts may need.
fn with_room(mut room: Vec<u8>, pieces: &[Piece<'_>], name: &Text) -> Result<Vec<u8>, AllocError>
    ensures { IfOk result (λ v. v.items ≡ []) }
{
    room.clear();
    if room.capacity() == 0 {
        room.reserve_exact(room_of(pieces, name))?;
    }
    Ok(room)
}

/// How many bytes there are around the texts of an app.
fn around(name: &Text) -> usize {
    name.as_str().len().saturating_mul(6).saturating_add(ROUND)
}

#[tactic(auto, unfolding(crate::specs::Joined::many_open))]
fn push_many_open(out: &mut Vec<u8>) -> Result<(), AllocError>
    ensures { OnOk result (Pushes out.old.items out.new.items many_open) }
{
    push_str(out, "{\"applications\":{\"application\":[")
}

fn push_many(
    alloc: Global,
    out: &mut Vec<u8>,
    pieces: &[Piece<'_>],
    hash: &Text,
    version: u64,
) -> Result<(), AllocError>
    ensures { OnOk result (Pushes out.old.items out.new.items (many_joined (shown_by pieces.now) hash.now version)) }
{
    push_many_open(out)?;
    push_apps(alloc, out, pieces)?;
    push_many_close(alloc, out, hash, version)
}

fn push_app(
    alloc: Global,
    out: &mut Vec<u8>,
    name: &Text,
    pieces: &[Piece<'_>],
) -> Result<(), AllocError>
    ensures { OnOk result (Pushes out.old.items out.new.items (app_joined name.now (shown_by pieces.now))) }
{
    push_str(out, "{\"application\":")?;
    push_open(out)?;
    push_list(out, pieces)?;
    push_close(alloc, out, name)?;
    push_str(out, "}")
}

fn push_one(out: &mut Vec<u8>, text: &[u8]) -> Result<(), AllocError>
    ensures { OnOk result (Pushes out.old.items out.new.items (one_joined text.now)) }
{
    push_str(out, "{\"instance\":")?;
    push(out, text)?;
    push_str(out, "}")
}

/// The document of many apps with these instances.
pub(crate) fn join_many(
    room: Vec<u8>,
    pieces: &[Piece<'_>],
    hash: &Text,
    version: u64,
) -> Result<Vec<u8>, AllocError>
    ensures text { IfOk result (λ v. (f : Form) (es : List Entry) → AreTextsOf f (shown_by pieces.now) es
        → v.items ≡ compact_text (document_tree f es hash.now version)) }
    ensures means { IfOk result (λ v. (f : Form) (es : List Entry) → AreTextsOf f (shown_by pieces.now) es
        → document_of v.items ≡ Ok (meant Many (Some hash.now) (Some version) (mentions_in f es))) }
{
    // For the proof alone: a hash code is UTF-8.
    let _hash = hash.as_str();
    let mut out = with_room(room, pieces, hash)?;
    push_many(*out.allocator(), &mut out, pieces, hash, version)?;
    Ok(out)
}

/// The document of an app with these instances.
pub(crate) fn join_app(
    room: Vec<u8>,
    name: &Text,
    pieces: &[Piece<'_>],
) -> Result<Vec<u8>, AllocError>
    ensures text { IfOk result (λ v. (f : Form) (es : List Entry) → AreTextsOf f (shown_by pieces.now) es
        → v.items ≡ compact_text (app_document f name.now es)) }
    ensures means { IfOk result (λ v. (f : Form) (es : List Entry) → AreTextsOf f (shown_by pieces.now) es
        → document_of v.items ≡ Ok (meant App None None (mentions_in f es))) }
{
    // For the proof alone: a name is UTF-8.
    let _name = name.as_str();
    let mut out = with_room(room, pieces, name)?;
    push_app(*out.allocator(), &mut out, name, pieces)?;
    Ok(out)
}

/// The document of the instance of this text.
pub(crate) fn join_one(alloc: Global, text: &[u8]) -> Result<Vec<u8>, AllocError>
    ensures text { IfOk result (λ v. (f : Form) (e : Entry) → IsTextOf f text.now (mention_of e) → v.items ≡ compact_text (instance_document f (e ∷ []))) }
    ensures means { IfOk result (λ v. (f : Form) (e : Entry) → IsTextOf f text.now (mention_of e)
        → document_of v.items ≡ Ok (meant One None None (mentions_in f (e ∷ [])))) }
{
    let mut out = Vec::with_capacity(alloc, text.len().saturating_add(ROUND))?;
    push_one(&mut out, text)?;
    Ok(out)
}
