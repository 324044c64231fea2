//! The document that a query asks for.
ghost use Rattle.std.specs.Prelude.{◌≡◌, ◌<◌, List, IfOk, IfErr, MatchOption, Ok, Some, true, false, length, option_map};
ghost use Rattle.serde_json.specs.Written.{compact_text};
ghost use Rattle.disco_values.specs.declared.fault.Fault.TheVariants.{OutOfMemory};
ghost use Rattle.disco_values.specs.declared.form.Form.TheVariants.{Full};
ghost use Rattle.disco_history.specs.Change.{Entry};
ghost use Rattle.disco_history.specs.Hash.{hash};
ghost use Rattle.disco_index.specs.Tally.{tally_in};
ghost use Rattle.disco_index.specs.Vips.{IsIndexOf};
ghost use Rattle.disco_queue.specs.Queue.{KeepsHistory};
ghost use Rattle.disco_queue.specs.Timed.{Timed, changes};
ghost use Rattle.disco_registry.specs.State.{StandsFor};
ghost use Rattle.disco_wire.specs.Documents.{document_of, IsWritten};
ghost use Rattle.disco_wire.specs.Meaning.{meant};
ghost use Rattle.disco_wire.specs.declared.wire.Shape.TheVariants.{Many};
ghost use Rattle.disco_values.specs.Query.{is_delta};
ghost use Rattle.disco_wire.specs.Rows.{held_entries, mentions_in, rows_in};
ghost use Rattle.disco_wire.specs.Written.{document_tree};
ghost use Rattle.disco_writer.specs.Joined.{AllAgree};
ghost use Rattle.disco_writer.specs.Kept.{AreKept};
ghost use Rattle.disco_values.specs.declared.query.Query.TheVariants as query;

use crate::delta::write_delta;
use crate::join::join_many;
use crate::many::{app_text, many_text, one_text};
use crate::selected::{count, held_under_svip, held_under_vip};
use crate::texts::Texts;
use disco_history::Held;
use disco_index::{Counts, VipIndex};
use disco_queue::ChangedQueue;
use disco_registry::Registry;
use disco_values::{Fault, Form, Key, Query, Text};
use std::alloc::Global;

/// The document that a query asks for in a form, as compact JSON; `None` exactly where the query is
/// for an app, a vip, a secure vip or an instance, and no record is. A delta names what the queue
/// keeps. The counts, the vips and the kept texts, in that form, have to be those of the registry: the
/// document is joined from these texts.
///
/// # Errors
///
/// `OutOfMemory` alone.
pub fn write_document(
    room: Vec<u8>,
    form: Form,
    query: &Query,
    registry: &Registry,
    vips: &VipIndex,
    queue: &ChangedQueue,
    counts: &Counts,
    texts: &Texts,
) -> Result<Option<Vec<u8>>, Fault>
    requires counts { counts.now ≡ tally_in registry.now.held }
    requires vips { IsIndexOf vips.now registry.now.held }
    requires kept { AreKept form texts.now registry.now.held }
    ensures written { IfOk result (λ o. is_delta query.now ≡ false
        → (h : List Entry) → StandsFor registry.now h → IsWritten form query.now h (length h) (option_map (λ v. v.items) o)) }
    ensures delta { IfOk result (λ o. is_delta query.now ≡ true
        → (h : List Timed) → StandsFor registry.now (changes h) → KeepsHistory queue.now h
        → IsWritten form query.now (changes h) queue.now.base (option_map (λ v. v.items) o)) }
    ensures memory { IfErr result (λ e. e ≡ OutOfMemory) }
{
    match query {
        Query::Apps => Ok(Some(write_apps(room, form, registry, counts, texts)?)),
        Query::Delta => Ok(Some(write_delta(room, form, registry, queue, counts, texts)?)),
        Query::App(name) => write_app(room, form, registry, texts, name),
        Query::Vip(vip) => write_vip(room, form, registry, vips, texts, vip),
        Query::Svip(svip) => write_svip(room, form, registry, vips, texts, svip),
        Query::Instance(key) => write_instance(*room.allocator(), form, registry, texts, key),
    }
}

/// The document that a query asks for in the full form, as [`write_document`] gives it.
///
/// # Errors
///
/// `OutOfMemory` alone.
pub fn write_full(
    alloc: Global,
    query: &Query,
    registry: &Registry,
    vips: &VipIndex,
    queue: &ChangedQueue,
    counts: &Counts,
    texts: &Texts,
) -> Result<Option<Vec<u8>>, Fault>
    requires counts { counts.now ≡ tally_in registry.now.held }
    requires vips { IsIndexOf vips.now registry.now.held }
    requires kept { AreKept Full texts.now registry.now.held }
    ensures written { IfOk result (λ o. is_delta query.now ≡ false
        → (h : List Entry) → StandsFor registry.now h → IsWritten Full query.now h (length h) (option_map (λ v. v.items) o)) }
    ensures delta { IfOk result (λ o. is_delta query.now ≡ true
        → (h : List Timed) → StandsFor registry.now (changes h) → KeepsHistory queue.now h
        → IsWritten Full query.now (changes h) queue.now.base (option_map (λ v. v.items) o)) }
    ensures memory { IfErr result (λ e. e ≡ OutOfMemory) }
{
    write_document(
        Vec::new(alloc),
        Form::Full,
        query,
        registry,
        vips,
        queue,
        counts,
        texts,
    )
}

fn write_apps(
    room: Vec<u8>,
    form: Form,
    registry: &Registry,
    counts: &Counts,
    texts: &Texts,
) -> Result<Vec<u8>, Fault>
    requires counts { counts.now ≡ tally_in registry.now.held }
    requires kept { AreKept form texts.now registry.now.held }
    ensures written { IfOk result (λ v. (h : List Entry) → StandsFor registry.now h → IsWritten form query.Apps h (length h) (Some v.items)) }
    ensures memory { IfErr result (λ e. e ≡ OutOfMemory) }
{
    let alloc = *room.allocator();
    let hash = counts.text(alloc)?;
    let pieces = texts.pieces(alloc)?;
    Ok(join_many(room, pieces.as_slice(), &hash, registry.version())?)
}

fn write_app(
    room: Vec<u8>,
    form: Form,
    registry: &Registry,
    texts: &Texts,
    name: &Text,
) -> Result<Option<Vec<u8>>, Fault>
    requires { AreKept form texts.now registry.now.held }
    ensures written { IfOk result (λ o. (h : List Entry) → StandsFor registry.now h
        → IsWritten form (query.App name.now) h (length h) (option_map (λ v. v.items) o)) }
    ensures memory { IfErr result (λ e. e ≡ OutOfMemory) }
{
    let held = registry.of_app(*room.allocator(), name)?;
    if held.is_empty() {
        return Ok(None);
    }
    Ok(Some(app_text(room, form, texts, name, held.as_slice())?))
}

/// The document of some records, with the hash code of these alone; none where there are none.
fn write_some(
    room: Vec<u8>,
    form: Form,
    texts: &Texts,
    held: &[Held],
    version: u64,
) -> Result<Option<Vec<u8>>, Fault>
    ensures written { IfOk result (λ o. AllAgree form texts.now (held_entries held.now) → MatchOption o (length held.now ≡ 0) (λ v. (0 < length held.now)
        × (v.items ≡ compact_text (document_tree form (held_entries held.now) (hash (rows_in (held_entries held.now))) version))
        × (document_of v.items ≡ Ok (meant Many (Some (hash (rows_in (held_entries held.now)))) (Some version) (mentions_in form (held_entries held.now)))))) }
    ensures memory { IfErr result (λ e. e ≡ OutOfMemory) }
{
    if held.is_empty() {
        return Ok(None);
    }
    let hash = count(held).text(*room.allocator())?;
    Ok(Some(many_text(room, form, texts, held, &hash, version)?))
}

fn write_vip(
    room: Vec<u8>,
    form: Form,
    registry: &Registry,
    vips: &VipIndex,
    texts: &Texts,
    vip: &Text,
) -> Result<Option<Vec<u8>>, Fault>
    requires index { IsIndexOf vips.now registry.now.held }
    requires kept { AreKept form texts.now registry.now.held }
    ensures written { IfOk result (λ o. (h : List Entry) → StandsFor registry.now h
        → IsWritten form (query.Vip vip.now) h (length h) (option_map (λ v. v.items) o)) }
    ensures memory { IfErr result (λ e. e ≡ OutOfMemory) }
{
    let held = held_under_vip(*room.allocator(), registry, vips, vip)?;
    Ok(write_some(room, form, texts, held.as_slice(), registry.version())?)
}

fn write_svip(
    room: Vec<u8>,
    form: Form,
    registry: &Registry,
    vips: &VipIndex,
    texts: &Texts,
    svip: &Text,
) -> Result<Option<Vec<u8>>, Fault>
    requires index { IsIndexOf vips.now registry.now.held }
    requires kept { AreKept form texts.now registry.now.held }
    ensures written { IfOk result (λ o. (h : List Entry) → StandsFor registry.now h
        → IsWritten form (query.Svip svip.now) h (length h) (option_map (λ v. v.items) o)) }
    ensures memory { IfErr result (λ e. e ≡ OutOfMemory) }
{
    let held = held_under_svip(*room.allocator(), registry, vips, svip)?;
    Ok(write_some(room, form, texts, held.as_slice(), registry.version())?)
}

fn write_instance(
    alloc: Global,
    form: Form,
    registry: &Registry,
    texts: &Texts,
    key: &Key,
) -> Result<Option<Vec<u8>>, Fault>
    requires { AreKept form texts.now registry.now.held }
    ensures written { IfOk result (λ o. (h : List Entry) → StandsFor registry.now h
        → IsWritten form (query.Instance key.now) h (length h) (option_map (λ v. v.items) o)) }
    ensures memory { IfErr result (λ e. e ≡ OutOfMemory) }
{
    match registry.held(key) {
        Some(held) => Ok(Some(one_text(alloc, form, texts, held)?)),
        None => Ok(None),
    }
}
