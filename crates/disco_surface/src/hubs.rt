//! A hub, by each of its calls.
use crate::given::{app, key, refusal, registration, say};
use disco_cache::{DocKey, Payload};
use disco_hub::{Copied, Expired, Hub, Ready, Settings};
use disco_instance::{Fault, Form, Key, Text};
use disco_registry::Op;
use disco_writer::Query;
use std::alloc::Global;
use std::sync::Arc;

/// Settings of one's own: run 7, ten versions, ten instances, and four kept documents.
pub(crate) fn settings() -> Settings {
    Settings {
        run: 7,
        versions: 10,
        instances: 10,
        queue: 4,
        entries: 4,
        retention: 180_000,
        delta: true,
    }
}

/// Whether what is made ready names a change.
fn names_change(ready: &Ready) -> Result<u64, Fault> {
    Ok(ready.change()?.is_some() as u64)
}

/// An operation that is made ready and done: whether it names a change.
fn carry_out(hub: &mut Hub, op: Op) -> Result<u64, Fault> {
    let ready: Ready = hub.ready(op, 1)?;
    let told = names_change(&ready);
    let _ = hub.commit(ready);
    told
}

/// Writes at a moment, and gives the version.
fn write(hub: &mut Hub, op: Op, now: u64) -> Result<u64, Fault> {
    let _ = hub.write(op, now)?;
    Ok(hub.version())
}

/// The version of a document, or why there is none.
fn version(doc: Result<Arc<Payload, Global>, Fault>) -> Result<u64, Fault> {
    match doc {
        Ok(doc) => Ok(doc.version),
        Err(fault) => Err(fault),
    }
}

/// The version of the document of a query.
fn load(hub: &mut Hub, query: Query) -> Result<u64, Fault> {
    let form = Form::Compact;
    version(hub.load(&DocKey { query, form }))
}

fn tell_payload(doc: &Payload, out: &mut String) -> Result<(), Fault> {
    say(out, "run", doc.run)?;
    say(out, "base", doc.base)?;
    say(out, "version", doc.version)
}

fn tell_document(hub: &mut Hub, key: &DocKey, out: &mut String) -> Result<(), Fault> {
    let doc = hub.load(key)?;
    tell_payload(&doc, out)
}

fn tell_instance(hub: &Hub, key: &Key, out: &mut String) -> Result<(), Fault> {
    say(out, "one", version(hub.instance(key, Form::Full))?)?;
    say(out, "by id", version(hub.by_id("1", Form::Compact))?)
}

fn name(alloc: Global) -> Result<Text, Fault> {
    Ok(Text::new(alloc, "b")?)
}

/// What the queries for all apps answer: the version of the document.
fn tell_all(hub: &mut Hub, out: &mut String) -> Result<(), Fault> {
    say(out, "apps", load(hub, Query::Apps)?)?;
    say(out, "delta", load(hub, Query::Delta)?)
}

/// What the other queries answer: the version of the document, or the number of the refusal.
fn tell_named(alloc: Global, hub: &mut Hub, out: &mut String) -> Result<(), Fault> {
    say(out, "no app", refusal(load(hub, Query::App(name(alloc)?))))?;
    say(out, "vip", load(hub, Query::Vip(name(alloc)?))?)?;
    let svip = load(hub, Query::Svip(name(alloc)?));
    say(out, "no secure vip", refusal(svip))?;
    say(
        out,
        "instance",
        load(hub, Query::Instance(key(alloc, "1")?))?,
    )
}

/// Whether there is a document to copy.
fn next(hub: &mut Hub) -> Result<u64, Fault> {
    Ok(hub.next_copy()?.is_some() as u64)
}

/// A round that is left before a key is copied.
fn tell_left(hub: &mut Hub, out: &mut String) -> Result<(), Fault> {
    say(out, "no round", refusal(hub.abandon()))?;
    say(out, "keys", hub.begin()? as u64)?;
    say(out, "round open", refusal(hub.begin()))?;
    say(out, "next", next(hub)?)?;
    say(out, "keys left", refusal(hub.finish()))?;
    say(out, "left", refusal(hub.abandon()))
}

/// A round whose key is marked.
fn tell_marked(hub: &mut Hub, out: &mut String) -> Result<(), Fault> {
    say(out, "no keys", hub.round().is_none() as u64)?;
    say(out, "keys", hub.begin()? as u64)?;
    say(out, "in the round", hub.round().unwrap_or(0) as u64)?;
    say(out, "marked", refusal(hub.mark(true)))?;
    say(out, "key marked", refusal(hub.abandon()))?;
    say(out, "no key to mark", refusal(hub.mark(true)))
}

/// That round, ended.
fn tell_ended(hub: &mut Hub, out: &mut String) -> Result<(), Fault> {
    say(out, "next", next(hub)?)?;
    say(out, "published", hub.finish()? as u64)?;
    say(out, "no round to copy", refusal(hub.copy_one()))?;
    say(out, "no round to end", refusal(hub.finish()))
}

/// The version that was copied, 0 of a document that is gone.
fn copied_version(copied: Option<Copied>) -> u64 {
    match copied {
        Some(Copied::Doc(doc)) => doc.version,
        Some(Copied::Drop(_)) | None => 0,
    }
}

/// A copy of a document that is gone.
fn tell_drop(hub: &mut Hub, out: &mut String) -> Result<(), Fault> {
    say(out, "keys", hub.begin()? as u64)?;
    say(out, "copied", copied_version(hub.copy_one()?))?;
    say(out, "published", hub.finish()? as u64)
}

/// An expiry at a moment: how many are gone, and whether it was stopped.
pub(crate) fn tell_expired(expired: Expired, out: &mut String) -> Result<(), Fault> {
    say(out, "expired", expired.gone)?;
    say(out, "stopped", expired.stopped.is_some() as u64)
}

/// How many leases have run out.
fn due(hub: &Hub) -> Result<u64, Fault> {
    Ok(hub.due(1_000_000)?.len() as u64)
}

fn tell_time(hub: &mut Hub, out: &mut String) -> Result<(), Fault> {
    let minute = hub.close_minute();
    say(out, "renewals", minute.renewals)?;
    say(out, "instances", minute.instances)?;
    say(out, "due", due(hub)?)?;
    tell_expired(hub.expire(1_000_000), out)?;
    say(out, "base", hub.clean(1_000_000))
}

fn tell_known(alloc: Global, hub: &Hub, out: &mut String) -> Result<(), Fault> {
    let key = key(alloc, "1")?;
    tell_instance(hub, &key, out)
}

fn is_overdue(alloc: Global, hub: &Hub) -> Result<u64, Fault> {
    let key = key(alloc, "1")?;
    Ok(hub.is_overdue(&key, 1_000_000) as u64)
}

fn tell_app(alloc: Global, hub: &mut Hub, out: &mut String) -> Result<(), Fault> {
    let app = app(alloc)?;
    tell_document(hub, &app, out)
}

/// An instance that comes, is renewed, and is read.
fn tell_put(alloc: Global, hub: &mut Hub, out: &mut String) -> Result<(), Fault> {
    say(
        out,
        "tells a change",
        carry_out(hub, registration(alloc, "1")?)?,
    )?;
    say(
        out,
        "tells none",
        carry_out(hub, Op::Renew(key(alloc, "1")?))?,
    )?;
    tell_known(alloc, hub, out)?;
    say(out, "overdue", is_overdue(alloc, hub)?)?;
    say(out, "renewed", write(hub, Op::Renew(key(alloc, "1")?), 2)?)?;
    tell_app(alloc, hub, out)
}

/// The instance goes.
fn tell_gone(alloc: Global, hub: &mut Hub, out: &mut String) -> Result<(), Fault> {
    say(out, "gone", write(hub, Op::Cancel(key(alloc, "1")?), 3)?)?;
    tell_drop(hub, out)?;
    tell_time(hub, out)
}

/// What a hub answers.
pub(crate) fn tell(alloc: Global, hub: &mut Hub, out: &mut String) -> Result<(), Fault> {
    tell_put(alloc, hub, out)?;
    tell_left(hub, out)?;
    tell_marked(hub, out)?;
    tell_ended(hub, out)?;
    tell_gone(alloc, hub, out)?;
    let again = write(hub, registration(alloc, "1")?, 2_000_000)?;
    say(out, "again", again)?;
    tell_all(hub, out)?;
    tell_named(alloc, hub, out)
}
