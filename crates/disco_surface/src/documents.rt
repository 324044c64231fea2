//! Documents that are written, and kept.
ghost use Rattle.std.specs.Prelude.{◌≡◌, []};
ghost use Rattle.disco_index.specs.Tally.{tally_of};
ghost use Rattle.disco_index.specs.Vips.{no_vips};
ghost use Rattle.disco_registry.specs.State.{StandsFor};
ghost use Rattle.disco_writer.specs.Kept.{none_kept};

use crate::given::{apps, key, record, say, say_text};
use disco_cache::{DocCache, DocKey, Payload};
use disco_compact::{project, text_compact, write_compact};
use disco_index::{Counts, VipIndex};
use disco_instance::{Action, Bytes, Fault, Form, Key, Record, Text};
use disco_press::Edition;
use disco_queue::ChangedQueue;
use disco_registry::Registry;
use disco_wire::Mention;
use disco_writer::{Query, Texts, text_full, write_full};
use std::alloc::Global;
use std::sync::Arc;

fn tell_text(text: &[u8], out: &mut String) -> Result<(), Fault> {
    match std::str::from_utf8(text) {
        Ok(text) => say_text(out, "document", text),
        Err(_) => Err(Fault::BadDocument),
    }
}

/// A document, where there is one.
fn tell_written(written: Option<Vec<u8>>, out: &mut String) -> Result<(), Fault> {
    match written {
        Some(text) => tell_text(text.as_slice(), out),
        None => Ok(()),
    }
}

/// The document of all apps of an empty registry, in both forms.
fn tell_apps(
    alloc: Global,
    registry: &Registry,
    vips: &VipIndex,
    queue: &ChangedQueue,
    counts: &Counts,
    texts: &Texts,
    out: &mut String,
) -> Result<(), Fault>
    requires registry { StandsFor registry.now [] }
    requires vips { vips.now ≡ no_vips }
    requires counts { counts.now ≡ tally_of [] }
    requires texts { texts.now ≡ none_kept }
{
    let query = Query::Apps;
    let full = write_full(alloc, &query, registry, vips, queue, counts, texts)?;
    tell_written(full, out)?;
    let compact = write_compact(alloc, &query, registry, vips, queue, counts, texts)?;
    tell_written(compact, out)
}

fn tell_empty(alloc: Global, out: &mut String) -> Result<(), Fault> {
    let registry = Registry::new(alloc, 10, 10);
    let (vips, queue) = (VipIndex::new(alloc), ChangedQueue::new(alloc, 10));
    let (counts, texts) = (Counts::new(), Texts::new(alloc));
    tell_apps(alloc, &registry, &vips, &queue, &counts, &texts, out)
}

/// The mention of a record that was put.
fn mention(rec: Record) -> Mention {
    Mention {
        rec,
        action: Some(Action::Added),
    }
}

/// How many bytes the texts of an instance have in both forms.
fn tell_sizes(alloc: Global, mention: &Mention, out: &mut String) -> Result<(), Fault> {
    say(out, "full", text_full(alloc, mention)?.len() as u64)?;
    say(out, "compact", text_compact(alloc, mention)?.len() as u64)
}

/// The same of the projection of an instance.
fn tell_projected(alloc: Global, rec: &Record, out: &mut String) -> Result<(), Fault> {
    let projected = mention(project(alloc, rec)?);
    tell_sizes(alloc, &projected, out)
}

/// The same of an instance and of its projection.
fn tell_both(alloc: Global, put: &Mention, out: &mut String) -> Result<(), Fault> {
    tell_sizes(alloc, put, out)?;
    tell_projected(alloc, &put.rec, out)
}

fn tell_forms(alloc: Global, out: &mut String) -> Result<(), Fault> {
    let put = mention(record(alloc, "1")?);
    tell_both(alloc, &put, out)
}

/// A text that is kept by its key.
fn tell_texts_of(
    alloc: Global,
    key: &Key,
    texts: &mut Texts,
    out: &mut String,
) -> Result<(), Fault> {
    texts.ready(key, b"{}".to_vec(alloc)?)?;
    texts.put();
    say(out, "text kept", texts.get(key).is_some() as u64)?;
    texts.take(key);
    say(out, "then", texts.get(key).is_some() as u64)
}

fn tell_texts(alloc: Global, out: &mut String) -> Result<(), Fault> {
    let key = key(alloc, "1")?;
    let mut texts = Texts::new(alloc);
    tell_texts_of(alloc, &key, &mut texts, out)
}

fn vip(alloc: Global, name: &str) -> Result<DocKey, Fault> {
    Ok(DocKey {
        query: Query::Vip(Text::new(alloc, name)?),
        form: Form::Full,
    })
}

fn document(alloc: Global, key: DocKey) -> Result<Arc<Payload, Global>, Fault> {
    let payload = Payload {
        key,
        run: 0,
        base: 1,
        version: 1,
        text: Bytes::from_vec(Vec::new(alloc)),
    };
    Ok(Arc::new(alloc, payload)?)
}

/// Keeps the document of a vip, where there is room.
fn keep(alloc: Global, cache: &mut DocCache, name: &str) -> Result<u64, Fault> {
    Ok(cache.put(document(alloc, vip(alloc, name)?)?)? as u64)
}

/// Whether the document of a vip is kept.
fn has(alloc: Global, cache: &mut DocCache, name: &str) -> Result<u64, Fault> {
    let key = vip(alloc, name)?;
    Ok(cache.get(&key).is_some() as u64)
}

/// Drops the documents that a change of instance 1 names.
fn invalidate(alloc: Global, cache: &mut DocCache) -> Result<(), Fault> {
    let rec = record(alloc, "1")?;
    cache.invalidate(None, Some(&rec));
    Ok(())
}

/// How many keys there are, and whether the least comes first.
fn tell_keys(alloc: Global, cache: &DocCache, out: &mut String) -> Result<(), Fault> {
    let keys = cache.keys(alloc)?;
    let least = keys.first().is_some_and(|key| is_vip(key, "a"));
    say(out, "keys", keys.len() as u64)?;
    say(out, "least first", least as u64)
}

/// Whether a key is that of a vip's document.
fn is_vip(key: &DocKey, name: &str) -> bool {
    match &key.query {
        Query::Vip(vip) => vip.as_str() == name,
        _ => false,
    }
}

/// Documents are kept by key, two of them where there is room for two, until a change names them.
fn tell_kept(alloc: Global, cache: &mut DocCache, out: &mut String) -> Result<(), Fault> {
    say(out, "kept", keep(alloc, cache, "c")?)?;
    say(out, "kept", keep(alloc, cache, "a")?)?;
    say(out, "kept", keep(alloc, cache, "d")?)?;
    tell_keys(alloc, cache, out)?;
    invalidate(alloc, cache)?;
    say(out, "named", has(alloc, cache, "a")?)?;
    say(out, "other", has(alloc, cache, "c")?)
}

fn put(alloc: Global, edition: &mut Edition) -> Result<u64, Fault> {
    edition.put(document(alloc, apps())?)?;
    Ok(edition.len() as u64)
}

/// Documents by key, of which one is taken out again.
fn tell_edition(alloc: Global, edition: &mut Edition, out: &mut String) -> Result<(), Fault> {
    say(out, "in the edition", put(alloc, edition)?)?;
    edition.remove(&apps());
    let there = edition.get(&apps()).is_some();
    say(out, "then", there as u64)
}

fn tell_cache(alloc: Global, out: &mut String) -> Result<(), Fault> {
    let mut cache = DocCache::new(alloc, 2);
    tell_kept(alloc, &mut cache, out)
}

fn tell_editions(alloc: Global, out: &mut String) -> Result<(), Fault> {
    let mut edition = Edition::new(alloc);
    tell_edition(alloc, &mut edition, out)
}

/// What is written and kept.
pub(crate) fn tell(alloc: Global, out: &mut String) -> Result<(), Fault> {
    tell_empty(alloc, out)?;
    tell_forms(alloc, out)?;
    tell_texts(alloc, out)?;
    tell_cache(alloc, out)?;
    tell_editions(alloc, out)
}
