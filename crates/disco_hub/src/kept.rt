//! Which documents are kept, and which a change drops.
ghost use Rattle.std.specs.Prelude.{◌≡◌, Bool, None, true};
ghost use Rattle.std.specs.FinMap.{get};
ghost use Rattle.disco_instance.specs.Row.{row};
ghost use Rattle.disco_history.specs.Change.{change_view};
ghost use Rattle.disco_history.specs.Held.{record_at};
ghost use Rattle.disco_values.specs.Query.{is_delta};
ghost use Rattle.disco_hub.specs.Kept.{Forgets, KeepsAtMost};
ghost use Rattle.disco_hub.specs.State.{is_cached};

use disco_cache::{DocCache, Payload};
use disco_core::{Core, Ready};
use disco_history::Change;
use disco_instance::Record;
use disco_values::Query;
use std::alloc::Global;
use std::sync::Arc;

/// The record of a change: the one that it puts, or the last one of what is gone.
fn record(change: &Change) -> &Record
    ensures { row result.now ≡ (change_view change.now).0 }
{
    match change {
        Change::Put { action: _, rec } => rec,
        Change::Gone { rec } => rec,
    }
}

/// Drops the documents that a ready change names, if there is one. Takes no memory.
pub(crate) fn forget(cache: &mut DocCache, core: &Core, ready: &Ready)
    ensures { Forgets (record_at core.now.registry.held) ready.now.change cache.old cache.new }
{
    if let Some(change) = ready.to_come() {
        cache.invalidate(core.held(change.key()), Some(record(change)));
    }
}

/// Whether documents of a query are kept, where deltas are served.
fn keeps(query: &Query) -> bool
    ensures { result ≡ is_cached true query.now }
{
    !matches!(query, Query::Instance(_))
}

/// Keeps a document of which none is kept, where there is memory and room for it. A delta is one that
/// is served.
pub(crate) fn keep(cache: &mut DocCache, doc: &Arc<Payload, Global>)
    requires { get cache.old.docs doc.now.value.key ≡ None }
    ensures kept { (on : Bool) → (is_delta doc.now.value.key.query ≡ true → on ≡ true) → KeepsAtMost on doc.now.value cache.old cache.new }
{
    if !keeps(&doc.key.query) {
        return;
    }
    if let Ok(shared) = Arc::try_clone(doc) {
        let _ = cache.put(shared);
    }
}
