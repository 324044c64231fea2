//! Rounds of a publisher, and looks of readers.
ghost use Rattle.std.specs.Prelude.{◌≡◌, IfErr, IfOk, None};
ghost use Rattle.disco_values.specs.declared.fault.Fault.TheVariants.{OutOfMemory};
ghost use Rattle.disco_hub.specs.State.{rules_of};
ghost use Rattle.disco_world.specs.Events.{begins, copies, publishes};
ghost use Rattle.disco_world.specs.Levels.{Looks, Turns, key_looked};

use crate::event::Reply;
use crate::levels::CacheLevels;
use crate::loads::query_asked;
use disco_cache::Edition;
use disco_values::{DocKey, Fault};
use std::alloc::Global;
use std::mem::replace;
use std::sync::Arc;

/// Begins a round.
pub(crate) fn begin(alloc: Global, levels: &mut CacheLevels) -> Reply
    ensures turns { Turns levels.old levels.new (λ _. begins) result }
    ensures rules { rules_of levels.new.hub ≡ rules_of levels.old.hub }
{
    match levels.hub.begin() {
        Ok(keys) => {
            levels.next = Edition::new(alloc);
            Reply::Begun(keys as u64)
        }
        Err(fault) => Reply::Refused(fault),
    }
}

/// Copies the next key of the round.
pub(crate) fn copy(alloc: Global, levels: &mut CacheLevels) -> Reply
    ensures turns { Turns levels.old levels.new (λ _. copies) result }
    ensures rules { rules_of levels.new.hub ≡ rules_of levels.old.hub }
{
    match levels.hub.copy_into(&mut levels.next, Vec::new(alloc)) {
        Ok(Some(copied)) => Reply::Copied(copied),
        Ok(None) => Reply::Done,
        Err(fault) => Reply::Refused(fault),
    }
}

/// Publishes the round: what it copied is what readers see.
pub(crate) fn publish(alloc: Global, levels: &mut CacheLevels) -> Reply
    ensures turns { Turns levels.old levels.new (λ _. publishes) result }
    ensures rules { rules_of levels.new.hub ≡ rules_of levels.old.hub }
{
    match levels.hub.finish() {
        Ok(_) => {
            levels.published = replace(&mut levels.next, Edition::new(alloc));
            Reply::Published(levels.published.len() as u64)
        }
        Err(fault) => Reply::Refused(fault),
    }
}

/// The key of a look, whose app may be in any case.
fn key_looked(alloc: Global, key: &DocKey) -> Result<DocKey, Fault>
    ensures key { IfOk result (λ k. k ≡ key_looked key.now) }
    ensures memory { IfErr result (λ e. e ≡ OutOfMemory) }
{
    Ok(DocKey {
        query: query_asked(alloc, &key.query)?,
        form: key.form,
    })
}

/// The document of a key, shared, if there is one.
fn find(published: &Edition, key: &DocKey) -> Reply
    ensures { Looks published.now key.now result }
{
    let Some(doc) = published.get(key) else {
        return Reply::Missed;
    };
    match Arc::try_clone(doc) {
        Ok(doc) => Reply::Doc(doc),
        Err(_) => Reply::Refused(Fault::OutOfMemory),
    }
}

/// Looks for a document, by a key whose app may be in any case.
pub(crate) fn look(alloc: Global, published: &Edition, key: &DocKey) -> Reply
    ensures { Looks published.now (key_looked key.now) result }
{
    match key_looked(alloc, key) {
        Ok(key) => find(published, &key),
        Err(fault) => Reply::Refused(fault),
    }
}
