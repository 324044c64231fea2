//! How the queue of recent changes follows a change.
ghost use Rattle.std.specs.Prelude.{◌≡◌, ◌<◌, ◌-◌, ◌^◌, IfOk, IfSome, option_map, true};
ghost use Rattle.disco_history.specs.Change.{is_proper, change_view};
ghost use Rattle.disco_queue.specs.Queue.{AddsNoneEmpty, version};
ghost use Rattle.disco_registry.specs.Commit.{version_after};
ghost use Rattle.disco_core.specs.Past.{Past, with_change};
ghost use Rattle.disco_core.specs.State.{HasRoomFor, Remembers};

use disco_history::Change;
use disco_queue::ChangedQueue;
use std::alloc::AllocError;

/// A copy of the change, if there is one. It shares the record.
pub(crate) fn shared(change: Option<&Change>) -> Result<Option<Change>, AllocError>
    requires { IfSome change (λ c. is_proper c.now ≡ true) }
    ensures same { IfOk result (λ o. option_map change_view o ≡ option_map (λ c. change_view c.now) change.entry) }
    ensures proper { IfOk result (λ o. IfSome o (λ c. is_proper c ≡ true)) }
{
    match change {
        Some(change) => Ok(Some(change.share()?)),
        None => Ok(None),
    }
}

/// Adds a change to the queue, if there is one. Takes no memory.
pub(crate) fn remember(queue: &mut ChangedQueue, change: Option<Change>, now: u64)
    requires room { HasRoomFor queue.old (option_map change_view change) }
    requires version { version_after (version queue.old) (option_map change_view change) < 2 ^ 64 }
    requires proper { IfSome change (λ c. is_proper c ≡ true) }
    ensures past { (p : Past) → Remembers queue.old p → Remembers queue.new (with_change queue.old.max p now (option_map change_view change)) }
    ensures version { version queue.new ≡ version_after (version queue.old) (option_map change_view change) }
    ensures max { queue.new.max ≡ queue.old.max }
    ensures empty { AddsNoneEmpty queue.old queue.new }
{
    if let Some(change) = change {
        queue.push(change, now);
    }
}
