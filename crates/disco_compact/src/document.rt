//! Documents in the compact form.
ghost use Rattle.std.specs.Prelude.{◌≡◌, length, IfErr, IfOk, List, false, option_map, true};
ghost use Rattle.disco_values.specs.declared.fault.Fault.TheVariants.{OutOfMemory};
ghost use Rattle.disco_values.specs.declared.form.Form.TheVariants.{Compact};
ghost use Rattle.disco_history.specs.Change.{Entry};
ghost use Rattle.disco_index.specs.Tally.{tally_in};
ghost use Rattle.disco_index.specs.Vips.{IsIndexOf};
ghost use Rattle.disco_queue.specs.Queue.{KeepsHistory};
ghost use Rattle.disco_queue.specs.Timed.{Timed, changes};
ghost use Rattle.disco_registry.specs.State.{StandsFor};
ghost use Rattle.disco_wire.specs.Documents.{IsWritten};
ghost use Rattle.disco_values.specs.Query.{is_delta};
ghost use Rattle.disco_writer.specs.Kept.{AreKept};

use disco_index::{Counts, VipIndex};
use disco_queue::ChangedQueue;
use disco_registry::Registry;
use disco_values::{Fault, Form, Query};
use disco_writer::{Texts, write_document};
use std::alloc::Global;

/// The document that a query asks for in the compact form, as [`write_document`] gives it.
///
/// # Errors
///
/// `OutOfMemory` alone.
pub fn write_compact(
    alloc: Global,
    query: &Query,
    registry: &Registry,
    vips: &VipIndex,
    queue: &ChangedQueue,
    counts: &Counts,
    texts: &Texts,
) -> Result<Option<Vec<u8>>, Fault>
    requires counts { counts.now ≡ tally_in registry.now.held }
    requires vips { IsIndexOf vips.now registry.now.held }
    requires kept { AreKept Compact texts.now registry.now.held }
    ensures written { IfOk result (λ o. is_delta query.now ≡ false
        → (h : List Entry) → StandsFor registry.now h → IsWritten Compact query.now h (length h) (option_map (λ v. v.items) o)) }
    ensures delta { IfOk result (λ o. is_delta query.now ≡ true
        → (h : List Timed) → StandsFor registry.now (changes h) → KeepsHistory queue.now h
        → IsWritten Compact query.now (changes h) queue.now.base (option_map (λ v. v.items) o)) }
    ensures memory { IfErr result (λ e. e ≡ OutOfMemory) }
{
    write_document(
        Vec::new(alloc),
        Form::Compact,
        query,
        registry,
        vips,
        queue,
        counts,
        texts,
    )
}
