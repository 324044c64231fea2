//! The operations that events ask for. What an event names is copied.
ghost use Rattle.std.specs.Prelude.{◌≡◌, IfErr, IfOk, Ok};
ghost use Rattle.disco_instance.specs.Instance.{Gives};
ghost use Rattle.disco_values.specs.declared.fault.Fault.TheVariants.{OutOfMemory};
ghost use Rattle.disco_registry.specs.Op as asking;
ghost use Rattle.disco_registry.specs.Op.{op_view};
ghost use Rattle.disco_operations.specs.Operations.{key_named};

use disco_operations as operations;
use disco_registry::Op;
use disco_values::{Entries, Fault, Key, Text};
use std::alloc::Global;

/// The key that an event names.
pub(crate) fn copied_key(alloc: Global, app: &Text, id: &Text) -> Result<Key, Fault>
    ensures { Gives (λ k. k) result (Ok (key_named app.now id.now)) }
{
    operations::key_named(alloc, app.clone()?, id.clone()?)
}

pub(crate) fn cancel(alloc: Global, app: &Text, id: &Text) -> Result<Op, Fault>
    ensures { Gives op_view result (Ok (asking.cancel (key_named app.now id.now))) }
{
    operations::cancel(alloc, app.clone()?, id.clone()?)
}

pub(crate) fn set_status(alloc: Global, app: &Text, id: &Text, status: &Text) -> Result<Op, Fault>
    ensures { Gives op_view result (Ok (asking.set_status (key_named app.now id.now) status.now)) }
{
    operations::set_status(alloc, app.clone()?, id.clone()?, status.clone()?)
}

pub(crate) fn drop_status(
    alloc: Global,
    app: &Text,
    id: &Text,
    status: &Option<Text>,
) -> Result<Op, Fault>
    ensures { Gives op_view result (Ok (asking.drop_status (key_named app.now id.now) status.now)) }
{
    operations::drop_status(alloc, app.clone()?, id.clone()?, status.clone()?)
}

pub(crate) fn add_metadata(
    alloc: Global,
    app: &Text,
    id: &Text,
    entries: &Entries,
) -> Result<Op, Fault>
    ensures { Gives op_view result (Ok (asking.add_metadata (key_named app.now id.now) entries.now)) }
{
    operations::add_metadata(alloc, app.clone()?, id.clone()?, entries.copy()?)
}
