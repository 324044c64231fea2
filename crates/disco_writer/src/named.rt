//! The instance whose text is put next.
ghost use Rattle.std.specs.Prelude.{◌≡◌};
ghost use Rattle.disco_writer.specs.Named.{named_key};

use disco_instance::Record;
use disco_values::Key;
use std::alloc::Global;
use std::sync::Arc;

/// An instance, named by a key of its own or by a record that is shared.
#[derive(Drop)]
pub(crate) enum Named {
    ByKey(Key),
    ByRecord(Arc<Record, Global>),
}

impl Named {
    /// The instance's key.
    pub(crate) fn key(&self) -> &Key
        ensures { result.now ≡ named_key self.now }
    {
        match self {
            Named::ByKey(key) => key,
            Named::ByRecord(rec) => &rec.key,
        }
    }
}
