//! A document of an edition.
ghost use Rattle.std.specs.Prelude.{◌≡◌, IfErr, IfOk};
ghost use Rattle.disco_values.specs.declared.fault.Fault.TheVariants.{OutOfMemory};

use crate::payload::Payload;
use disco_values::{DocKey, Fault};
use std::alloc::Global;
use std::sync::Arc;

/// A document, with a copy of its key: a search reads keys alone, and not the memory in which other
/// readers count their shares of documents.
#[derive(Drop)]
pub(crate) struct Entry {
    pub(crate) key: DocKey,
    pub(crate) doc: Arc<Payload, Global>,
    ghost own: { key ≡ doc.value.key },
}

impl Entry {
    /// A document, and a copy of its key. Refused only as `OutOfMemory`.
    pub(crate) fn of(doc: Arc<Payload, Global>) -> Result<Entry, Fault>
        ensures doc { IfOk result (λ e. e.doc ≡ doc) }
        ensures memory { IfErr result (λ e. e ≡ OutOfMemory) }
    {
        let key = doc.key.clone()?;
        Ok(Entry { key, doc })
    }
}
