//! The copy of a document in a round.
ghost use Rattle.std.specs.Prelude.{◌≡◌, IfErr, OnErr, OnOk};
ghost use Rattle.disco_values.specs.declared.fault.Fault.TheVariants.{OutOfMemory};
ghost use Rattle.disco_hub.specs.Press.{is_doc, put_copy};

use disco_cache::{Edition, Payload};
use disco_values::{DocKey, Fault};
use std::alloc::Global;
use std::sync::Arc;

/// The copy of a key: its document, or that there is none.
#[derive(Debug, Drop)]
pub enum Copied {
    /// The document.
    Doc(Arc<Payload, Global>),
    /// There is no document now: the edition will have none of this key.
    Drop(DocKey),
}

impl Copied {
    /// Whether there is a document.
    pub fn is_doc(&self) -> bool
        ensures { result ≡ is_doc self.now }
    {
        matches!(self, Copied::Doc(_))
    }

    /// Puts the document into an edition, shared; where there is none, removes that of the key.
    ///
    /// # Errors
    ///
    /// `OutOfMemory` alone. Then the edition is as before.
    pub fn put_into(&self, edition: &mut Edition) -> Result<(), Fault>
        ensures put { OnOk result (edition.new ≡ put_copy edition.old self.now) }
        ensures as_before { OnErr result (edition.new ≡ edition.old) }
        ensures memory { IfErr result (λ e. e ≡ OutOfMemory) }
    {
        match self {
            Copied::Doc(doc) => edition.put(Arc::try_clone(doc)?),
            Copied::Drop(key) => {
                edition.remove(key);
                Ok(())
            }
        }
    }
}
