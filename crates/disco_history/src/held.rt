//! A held record.
ghost use Rattle.std.specs.Prelude.{◌≡◌, IfOk};
ghost use Rattle.disco_history.specs.Change.{change_view};
ghost use Rattle.disco_history.specs.Held.{entry_of};

use crate::change::Change;
use disco_instance::Record;
use disco_values::Action;
use std::alloc::{AllocError, Global};
use std::sync::Arc;

/// A record of the registry, and what its last change did.
#[derive(Debug, Drop)]
pub struct Held {
    pub rec: Arc<Record, Global>,
    pub action: Action,
}

impl Held {
    /// The record and the action of a change. It shares the record.
    ///
    /// # Errors
    ///
    /// `AllocError` where memory is refused.
    pub fn of(change: &Change) -> Result<Held, AllocError>
        ensures { IfOk result (λ h. entry_of h ≡ change_view change.now) }
    {
        match change {
            Change::Put { action, rec } => Ok(Held {
                rec: Arc::try_clone(rec)?,
                action: *action,
            }),
            Change::Gone { rec } => Ok(Held {
                rec: Arc::try_clone(rec)?,
                action: Action::Deleted,
            }),
        }
    }

    /// A copy. It shares the record.
    ///
    /// # Errors
    ///
    /// `AllocError` where memory is refused.
    pub fn share(&self) -> Result<Held, AllocError>
        ensures { IfOk result (λ h. entry_of h ≡ entry_of self.now) }
    {
        Ok(Held {
            rec: Arc::try_clone(&self.rec)?,
            action: self.action,
        })
    }
}
