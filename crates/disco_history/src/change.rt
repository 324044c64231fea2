//! Changes of a registry.
ghost use Rattle.std.specs.Prelude.{◌≡◌, ◌+◌, ◌<◌, None, IfOk, IfSome, MatchOption, drop, length, map, slice_get, option_map};
ghost use Rattle.disco_history.specs.Change.{is_proper, key_of, last, change_view};

use disco_instance::Record;
use disco_values::{Action, Key};
use std::alloc::{AllocError, Global};
use std::sync::Arc;

/// An accepted change of a registry.
#[derive(Debug, Drop)]
pub enum Change {
    /// The record was put, as `Added` or `Modified`.
    Put {
        action: Action,
        rec: Arc<Record, Global>,
    },
    /// The record was removed. This is its last state.
    Gone {
        rec: Arc<Record, Global>,
    },
}

impl Change {
    /// The key of its record.
    pub fn key(&self) -> &Key
        ensures { result.now ≡ key_of (change_view self.now) }
    {
        match self {
            Change::Put { action: _, rec } => &rec.key,
            Change::Gone { rec } => &rec.key,
        }
    }

    /// A copy of the change. It shares the record.
    ///
    /// # Errors
    ///
    /// `AllocError` where memory is refused.
    pub fn share(&self) -> Result<Change, AllocError>
        ensures same { IfOk result (λ c. change_view c ≡ change_view self.now) }
        ensures proper { IfOk result (λ c. is_proper c ≡ is_proper self.now) }
    {
        match self {
            Change::Put { action, rec } => Ok(Change::Put {
                action: *action,
                rec: Arc::try_clone(rec)?,
            }),
            Change::Gone { rec } => Ok(Change::Gone {
                rec: Arc::try_clone(rec)?,
            }),
        }
    }
}

/// The index of the last change of a key.
pub fn last_of(changes: &[Change], key: &Key) -> Option<usize>
    ensures found { MatchOption result
        (last (map change_view changes.now) key.now ≡ None)
        (λ i. (i < length changes.now) × (last (map change_view changes.now) key.now ≡ option_map change_view (slice_get changes.now i))) }
    ensures is_last { IfSome result (λ i. last (map change_view (drop (i + 1) changes.now)) key.now ≡ None) }
{
    let mut last = None;
    for (i, change) in changes.iter().enumerate() {
        if change.key() == key {
            last = Some(i);
        }
    }
    last
}
