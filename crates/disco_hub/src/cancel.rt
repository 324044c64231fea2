//! Cancels instances one by one.
ghost use Rattle.std.specs.Prelude.{IfErr, OnErr, OnOk};
ghost use Rattle.disco_core.specs.Past.{Past};
ghost use Rattle.disco_hub.specs.Expiry.{Expires, cancelled};
ghost use Rattle.disco_hub.specs.State.{HubState, rules_of};
ghost use Rattle.disco_hub.specs.Cancelling.{Cancels, CancelsNone, NotesAsBefore, NotesOneMore};
ghost use Rattle.disco_hub.specs.Transitions.{KeepsRest};

use crate::expiry::Expired;
use crate::hub::Hub;
use disco_registry::Op;
use disco_values::{Fault, Key};

/// A hub, or what notes the changes of a hub, which cancels one instance at a time.
pub trait Cancel {
    // Its hub.
    ghost hub: { Self → HubState };

    // What is noted of cancels that led from the first state to the second one, and from what had
    // happened to what has happened then.
    ghost noted: { Self → Self → (Past → Past) → Type 0 };

    /// Cancels one instance at a moment in milliseconds.
    ///
    /// # Errors
    ///
    /// The fault of the registry, or `OutOfMemory`.
    fn cancel(&mut self, key: &Key, now: u64) -> Result<(), Fault>
        ensures done { OnOk result (Cancels (hub self.old) (hub self.new) now key.now) }
        ensures noted { OnOk result (NotesOneMore hub noted now key.now self.old self.new) }
        ensures refused { IfErr result (CancelsNone (hub self.old) (hub self.new) now key.now) }
        ensures not_noted { OnErr result (NotesAsBefore noted self.old self.new) }
        ensures rest { KeepsRest (hub self.old) (hub self.new) };
}

impl Cancel for Hub {
    ghost use Rattle.std.specs.Prelude.{⊤};

    ghost hub = { λ h. h };

    ghost noted = { λ _ _ _. ⊤ };

    fn cancel(&mut self, key: &Key, now: u64) -> Result<(), Fault> {
        let key = key.clone()?;
        self.write(Op::Cancel(key), now)?;
        Ok(())
    }
}

/// Cancels these instances one by one at a moment in milliseconds, up to the first cancel that is
/// refused.
pub fn cancel_all<C: Cancel>(from: &mut C, keys: &[Key], now: u64) -> Expired
    requires none_yet { C.noted from.old from.old (λ p. cancelled (rules_of (C.hub from.old)) p now keys.now 0) }
    ensures history { Expires (C.hub from.old) (C.hub from.new) now (λ _. keys.now) result.gone result.stopped }
    ensures noted { C.noted from.old from.new (λ p. cancelled (rules_of (C.hub from.old)) p now keys.now result.gone) }
    ensures rest { KeepsRest (C.hub from.old) (C.hub from.new) }
{
    let mut gone = 0;
    for key in keys {
        if let Err(fault) = from.cancel(key, now) {
            return Expired {
                gone,
                stopped: Some(fault),
            };
        }
        gone += 1;
    }
    Expired {
        gone,
        stopped: None,
    }
}
