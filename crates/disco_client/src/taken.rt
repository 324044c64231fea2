//! The records that a copy takes from the mentions of a document.
ghost use Rattle.std.specs.Prelude.{◌≡◌, IfOk, map, option_map};
ghost use Rattle.disco_instance.specs.Row.{row};
ghost use Rattle.disco_values.specs.declared.action.Action.TheVariants.{Added};
ghost use Rattle.disco_history.specs.Held.{entry_of};
ghost use Rattle.disco_history.specs.Mentions.{known};
ghost use Rattle.disco_wire.specs.Wire.{tell_all};

use disco_history::Held;
use disco_instance::Record;
use disco_values::Action;
use disco_wire::{Mention, Mentions};
use std::alloc::{AllocError, Global};
use std::sync::Arc;

/// The record, which is moved to where it can be shared.
fn held(alloc: Global, rec: Record, action: Action) -> Result<Held, AllocError>
    ensures { IfOk result (λ h. entry_of h ≡ (row rec, action)) }
{
    Ok(Held {
        rec: Arc::new(alloc, rec)?,
        action,
    })
}

/// The records of all mentions, as if each was added.
pub(crate) fn all(alloc: Global, mentions: Mentions) -> Result<Vec<Held>, AllocError>
    ensures { IfOk result (λ v. map entry_of v.items ≡ map (λ m. (m.0, Added)) (tell_all mentions)) }
{
    let mut taken = Vec::new(alloc);
    for mention in mentions.into_vec() {
        taken.push(held(alloc, mention.rec, Action::Added)?)?;
    }
    Ok(taken)
}

/// The record of a mention that says what was done.
fn known_one(alloc: Global, mention: Mention) -> Result<Option<Held>, AllocError>
    ensures { IfOk result (λ o. option_map entry_of o ≡ option_map (λ a. (row mention.rec, a)) mention.action) }
{
    match mention.action {
        Some(action) => Ok(Some(held(alloc, mention.rec, action)?)),
        None => Ok(None),
    }
}

/// The records of the mentions that say what was done.
pub(crate) fn known(alloc: Global, mentions: Mentions) -> Result<Vec<Held>, AllocError>
    ensures { IfOk result (λ v. map entry_of v.items ≡ known (tell_all mentions)) }
{
    let mut taken = Vec::new(alloc);
    for mention in mentions.into_vec() {
        if let Some(held) = known_one(alloc, mention)? {
            taken.push(held)?;
        }
    }
    Ok(taken)
}
