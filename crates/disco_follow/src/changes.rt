//! What changed from one copy to the next.
ghost use Rattle.std.specs.Prelude.{◌≡◌, [], ◌∷◌, ◌++◌, List, IfOk, OnOk, map};
ghost use Rattle.std.specs.FinMap.{get, values};
ghost use Rattle.std.specs.List.{flat_map};
ghost use Rattle.disco_instance.specs.Row.{row};
ghost use Rattle.disco_history.specs.Held.{seen_record};
ghost use Rattle.disco_follow.specs.Changes.{AreChanges, AreToldOf, IsToldOf, gone_of};
ghost use Rattle.disco_follow.specs.Seen.{seen_change};
ghost use Rattle.disco_follow.specs.Changes as specs;

use crate::change::{Change, What};
use crate::equality::same_records;
use disco_client::Copy;
use disco_instance::Record;
use std::alloc::{AllocError, Global};

/// Notes what became of an instance behind other changes.
fn note<'a>(what: What, rec: &'a Record, changes: &mut Vec<Change<'a>>) -> Result<(), AllocError>
    ensures { OnOk result (map seen_change changes.new.items ≡ map seen_change changes.old.items ++ (what, row rec.now) ∷ []) }
{
    changes.push(Change { what, rec })?;
    Ok(())
}

/// What became of an instance by what was held of its key before.
fn note_held<'a>(
    before: Option<&Record>,
    rec: &'a Record,
    changes: &mut Vec<Change<'a>>,
) -> Result<(), AllocError>
    ensures { OnOk result ((one : List specs.InstanceChange) × IsToldOf (seen_record before.entry) (row rec.now) one
        × (map seen_change changes.new.items ≡ map seen_change changes.old.items ++ one)) }
{
    match before {
        None => note(What::Came, rec, changes),
        Some(old) if same_records(old, rec) => Ok(()),
        Some(_) => note(What::Changed, rec, changes),
    }
}

/// What became of an instance that was held before, by what is held of its key now.
fn note_gone<'a>(
    now: Option<&Record>,
    rec: &'a Record,
    changes: &mut Vec<Change<'a>>,
) -> Result<(), AllocError>
    ensures { OnOk result (map seen_change changes.new.items ≡ map seen_change changes.old.items ++ gone_of (seen_record now.entry) (row rec.now)) }
{
    match now {
        None => note(What::Went, rec, changes),
        Some(_) => Ok(()),
    }
}

/// What became of the instances that are held now.
fn note_all_held<'a>(
    before: &Copy,
    now: &'a Copy,
    changes: &mut Vec<Change<'a>>,
) -> Result<(), AllocError>
    ensures { OnOk result ((all : List specs.InstanceChange) × AreToldOf before.now (values now.now) all
        × (map seen_change changes.new.items ≡ map seen_change changes.old.items ++ all)) }
{
    for held in now.records() {
        note_held(before.get(&held.rec.key), &held.rec, changes)?;
    }
    Ok(())
}

/// What became of the instances that were held before.
fn note_all_gone<'a>(
    before: &'a Copy,
    now: &Copy,
    changes: &mut Vec<Change<'a>>,
) -> Result<(), AllocError>
    ensures { OnOk result (map seen_change changes.new.items
        ≡ map seen_change changes.old.items ++ flat_map (λ r. gone_of (get now.now r.key) r) (values before.now)) }
{
    for held in before.records() {
        note_gone(now.get(&held.rec.key), &held.rec, changes)?;
    }
    Ok(())
}

/// What changed from one copy to the next: the instances that came or changed, and then those that are
/// gone.
pub(crate) fn changes_of<'a>(
    alloc: Global,
    before: &'a Copy,
    now: &'a Copy,
) -> Result<Vec<Change<'a>>, AllocError>
    ensures { IfOk result (λ v. AreChanges before.now now.now (map seen_change v.items)) }
{
    let mut changes = Vec::new(alloc);
    note_all_held(before, now, &mut changes)?;
    note_all_gone(before, now, &mut changes)?;
    Ok(changes)
}
