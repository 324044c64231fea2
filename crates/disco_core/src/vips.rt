//! How the index of vips follows a change.
ghost use Rattle.std.specs.Prelude.{◌≡◌, IfErr, IsTrue, OnOk, Some, option_map};
ghost use Rattle.std.specs.FinMap.{get};
ghost use Rattle.disco_values.specs.declared.fault.Fault.TheVariants.{OutOfMemory};
ghost use Rattle.disco_instance.specs.Row.{row};
ghost use Rattle.disco_history.specs.Change.{key_of, change_view};
ghost use Rattle.disco_history.specs.Held.{entry_of};
ghost use Rattle.disco_history.specs.Registry.{put_of};
ghost use Rattle.disco_index.specs.Vips.{IsIndexOf, IsSameVips, KeepsVipPlaces, RemovesAny};
ghost use Rattle.disco_registry.specs.Commit.{held_after};
ghost use Rattle.disco_core.specs.Moves.{HasVipsOf, OthersStay, VipsStay};
ghost use Rattle.disco_core.specs.State.{AddsAny, HasVipPlaces, IsSwept};

use disco_history::{Change, Held};
use disco_index::VipIndex;
use disco_instance::Record;
use disco_registry::Registry;
use disco_values::{Action, Fault};

/// Makes the places that a change needs. Where the held record has the same vips, they are there
/// without a search. Refused only as `OutOfMemory`.
pub(crate) fn open(vips: &mut VipIndex, registry: &Registry, change: &Change) -> Result<(), Fault>
    requires { IsIndexOf vips.old registry.now.held }
    ensures same { IsSameVips vips.old vips.new }
    ensures others { OthersStay (put_of (change_view change.now)) vips.old vips.new }
    ensures places { OnOk result (HasVipPlaces vips.new (put_of (change_view change.now))) }
    ensures memory { IfErr result (λ e. e ≡ OutOfMemory) }
{
    if stay(registry.held(change.key()), change) {
        return Ok(());
    }
    match change {
        Change::Put {
            action: Action::Added | Action::Modified,
            rec,
        } => vips.ready(rec),
        _ => Ok(()),
    }
}

/// Gives back the empty places of what a change puts.
pub(crate) fn close(vips: &mut VipIndex, change: &Change)
    ensures same { IsSameVips vips.old vips.new }
    ensures others { OthersStay (put_of (change_view change.now)) vips.old vips.new }
    ensures swept { IsSwept vips.new (put_of (change_view change.now)) }
{
    match change {
        Change::Put {
            action: Action::Added | Action::Modified,
            rec,
        } => vips.sweep(rec),
        _ => {}
    }
}

/// Removes the instance of a held record from its vips.
fn take(vips: &mut VipIndex, held: Option<&Held>)
    ensures vips { RemovesAny (option_map (λ h. entry_of h.now) held.entry) vips.old vips.new }
    ensures places { KeepsVipPlaces vips.old vips.new }
{
    if let Some(held) = held {
        vips.take(&held.rec);
    }
}

/// Adds the instance under the vips of the record that a change puts.
fn add(vips: &mut VipIndex, change: &Change)
    requires { HasVipPlaces vips.old (put_of (change_view change.now)) }
    ensures { AddsAny (put_of (change_view change.now)) vips.old vips.new }
{
    match change {
        Change::Put { action, rec } => match action {
            Action::Added => vips.add(rec),
            Action::Modified => vips.add(rec),
            Action::Deleted => {}
        },
        Change::Gone { rec: _ } => {}
    }
}

/// Gives back the empty places of a held record.
fn sweep(vips: &mut VipIndex, held: Option<&Held>)
    ensures same { IsSameVips vips.old vips.new }
    ensures swept { IsSwept vips.new (option_map (λ h. entry_of h.now) held.entry) }
{
    if let Some(held) = held {
        vips.sweep(&held.rec);
    }
}

/// Whether two records have the same vips and the same secure vips.
fn same_vips(held: &Record, rec: &Record) -> bool
    ensures { IsTrue result → HasVipsOf (row held.now) (row rec.now) }
{
    held.details.vip_address == rec.details.vip_address
        && held.details.secure_vip_address == rec.details.secure_vip_address
}

/// Whether a change puts a record with the vips of the held one.
fn stay(held: Option<&Held>, change: &Change) -> bool
    ensures { IsTrue result → VipsStay (option_map (λ h. entry_of h.now) held.entry) (put_of (change_view change.now)) }
{
    match (held, change) {
        (
            Some(held),
            Change::Put {
                action: Action::Added | Action::Modified,
                rec,
            },
        ) => same_vips(&held.rec, rec),
        _ => false,
    }
}

/// Does to the vips what a change is about to do to the registry, and gives back the places that it
/// leaves empty.
pub(crate) fn follow(vips: &mut VipIndex, registry: &Registry, change: &Change)
    requires places { HasVipPlaces vips.old (put_of (change_view change.now)) }
    requires index { IsIndexOf vips.old registry.now.held }
    ensures index { IsIndexOf vips.new (held_after registry.now.held (Some (change_view change.now))) }
    ensures swept { IsSwept vips.new (get registry.now.held (key_of (change_view change.now))) }
{
    let held = registry.held(change.key());
    if stay(held, change) {
        return;
    }
    take(vips, held);
    add(vips, change);
    sweep(vips, held);
}
