//! The records under a vip, and those under a secure vip.
ghost use Rattle.std.specs.Prelude.{◌≡◌, IfOk, IfErr, map};
ghost use Rattle.std.specs.List.{filter_map};
ghost use Rattle.std.specs.FinMap.{get};
ghost use Rattle.disco_values.specs.declared.fault.Fault.TheVariants.{OutOfMemory};
ghost use Rattle.disco_index.specs.Tally.{tally_of};
ghost use Rattle.disco_index.specs.Vips.{plain, secure, under};
ghost use Rattle.disco_wire.specs.Rows.{held_entries, rows_in};

use disco_history::Held;
use disco_index::{Counts, VipIndex};
use disco_registry::Registry;
use disco_values::{Fault, Key, Text};
use std::alloc::{AllocError, Global};

/// The records at these keys, shared.
fn held_at(alloc: Global, registry: &Registry, keys: &[&Key]) -> Result<Vec<Held>, AllocError>
    ensures { IfOk result (λ v. held_entries v.items ≡ filter_map (get registry.now.held) (map (λ k. k.now) keys.now)) }
{
    let mut list = Vec::new(alloc);
    for key in keys {
        if let Some(held) = registry.held(*key) {
            list.push(held.share()?)?;
        }
    }
    Ok(list)
}

/// The records of the keys under a vip, in their order, shared. Refused only as `OutOfMemory`.
pub(crate) fn held_under_vip(
    alloc: Global,
    registry: &Registry,
    vips: &VipIndex,
    vip: &Text,
) -> Result<Vec<Held>, Fault>
    ensures held { IfOk result (λ v. held_entries v.items ≡ filter_map (get registry.now.held) (under vips.now (plain vip.now))) }
    ensures memory { IfErr result (λ e. e ≡ OutOfMemory) }
{
    let keys = vips.under(alloc, vip.as_str())?;
    Ok(held_at(alloc, registry, keys.as_slice())?)
}

/// The records of the keys under a secure vip, in their order, shared. Refused only as `OutOfMemory`.
pub(crate) fn held_under_svip(
    alloc: Global,
    registry: &Registry,
    vips: &VipIndex,
    svip: &Text,
) -> Result<Vec<Held>, Fault>
    ensures held { IfOk result (λ v. held_entries v.items ≡ filter_map (get registry.now.held) (under vips.now (secure svip.now))) }
    ensures memory { IfErr result (λ e. e ≡ OutOfMemory) }
{
    let keys = vips.under_secure(alloc, svip.as_str())?;
    Ok(held_at(alloc, registry, keys.as_slice())?)
}

/// How many of these instances have each status.
pub(crate) fn count(held: &[Held]) -> Counts
    ensures { result ≡ tally_of (rows_in (held_entries held.now)) }
{
    // For the proof alone: their number fits a usize.
    let _len = held.len();
    let mut counts = Counts::new();
    for one in held {
        counts.add(one.rec.status);
    }
    counts
}
