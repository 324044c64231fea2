//! The output lines on a client's copy, each as a text or as a JSON object.
ghost use Rattle.std.specs.Prelude.{◌≡◌, Ok, IfOk, IfErr, OnOk, map};
ghost use Rattle.disco_values.specs.declared.fault.Fault.TheVariants.{OutOfMemory};
ghost use Rattle.disco_instance.specs.Row.{row};
ghost use Rattle.disco_follow.specs.Seen.{seen_change};
ghost use Rattle.disco_follow.specs.Telling.{copy_line, fault_line, up_line, vip_line};

use crate::change::Change;
use crate::objects::{copy_value, fault_value, line_of, vip_value};
use crate::texts::{write_copy, write_fault, write_vip};
use crate::wanted::Wanted;
use disco_client::Copy;
use disco_instance::Record;
use disco_values::{Bytes, Fault, Text};
use std::alloc::Global;
use std::io;

/// What is written to memory is refused only for want of it.
fn in_memory(written: io::Result<()>) -> Result<(), Fault>
    ensures ok { OnOk result (written ≡ Ok tt) }
    ensures memory { IfErr result (λ e. e ≡ OutOfMemory) }
{
    match written {
        Ok(()) => Ok(()),
        Err(_) => Err(Fault::OutOfMemory),
    }
}

/// The line of a copy that is a version of a run. Refused only as `OutOfMemory`.
pub(crate) fn copy_line(
    alloc: Global,
    json: bool,
    at: (u64, u64),
    changes: &[Change<'_>],
) -> Result<Vec<u8>, Fault>
    ensures line { IfOk result (λ v. v.items ≡ copy_line json at.0 at.1 (map seen_change changes.now)) }
    ensures memory { IfErr result (λ e. e ≡ OutOfMemory) }
{
    if json {
        let value = copy_value(alloc, at, changes)?;
        return Ok(line_of(alloc, &value)?);
    }
    let mut line = Vec::new(alloc);
    in_memory(write_copy(at, changes, &mut line))?;
    Ok(line)
}

/// The line of a vip under which these instances are UP. Refused only as `OutOfMemory`.
fn vip_line(alloc: Global, json: bool, vip: &Text, up: &[&Record]) -> Result<Vec<u8>, Fault>
    ensures line { IfOk result (λ v. v.items ≡ vip_line json vip.now (map (λ r. row r.now) up.now)) }
    ensures memory { IfErr result (λ e. e ≡ OutOfMemory) }
{
    if json {
        let value = vip_value(alloc, vip, up)?;
        return Ok(line_of(alloc, &value)?);
    }
    let mut line = Vec::new(alloc);
    in_memory(write_vip(vip, up, &mut line))?;
    Ok(line)
}

/// The line of a refusal. Refused only as `OutOfMemory`.
pub(crate) fn fault_line(alloc: Global, json: bool, fault: &Fault) -> Result<Vec<u8>, Fault>
    ensures line { IfOk result (λ v. v.items ≡ fault_line json fault.now) }
    ensures memory { IfErr result (λ e. e ≡ OutOfMemory) }
{
    if json {
        let value = fault_value(alloc, fault)?;
        return Ok(line_of(alloc, &value)?);
    }
    let mut line = Vec::new(alloc);
    in_memory(write_fault(fault, &mut line))?;
    Ok(line)
}

/// The line of the vip, if one is asked for. Refused only as `OutOfMemory`.
pub(crate) fn up_of(alloc: Global, wanted: &Wanted, copy: &Copy) -> Result<Bytes, Fault>
    ensures line { IfOk result (λ b. b ≡ up_line wanted.now copy.now) }
    ensures memory { IfErr result (λ e. e ≡ OutOfMemory) }
{
    let Some(vip) = &wanted.vip else {
        return Ok(Bytes::from_vec(Vec::new(alloc)));
    };
    let up = copy.up(alloc, vip.as_str())?;
    let line = vip_line(alloc, wanted.json, vip, up.as_slice())?;
    Ok(Bytes::from_vec(line))
}
