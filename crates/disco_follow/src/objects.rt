//! The output lines on a client's copy, as JSON objects.
ghost use Rattle.std.specs.Prelude.{◌≡◌, ◌++◌, IfOk, OnOk, false, map};
ghost use Rattle.serde_json.specs.Data.{array};
ghost use Rattle.serde_json.specs.View.{items_of, view};
ghost use Rattle.serde_json.specs.Written.{has_float};
ghost use Rattle.disco_instance.specs.Row.{row};
ghost use Rattle.disco_follow.specs.Objects.{change_data, copy_data, fault_data, gone_data, held_data, object_line, reached_data, vip_data};
ghost use Rattle.disco_follow.specs.Seen.{seen_change};

use crate::change::{Change, What};
use disco_instance::Record;
use disco_values::{Fault, Key, Text};
use serde_json::{Value, json};
use std::alloc::{AllocError, Global};

/// An instance that came or changed.
fn held_value(alloc: Global, change: &str, key: &Key, status: &str) -> Result<Value, AllocError>
    ensures { IfOk result (λ v. view v ≡ held_data change.now key.now status.now) }
{
    let (app, id) = (key.app.as_str(), key.id.as_str());
    json!(in alloc; {"app": app, "change": change, "id": id, "status": status})
}

fn gone_value(alloc: Global, key: &Key) -> Result<Value, AllocError>
    ensures { IfOk result (λ v. view v ≡ gone_data key.now) }
{
    let (app, id) = (key.app.as_str(), key.id.as_str());
    json!(in alloc; {"app": app, "change": "went", "id": id})
}

/// What became of an instance.
fn change_value(alloc: Global, what: What, rec: &Record) -> Result<Value, AllocError>
    ensures { IfOk result (λ v. view v ≡ change_data what (row rec.now)) }
{
    let status = rec.status.name();
    match what {
        What::Came => held_value(alloc, "came", &rec.key, status),
        What::Changed => held_value(alloc, "changed", &rec.key, status),
        What::Went => gone_value(alloc, &rec.key),
    }
}

/// What became of these instances.
fn changes_value(alloc: Global, changes: &[Change<'_>]) -> Result<Value, AllocError>
    ensures { IfOk result (λ v. view v ≡ array (items_of (map (λ c. change_data c.0 c.1) (map seen_change changes.now)))) }
{
    let mut values = Vec::new(alloc);
    for change in changes {
        values.push(change_value(alloc, change.what, change.rec)?)?;
    }
    Ok(Value::Array(values))
}

/// A copy.
pub(crate) fn copy_value(
    alloc: Global,
    at: (u64, u64),
    changes: &[Change<'_>],
) -> Result<Value, AllocError>
    ensures { IfOk result (λ v. view v ≡ copy_data at.0 at.1 (map seen_change changes.now)) }
{
    let (run, version) = at;
    let changes = changes_value(alloc, changes)?;
    json!(in alloc; {"changes": changes, "run": run, "version": version})
}

/// Where an instance is reached.
fn reached_value(alloc: Global, rec: &Record) -> Result<Value, AllocError>
    ensures { IfOk result (λ v. view v ≡ reached_data (row rec.now)) }
{
    let (host, port) = (rec.details.host_name.as_str(), rec.port.number);
    json!(in alloc; {"host": host, "port": port})
}

/// Where these instances are reached.
fn all_reached_value(alloc: Global, recs: &[&Record]) -> Result<Value, AllocError>
    ensures { IfOk result (λ v. view v ≡ array (items_of (map reached_data (map (λ r. row r.now) recs.now)))) }
{
    let mut values = Vec::new(alloc);
    for rec in recs {
        values.push(reached_value(alloc, rec)?)?;
    }
    Ok(Value::Array(values))
}

/// A vip under which these instances are UP.
pub(crate) fn vip_value(alloc: Global, vip: &Text, up: &[&Record]) -> Result<Value, AllocError>
    ensures { IfOk result (λ v. view v ≡ vip_data vip.now (map (λ r. row r.now) up.now)) }
{
    let up = all_reached_value(alloc, up)?;
    let vip = vip.as_str();
    json!(in alloc; {"up": up, "vip": vip})
}

/// A refusal.
pub(crate) fn fault_value(alloc: Global, fault: &Fault) -> Result<Value, AllocError>
    ensures { IfOk result (λ v. view v ≡ fault_data fault.now) }
{
    let number = fault.number();
    json!(in alloc; {"fault": number})
}

/// The line of a value that has no float.
#[tactic(auto, unfolding(crate::specs::Objects::object_line))]
pub(crate) fn line_of(alloc: Global, value: &Value) -> Result<Vec<u8>, AllocError>
    requires { has_float (view value.now) ≡ false }
    ensures { IfOk result (λ line. line.items ≡ object_line (view value.now)) }
{
    let mut line = value.to_string(alloc)?;
    line.push('\n')?;
    Ok(line.into_bytes())
}
