//! Reads registrations.
ghost use Rattle.std.specs.Prelude.{◌≡◌, Err, None, codes, is_some};
ghost use Rattle.std.specs.Option.{option_map_or};
ghost use Rattle.serde_json.specs.View.{view};
ghost use Rattle.disco_values.specs.declared.fault.Fault.TheVariants.{MissingField};
ghost use Rattle.disco_instance.specs.Instance.{Gives, told_by};
ghost use Rattle.disco_instance.specs.Members.{inner_at, non_empty_at};
ghost use Rattle.disco_instance.specs.Row.{row};
ghost use Rattle.disco_wire.specs.Registration.{missing_in, registration_in, registration_of};

use crate::tree::{object_member, tree_of};
use disco_instance::{Record, non_empty_member};
use disco_values::{Fault, Field};
use serde_json::Value;
use std::alloc::Global;

/// The record of a registration, the body of Eureka's `POST /apps/{app}`.
///
/// # Errors
///
/// `BadJson` where the bytes are no JSON object with an object `instance`, `MissingField` for the
/// first of `instanceId`, `hostName`, `ipAddr`, `app` and the `name` of `dataCenterInfo` that is
/// absent or empty, and `OutOfMemory`.
pub fn read_registration(alloc: Global, bytes: &[u8]) -> Result<Record, Fault>
    ensures { Gives row result (registration_of bytes.now) }
{
    let tree = tree_of(alloc, bytes)?;
    registration_from_tree(alloc, &tree)
}

fn registration_from_tree(alloc: Global, tree: &Value) -> Result<Record, Fault>
    ensures { Gives row result (registration_in (view tree.now)) }
{
    match object_member(tree, "instance") {
        Some(instance) => registered(alloc, instance),
        None => Err(Fault::BadJson),
    }
}

fn registered(alloc: Global, instance: &Value) -> Result<Record, Fault>
    ensures { Gives row result (option_map_or (λ field. Err (MissingField field)) (missing_in (view instance.now)) (told_by None (view instance.now))) }
{
    match missing_member(instance) {
        Some(field) => Err(Fault::MissingField(field)),
        None => Record::from_value(alloc, instance, None),
    }
}

/// The first required member that is absent or empty.
fn missing_member(instance: &Value) -> Option<Field>
    ensures { result ≡ missing_in (view instance.now) }
{
    let has_host = non_empty_member(instance, "hostName").is_some();
    if !has_host && non_empty_member(instance, "instanceId").is_none() {
        Some(Field::InstanceId)
    } else if !has_host {
        Some(Field::HostName)
    } else if non_empty_member(instance, "ipAddr").is_none() {
        Some(Field::IpAddr)
    } else if non_empty_member(instance, "app").is_none() {
        Some(Field::App)
    } else if !has_data_center(instance) {
        Some(Field::DataCenterInfo)
    } else {
        None
    }
}

fn has_data_center(instance: &Value) -> bool
    ensures { result ≡ is_some (non_empty_at (codes "name") (inner_at (codes "dataCenterInfo") (view instance.now))) }
{
    match instance.get("dataCenterInfo") {
        Some(inner) => non_empty_member(inner, "name").is_some(),
        None => false,
    }
}
