//! Reads the key and the data centre of an instance from its members.
ghost use Rattle.std.specs.Prelude.{◌≡◌, IfOk, option_map};
ghost use Rattle.std.specs.Option.{option_copied};
ghost use Rattle.serde_json.specs.View.{view};
ghost use Rattle.disco_instance.specs.Instance.{Gives, data_center_at, id_at, key_at};

use crate::data_center::DataCenter;
use crate::members::{non_empty_member, text_member};
use disco_values::{Fault, Field, Key, Text, upper_text};
use serde_json::Value;
use std::alloc::{AllocError, Global};

/// The id, or the name of the host where there is no id.
fn id_member(value: &Value) -> Option<&str>
    ensures { option_map (λ s. s.now) result ≡ id_at (view value.now) }
{
    match non_empty_member(value, "instanceId") {
        Some(id) => Some(id),
        None => non_empty_member(value, "hostName"),
    }
}

pub(crate) fn key_from_value(
    alloc: Global,
    value: &Value,
    within: Option<&str>,
) -> Result<Key, Fault>
    ensures { Gives (λ k. k) result (key_at (option_copied within.entry) (view value.now)) }
{
    let Some(id) = id_member(value) else {
        return Err(Fault::MissingField(Field::InstanceId));
    };
    let app = match non_empty_member(value, "app") {
        Some(app) => app,
        None => match within {
            Some(name) if !name.is_empty() => name,
            _ => return Err(Fault::MissingField(Field::App)),
        },
    };
    Ok(Key {
        app: upper_text(alloc, app)?,
        id: Text::new(alloc, id)?,
    })
}

pub(crate) fn data_center_member(alloc: Global, value: &Value) -> Result<DataCenter, AllocError>
    ensures { IfOk result (λ c. c ≡ data_center_at (view value.now)) }
{
    let (class, name) = match value.get("dataCenterInfo") {
        Some(inner) => (text_member(inner, "@class"), text_member(inner, "name")),
        None => (None, None),
    };
    Ok(DataCenter {
        class: Text::new(
            alloc,
            class.unwrap_or("com.netflix.appinfo.InstanceInfo$DefaultDataCenterInfo"),
        )?,
        name: Text::new(alloc, name.unwrap_or("MyOwn"))?,
    })
}
