//! A record from a JSON value.
ghost use Rattle.std.specs.Prelude.{◌≡◌, ◌<◌, ◌^◌, codes, IfOk};
ghost use Rattle.std.specs.Option.{option_copied};
ghost use Rattle.serde_json.specs.View.{view};
ghost use Rattle.disco_instance.specs.Instance.{Gives, action_at, key_at, lease_in, told_by};
ghost use Rattle.disco_instance.specs.Steps.{IsRecordKey, IsRecordLease, IsRestOf, SaysRest};
ghost use Rattle.disco_instance.specs.Members.{inner_at, number_at};
ghost use Rattle.disco_instance.specs.Row.{row};

use crate::lease::Lease;
use crate::members::{flag_member, number_member, port_member, text_member};
use crate::parts::{Rest, details_in};
use crate::record::Record;
use crate::shared_details::SharedDetails;
use disco_values::{Action, Fault, action_of};
use serde_json::Value;
use std::alloc::Global;

fn country_member(value: &Value) -> u32
    ensures value { result ≡ number_at (codes "countryId") 0 2147483647 1 (view value.now) }
    ensures in_range { result < 2 ^ 31 }
{
    number_member(value, "countryId", 0, 2147483647, 1) as u32
}

fn lease_member(value: &Value) -> Lease
    ensures value { result ≡ lease_in (inner_at (codes "leaseInfo") (view value.now)) }
    ensures in_range { IsRecordLease result }
{
    let nothing = Value::Null;
    match value.get("leaseInfo") {
        Some(inner) => lease_from_value(inner),
        None => lease_from_value(&nothing),
    }
}

fn lease_from_value(value: &Value) -> Lease
    ensures value { result ≡ lease_in (view value.now) }
    ensures in_range { IsRecordLease result }
{
    Lease {
        duration_secs: number_member(value, "durationInSecs", 1, 2147483647, 90) as u32,
        renewal_interval_secs: number_member(
            value,
            "renewalIntervalInSecs",
            0,
            2147483647,
            30,
        ) as u32,
        eviction: number_member(value, "evictionTimestamp", 0, u64::MAX, 0),
        last_renewal: number_member(value, "lastRenewalTimestamp", 0, u64::MAX, 0),
        registration: number_member(value, "registrationTimestamp", 0, u64::MAX, 0),
        service_up: number_member(value, "serviceUpTimestamp", 0, u64::MAX, 0),
    }
}

/// The action that an instance's value names, if any: the member `actionType`.
pub fn action_from_value(value: &Value) -> Option<Action>
    ensures { result ≡ action_at (view value.now) }
{
    action_of(text_member(value, "actionType")?)
}

/// The record that the value describes, with this rest and these details.
fn with_parts(value: &Value, rest: Rest, details: SharedDetails) -> Record
    requires key { IsRecordKey rest.key }
    requires rest { IsRestOf (view value.now) rest }
    ensures table { SaysRest (view value.now) result }
    ensures details { result.details ≡ details }
    ensures key { result.key ≡ rest.key }
{
    Record {
        key: rest.key,
        country_id: country_member(value),
        details,
        is_coordinating: flag_member(value, "isCoordinatingDiscoveryServer").unwrap_or(false),
        last_dirty: number_member(value, "lastDirtyTimestamp", 0, u64::MAX, 0),
        last_updated: number_member(value, "lastUpdatedTimestamp", 0, u64::MAX, 0),
        lease: lease_member(value),
        overridden_status: rest.overridden_status,
        port: port_member(value, "port", 7001, true),
        secure_port: port_member(value, "securePort", 7002, false),
        status: rest.status,
    }
}

/// The record that the value describes, with these details.
fn read_record(
    alloc: Global,
    value: &Value,
    within: Option<&str>,
    details: SharedDetails,
) -> Result<Record, Fault>
    ensures table { IfOk result (λ r. SaysRest (view value.now) r) }
    ensures details { IfOk result (λ r. r.details ≡ details) }
    ensures key { Gives (λ r. r.key) result (key_at (option_copied within.entry) (view value.now)) }
{
    let rest = Rest::read(alloc, value, within)?;
    Ok(with_parts(value, rest, details))
}

impl Record {
    /// The record that a JSON value describes, within an application of that name.
    ///
    /// # Errors
    ///
    /// `MissingField` for no id and else for no app, and `OutOfMemory`.
    pub fn from_value(alloc: Global, value: &Value, within: Option<&str>) -> Result<Record, Fault>
        ensures { Gives row result (told_by (option_copied within.entry) (view value.now)) }
    {
        let details = details_in(alloc, value)?;
        read_record(alloc, value, within, details)
    }
}
