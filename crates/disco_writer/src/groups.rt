//! The members of an instance's text in groups: those that stand next to each other in both forms,
//! and those of the full form alone.
ghost use Rattle.std.specs.Prelude.{None, OnOk};
ghost use Rattle.disco_instance.specs.Row.{row};
ghost use Rattle.disco_writer.specs.Groups.{AppendsUtf8, done_text, group_part};
ghost use Rattle.disco_writer.specs.declared.groups.Group.TheVariants.{Center, Hosts, Moments, Names, State, Terms, Urls};

use crate::members::{
    push, push_entries, push_quoted, put_action, put_digits, put_number, put_status, put_text,
    put_truth,
};
use crate::text_buffer::TextBuffer;
use disco_instance::{Details, Record};
use disco_values::Action;
use std::alloc::AllocError;

/// Members that stand next to each other, in the order of the text.
#[derive(Clone, Copy)]
pub(crate) enum Group {
    /// The action, if one is named, and the app.
    Names,
    /// Of the full form alone.
    Country,
    Center,
    /// Of the full form alone.
    Urls,
    Hosts,
    /// Of the full form alone.
    Coordination,
    Moments,
    /// The lease and the metadata, of the full form alone.
    Terms,
    State,
    /// Of the full form alone.
    StatusPage,
    Vip,
}

/// Puts the action, if one is named, up to the name of the app.
fn put_done(out: &mut TextBuffer, action: Option<Action>) -> Result<(), AllocError>
    ensures { OnOk result (AppendsUtf8 out.old out.new (done_text action)) }
{
    match action {
        Some(action) => {
            put_action(out, "{\"actionType\":", action)?;
            push(out, ",\"app\":")
        }
        None => push(out, "{\"app\":"),
    }
}

fn put_names(out: &mut TextBuffer, rec: &Record, action: Option<Action>) -> Result<(), AllocError>
    ensures { OnOk result (AppendsUtf8 out.old out.new (group_part Names (row rec.now) action)) }
{
    put_done(out, action)?;
    push_quoted(out, rec.key.app.as_str())
}

fn put_center(out: &mut TextBuffer, rec: &Record) -> Result<(), AllocError>
    ensures { OnOk result (AppendsUtf8 out.old out.new (group_part Center (row rec.now) None)) }
{
    let center = &rec.details.data_center;
    put_text(out, ",\"dataCenterInfo\":{\"@class\":", &center.class)?;
    put_text(out, ",\"name\":", &center.name)?;
    push(out, "}")
}

fn put_urls(out: &mut TextBuffer, rec: &Record) -> Result<(), AllocError>
    ensures { OnOk result (AppendsUtf8 out.old out.new (group_part Urls (row rec.now) None)) }
{
    let details: &Details = &rec.details;
    put_text(out, ",\"healthCheckUrl\":", &details.health_check_url)?;
    put_text(out, ",\"homePageUrl\":", &details.home_page_url)
}

fn put_hosts(out: &mut TextBuffer, rec: &Record) -> Result<(), AllocError>
    ensures { OnOk result (AppendsUtf8 out.old out.new (group_part Hosts (row rec.now) None)) }
{
    let details: &Details = &rec.details;
    put_text(out, ",\"hostName\":", &details.host_name)?;
    put_text(out, ",\"instanceId\":", &rec.key.id)?;
    put_text(out, ",\"ipAddr\":", &details.ip_addr)
}

fn put_moments(out: &mut TextBuffer, rec: &Record) -> Result<(), AllocError>
    ensures { OnOk result (AppendsUtf8 out.old out.new (group_part Moments (row rec.now) None)) }
{
    put_digits(out, ",\"lastDirtyTimestamp\":", rec.last_dirty)?;
    put_digits(out, ",\"lastUpdatedTimestamp\":", rec.last_updated)
}

fn put_terms(out: &mut TextBuffer, rec: &Record) -> Result<(), AllocError>
    ensures { OnOk result (AppendsUtf8 out.old out.new (group_part Terms (row rec.now) None)) }
{
    let lease = rec.lease;
    put_number(
        out,
        ",\"leaseInfo\":{\"durationInSecs\":",
        lease.duration_secs,
    )?;
    put_number(out, ",\"evictionTimestamp\":", lease.eviction)?;
    put_number(out, ",\"lastRenewalTimestamp\":", lease.last_renewal)?;
    put_number(out, ",\"registrationTimestamp\":", lease.registration)?;
    put_number(
        out,
        ",\"renewalIntervalInSecs\":",
        lease.renewal_interval_secs,
    )?;
    put_number(out, ",\"serviceUpTimestamp\":", lease.service_up)?;
    push(out, "},\"metadata\":{")?;
    push_entries(out, &rec.details.metadata)
}

fn put_state(out: &mut TextBuffer, rec: &Record) -> Result<(), AllocError>
    ensures { OnOk result (AppendsUtf8 out.old out.new (group_part State (row rec.now) None)) }
{
    put_status(out, ",\"overriddenStatus\":", rec.overridden_status)?;
    put_number(out, ",\"port\":{\"$\":", rec.port.number)?;
    put_truth(out, ",\"@enabled\":", rec.port.enabled)?;
    put_number(out, "},\"securePort\":{\"$\":", rec.secure_port.number)?;
    put_truth(out, ",\"@enabled\":", rec.secure_port.enabled)?;
    put_text(
        out,
        "},\"secureVipAddress\":",
        &rec.details.secure_vip_address,
    )?;
    put_status(out, ",\"status\":", rec.status)
}

/// Puts a group, behind a brace or a comma.
pub(crate) fn put_group(
    out: &mut TextBuffer,
    group: Group,
    rec: &Record,
    action: Option<Action>,
) -> Result<(), AllocError>
    ensures { OnOk result (AppendsUtf8 out.old out.new (group_part group (row rec.now) action)) }
{
    match group {
        Group::Names => put_names(out, rec, action),
        Group::Country => put_number(out, ",\"countryId\":", rec.country_id),
        Group::Center => put_center(out, rec),
        Group::Urls => put_urls(out, rec),
        Group::Hosts => put_hosts(out, rec),
        Group::Coordination => put_truth(
            out,
            ",\"isCoordinatingDiscoveryServer\":",
            rec.is_coordinating,
        ),
        Group::Moments => put_moments(out, rec),
        Group::Terms => put_terms(out, rec),
        Group::State => put_state(out, rec),
        Group::StatusPage => put_text(out, ",\"statusPageUrl\":", &rec.details.status_page_url),
        Group::Vip => put_text(out, ",\"vipAddress\":", &rec.details.vip_address),
    }
}
