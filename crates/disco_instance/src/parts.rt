//! Reads the parts of a record from a JSON value.
ghost use Rattle.std.specs.Prelude.{◌≡◌, codes, IfOk};
ghost use Rattle.std.specs.Option.{option_copied};
ghost use Rattle.serde_json.specs.View.{view};
ghost use Rattle.disco_values.specs.declared.status.Status.TheVariants.{Up};
ghost use Rattle.disco_instance.specs.Instance.{Gives, key_at};
ghost use Rattle.disco_instance.specs.Members.{override_at, status_at, text_or_empty};
ghost use Rattle.disco_instance.specs.Steps.{HasPagesAndAddresses, SaysDetails};

use crate::data_center::DataCenter;
use crate::details::Details;
use crate::members::{status_member, text_member, text_or_empty};
use crate::metadata::entries_member;
use crate::names::{data_center_member, key_from_value};
use crate::shared_details::SharedDetails;
use disco_values::{Entries, Fault, Key, Status, Text};
use serde_json::Value;
use std::alloc::{AllocError, Global};

/// The pages of an instance.
#[derive(Drop)]
pub(crate) struct Pages {
    pub(crate) health_check_url: Text,
    pub(crate) home_page_url: Text,
    pub(crate) status_page_url: Text,
}

impl Pages {
    pub(crate) fn read(alloc: Global, value: &Value) -> Result<Pages, AllocError>
        ensures health { IfOk result (λ p. p.health_check_url ≡ text_or_empty (codes "healthCheckUrl") (view value.now)) }
        ensures home { IfOk result (λ p. p.home_page_url ≡ text_or_empty (codes "homePageUrl") (view value.now)) }
        ensures status { IfOk result (λ p. p.status_page_url ≡ text_or_empty (codes "statusPageUrl") (view value.now)) }
    {
        Ok(Pages {
            health_check_url: text_or_empty(alloc, value, "healthCheckUrl")?,
            home_page_url: text_or_empty(alloc, value, "homePageUrl")?,
            status_page_url: text_or_empty(alloc, value, "statusPageUrl")?,
        })
    }
}

/// The addresses of an instance: host name, IP address and vips.
#[derive(Drop)]
pub(crate) struct Addresses {
    pub(crate) host_name: Text,
    pub(crate) ip_addr: Text,
    pub(crate) secure_vip_address: Text,
    pub(crate) vip_address: Text,
}

impl Addresses {
    pub(crate) fn read(alloc: Global, value: &Value) -> Result<Addresses, AllocError>
        ensures host { IfOk result (λ a. a.host_name ≡ text_or_empty (codes "hostName") (view value.now)) }
        ensures ip { IfOk result (λ a. a.ip_addr ≡ text_or_empty (codes "ipAddr") (view value.now)) }
        ensures secure_vip { IfOk result (λ a. a.secure_vip_address ≡ text_or_empty (codes "secureVipAddress") (view value.now)) }
        ensures vip { IfOk result (λ a. a.vip_address ≡ text_or_empty (codes "vipAddress") (view value.now)) }
    {
        Ok(Addresses {
            host_name: text_or_empty(alloc, value, "hostName")?,
            ip_addr: text_or_empty(alloc, value, "ipAddr")?,
            secure_vip_address: text_or_empty(alloc, value, "secureVipAddress")?,
            vip_address: text_or_empty(alloc, value, "vipAddress")?,
        })
    }
}

/// The details with these parts.
fn joined(pages: Pages, addresses: Addresses, data_center: DataCenter, metadata: Entries) -> Details
    ensures texts { HasPagesAndAddresses pages addresses result }
    ensures data_center { result.data_center ≡ data_center }
    ensures metadata { result.metadata ≡ metadata }
{
    Details {
        data_center,
        health_check_url: pages.health_check_url,
        home_page_url: pages.home_page_url,
        status_page_url: pages.status_page_url,
        host_name: addresses.host_name,
        ip_addr: addresses.ip_addr,
        metadata,
        secure_vip_address: addresses.secure_vip_address,
        vip_address: addresses.vip_address,
    }
}

/// The details that the value of an instance describes.
pub(crate) fn details_in(alloc: Global, value: &Value) -> Result<SharedDetails, AllocError>
    ensures { IfOk result (λ d. SaysDetails (view value.now) d) }
{
    let pages = Pages::read(alloc, value)?;
    let addresses = Addresses::read(alloc, value)?;
    let data_center = data_center_member(alloc, value)?;
    let metadata = entries_member(alloc, value, "metadata")?;
    let details = joined(pages, addresses, data_center, metadata);
    SharedDetails::new(alloc, details)
}

/// The rest of a record beside its details: its key and its statuses.
#[derive(Drop)]
pub(crate) struct Rest {
    pub(crate) key: Key,
    pub(crate) overridden_status: Status,
    pub(crate) status: Status,
}

/// The override, under either of its two names.
fn override_member(alloc: Global, value: &Value) -> Result<Status, AllocError>
    ensures { IfOk result (λ s. s ≡ override_at (view value.now)) }
{
    if text_member(value, "overriddenStatus").is_some() {
        status_member(alloc, value, "overriddenStatus", Status::Unknown)
    } else {
        status_member(alloc, value, "overriddenstatus", Status::Unknown)
    }
}

impl Rest {
    /// The rest that the value of an instance describes, within an application of that name. Refused as
    /// `MissingField` for no id and else for no app, and as `OutOfMemory`.
    pub(crate) fn read(alloc: Global, value: &Value, within: Option<&str>) -> Result<Rest, Fault>
        ensures key { Gives (λ r. r.key) result (key_at (option_copied within.entry) (view value.now)) }
        ensures overridden_status { IfOk result (λ r. r.overridden_status ≡ override_at (view value.now)) }
        ensures status { IfOk result (λ r. r.status ≡ status_at (codes "status") Up (view value.now)) }
    {
        let overridden_status = override_member(alloc, value)?;
        let status = status_member(alloc, value, "status", Status::Up)?;
        Ok(Rest {
            key: key_from_value(alloc, value, within)?,
            overridden_status,
            status,
        })
    }
}
