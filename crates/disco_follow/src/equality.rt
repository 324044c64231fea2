//! Whether records are the same, member by member.
ghost use Rattle.std.specs.Prelude.{◌≡◌, ◌↔◌, IsTrue, map};
ghost use Rattle.disco_instance.specs.Row.{row};

use disco_history::Held;
use disco_instance::{DataCenter, Details, Lease, Port, Record};
use disco_values::{Entries, Key, Text};

fn same_texts(one: &Text, other: &Text) -> bool
    ensures { IsTrue result ↔ (one.now ≡ other.now) }
{
    one == other
}

fn same_keys(one: &Key, other: &Key) -> bool
    ensures { IsTrue result ↔ (one.now ≡ other.now) }
{
    same_texts(&one.app, &other.app) && same_texts(&one.id, &other.id)
}

fn same_data_centers(one: &DataCenter, other: &DataCenter) -> bool
    ensures { IsTrue result ↔ (one.now ≡ other.now) }
{
    same_texts(&one.class, &other.class) && same_texts(&one.name, &other.name)
}

fn same_ports(one: Port, other: Port) -> bool
    ensures { IsTrue result ↔ (one ≡ other) }
{
    one.number == other.number && one.enabled == other.enabled
}

fn same_spans(one: Lease, other: Lease) -> bool
    ensures { IsTrue result ↔ ((one.duration_secs ≡ other.duration_secs) × (one.renewal_interval_secs ≡ other.renewal_interval_secs)) }
{
    one.duration_secs == other.duration_secs
        && one.renewal_interval_secs == other.renewal_interval_secs
}

fn same_moments(one: Lease, other: Lease) -> bool
    ensures { IsTrue result ↔ ((one.eviction ≡ other.eviction) × (one.last_renewal ≡ other.last_renewal) × (one.registration ≡ other.registration)
        × (one.service_up ≡ other.service_up)) }
{
    one.eviction == other.eviction
        && one.last_renewal == other.last_renewal
        && one.registration == other.registration
        && one.service_up == other.service_up
}

fn same_leases(one: Lease, other: Lease) -> bool
    ensures { IsTrue result ↔ (one ≡ other) }
{
    same_spans(one, other) && same_moments(one, other)
}

fn same_pairs(ones: &[(Text, Text)], others: &[(Text, Text)]) -> bool
    ensures { IsTrue result ↔ (ones.now ≡ others.now) }
{
    if ones.len() != others.len() {
        return false;
    }
    for (i, (name, value)) in ones.iter().enumerate() {
        let (other_name, other_value) = &others[i];
        if !same_texts(name, other_name) || !same_texts(value, other_value) {
            return false;
        }
    }
    true
}

fn same_entries(ones: &Entries, others: &Entries) -> bool
    ensures { IsTrue result ↔ (ones.now ≡ others.now) }
{
    same_pairs(ones.as_slice(), others.as_slice())
}

fn same_pages(one: &Details, other: &Details) -> bool
    ensures { IsTrue result ↔ ((one.now.health_check_url ≡ other.now.health_check_url) × (one.now.home_page_url ≡ other.now.home_page_url)
        × (one.now.status_page_url ≡ other.now.status_page_url)) }
{
    same_texts(&one.health_check_url, &other.health_check_url)
        && same_texts(&one.home_page_url, &other.home_page_url)
        && same_texts(&one.status_page_url, &other.status_page_url)
}

fn same_addresses(one: &Details, other: &Details) -> bool
    ensures { IsTrue result ↔ ((one.now.host_name ≡ other.now.host_name) × (one.now.ip_addr ≡ other.now.ip_addr)
        × (one.now.vip_address ≡ other.now.vip_address) × (one.now.secure_vip_address ≡ other.now.secure_vip_address)) }
{
    same_texts(&one.host_name, &other.host_name)
        && same_texts(&one.ip_addr, &other.ip_addr)
        && same_texts(&one.vip_address, &other.vip_address)
        && same_texts(&one.secure_vip_address, &other.secure_vip_address)
}

fn same_details(one: &Details, other: &Details) -> bool
    ensures { IsTrue result ↔ (one.now ≡ other.now) }
{
    same_data_centers(&one.data_center, &other.data_center)
        && same_pages(one, other)
        && same_addresses(one, other)
        && same_entries(&one.metadata, &other.metadata)
}

fn same_numbers(one: &Record, other: &Record) -> bool
    ensures { IsTrue result ↔ ((one.now.country_id ≡ other.now.country_id) × (one.now.is_coordinating ≡ other.now.is_coordinating)
        × (one.now.last_dirty ≡ other.now.last_dirty) × (one.now.last_updated ≡ other.now.last_updated)) }
{
    one.country_id == other.country_id
        && one.is_coordinating == other.is_coordinating
        && one.last_dirty == other.last_dirty
        && one.last_updated == other.last_updated
}

fn same_statuses(one: &Record, other: &Record) -> bool
    ensures { IsTrue result ↔ ((one.now.status ≡ other.now.status) × (one.now.overridden_status ≡ other.now.overridden_status)) }
{
    one.status == other.status && one.overridden_status == other.overridden_status
}

fn same_places(one: &Record, other: &Record) -> bool
    ensures { IsTrue result ↔ ((one.now.key ≡ other.now.key) × (one.now.port ≡ other.now.port) × (one.now.secure_port ≡ other.now.secure_port)) }
{
    same_keys(&one.key, &other.key)
        && same_ports(one.port, other.port)
        && same_ports(one.secure_port, other.secure_port)
}

pub(crate) fn same_records(one: &Record, other: &Record) -> bool
    ensures { IsTrue result ↔ (row one.now ≡ row other.now) }
{
    same_places(one, other)
        && same_details(&one.details, &other.details)
        && same_numbers(one, other)
        && same_statuses(one, other)
        && same_leases(one.lease, other.lease)
}

/// Whether the records are the same, in the same order.
pub fn are_same(ones: &[Held], others: &[Held]) -> bool
    ensures { IsTrue result ↔ (map (λ h. row h.rec.value) ones.now ≡ map (λ h. row h.rec.value) others.now) }
{
    if ones.len() != others.len() {
        return false;
    }
    for (i, one) in ones.iter().enumerate() {
        if !same_records(&one.rec, &others[i].rec) {
            return false;
        }
    }
    true
}
