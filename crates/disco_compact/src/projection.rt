//! The compact form of a record.
ghost use Rattle.std.specs.Prelude.{◌≡◌, [], IfErr, IfOk};
ghost use Rattle.disco_instance.specs.Row.{row};
ghost use Rattle.disco_values.specs.declared.fault.Fault.TheVariants.{OutOfMemory};
ghost use Rattle.disco_values.specs.declared.form.Form.TheVariants.{Compact};
ghost use Rattle.disco_history.specs.Forms.{default_lease, formed};

use disco_instance::{DataCenter, Details, Lease, Record, SharedDetails};
use disco_values::{Entries, Fault, Text};
use std::alloc::{AllocError, Global};

/// The lease of an instance that says nothing of it.
fn default_lease() -> Lease
    ensures { result ≡ default_lease }
{
    Lease {
        duration_secs: 90,
        renewal_interval_secs: 30,
        eviction: 0,
        last_renewal: 0,
        registration: 0,
        service_up: 0,
    }
}

/// The details of a compact form: what it keeps, and no pages and no metadata.
fn details_of(
    alloc: Global,
    data_center: &DataCenter,
    host: &Text,
    ip: &Text,
    secure_vip: &Text,
    vip: &Text,
) -> Result<Details, AllocError>
    ensures { IfOk result (λ d. d ≡ record {
      data_center = data_center.now;
      health_check_url = [];
      home_page_url = [];
      status_page_url = [];
      host_name = host.now;
      ip_addr = ip.now;
      metadata = [];
      secure_vip_address = secure_vip.now;
      vip_address = vip.now;
    }) }
{
    Ok(Details {
        data_center: data_center.clone()?,
        health_check_url: Text::empty(alloc),
        home_page_url: Text::empty(alloc),
        status_page_url: Text::empty(alloc),
        host_name: host.clone()?,
        ip_addr: ip.clone()?,
        metadata: Entries::new(alloc),
        secure_vip_address: secure_vip.clone()?,
        vip_address: vip.clone()?,
    })
}

/// The details as a reader of the compact form of a record has them.
fn projected(alloc: Global, details: &Details) -> Result<SharedDetails, AllocError>
    ensures { IfOk result (λ d. d ≡ record details.now { health_check_url = []; home_page_url = []; status_page_url = []; metadata = [] }) }
{
    let kept = details_of(
        alloc,
        &details.data_center,
        &details.host_name,
        &details.ip_addr,
        &details.secure_vip_address,
        &details.vip_address,
    )?;
    SharedDetails::new(alloc, kept)
}

/// The record as a reader of its compact form has it: what the form leaves out has its default.
///
/// # Errors
///
/// `OutOfMemory` alone.
pub fn project(alloc: Global, rec: &Record) -> Result<Record, Fault>
    ensures record_is { IfOk result (λ r. row r ≡ formed Compact (row rec.now)) }
    ensures memory { IfErr result (λ e. e ≡ OutOfMemory) }
{
    let key = rec.key.clone()?;
    let details = projected(alloc, &rec.details)?;
    Ok(Record {
        key,
        country_id: 1,
        details,
        is_coordinating: false,
        last_dirty: rec.last_dirty,
        last_updated: rec.last_updated,
        lease: default_lease(),
        overridden_status: rec.overridden_status,
        port: rec.port,
        secure_port: rec.secure_port,
        status: rec.status,
    })
}
