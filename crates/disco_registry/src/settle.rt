//! The record that a registration puts, by the posted and the held record.
ghost use Rattle.std.specs.Prelude.{◌≡◌, if◌then◌else◌, IfOk, IfErr};
ghost use Rattle.std.specs.Option.{option_map_or};
ghost use Rattle.disco_instance.specs.Row.{row};
ghost use Rattle.disco_values.specs.declared.fault.Fault.TheVariants.{OutOfMemory};
ghost use Rattle.disco_history.specs.Held.{seen_record};
ghost use Rattle.disco_registry.specs.Settle.{is_open, known_or, override_of, registrant, settle, settled_status};

use disco_instance::Record;
use disco_values::{Fault, Status};

/// The posted record, or the held one where that was changed later. A held record is copied, since
/// others share it.
fn registrant_of(held: Option<&Record>, posted: Record) -> Result<Record, Fault>
    ensures record_is { IfOk result (λ r. row r ≡ registrant (seen_record held.entry) (row posted)) }
    ensures memory { IfErr result (λ e. e ≡ OutOfMemory) }
{
    match held {
        Some(held) if posted.last_dirty < held.last_dirty => held.copy(),
        _ => Ok(posted),
    }
}

fn known_or_else(status: Status, other: Status) -> Status
    ensures { result ≡ known_or status other }
{
    match status {
        Status::Unknown => other,
        known => known,
    }
}

fn is_open_status(status: Status) -> bool
    ensures { result ≡ is_open status }
{
    matches!(status, Status::Up | Status::OutOfService)
}

fn overridden_as(held: Option<&Record>, own: Status) -> Status
    ensures { result ≡ override_of (seen_record held.entry) own }
{
    match held {
        Some(held) => known_or_else(held.overridden_status, own),
        None => own,
    }
}

fn held_status_or(held: Option<&Record>, own: Status) -> Status
    ensures { result ≡ option_map_or (λ h. if is_open h.status then h.status else own) (seen_record held.entry) own }
{
    match held {
        Some(held) if is_open_status(held.status) => held.status,
        _ => own,
    }
}

fn status_as(held: Option<&Record>, overridden: Status, own: Status) -> Status
    ensures { result ≡ settled_status (seen_record held.entry) overridden own }
{
    if is_open_status(own) {
        known_or_else(overridden, held_status_or(held, own))
    } else {
        own
    }
}

fn up_since(held: Option<&Record>) -> u64
    ensures { result ≡ option_map_or (λ h. h.lease.service_up) (seen_record held.entry) 0 }
{
    match held {
        Some(held) => held.lease.service_up,
        None => 0,
    }
}

/// The record that a registration at a moment puts.
pub(crate) fn settled(held: Option<&Record>, posted: Record, now: u64) -> Result<Record, Fault>
    ensures record_is { IfOk result (λ r. row r ≡ settle (seen_record held.entry) (row posted) now) }
    ensures memory { IfErr result (λ e. e ≡ OutOfMemory) }
{
    let registrant = registrant_of(held, posted)?;
    let overridden = overridden_as(held, registrant.overridden_status);
    let status = status_as(held, overridden, registrant.status);
    Ok(registrant.registered(status, overridden, up_since(held), now))
}
