//! What holds of every record.
ghost use Rattle.std.specs.Prelude.{◌<◌, ◌^◌};
ghost use Rattle.disco_instance.specs.Row.{IsWellFormed, row};

use crate::record::Record;

fn is_moment(moment: u64)
    ensures { moment < 2 ^ 64 }
{
    // For the proof alone: a moment fits a u64.
    let _ = moment;
}

fn is_port(number: u16)
    ensures { number < 2 ^ 16 }
{
    // For the proof alone: a number of a port fits a u16.
    let _ = number;
}

/// Its contract says what holds of every record. Does nothing.
pub fn well_formed(rec: &Record)
    ensures { IsWellFormed (row rec.now) }
{
    // For the proof alone: what holds of each part.
    rec.details.metadata.ordered();
    is_moment(rec.last_dirty);
    is_moment(rec.last_updated);
    is_moment(rec.lease.eviction);
    is_moment(rec.lease.last_renewal);
    is_moment(rec.lease.registration);
    is_moment(rec.lease.service_up);
    is_port(rec.port.number);
    is_port(rec.secure_port.number);
}
