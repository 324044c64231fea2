//! Opening a desk with its seats.
ghost use Rattle.std.specs.Prelude.{◌≡◌, ◌<◌, ◌+◌, ◌≤◌, [], IfErr, IfOk, All, vec_len};
ghost use Rattle.disco_values.specs.declared.fault.Fault.TheVariants.{OutOfMemory};
ghost use Rattle.disco_hub.specs.State.{IsEmptyHub};
ghost use Rattle.disco_press.specs.Seats.{IsNew};
ghost use Rattle.disco_press.specs.Openings.{Opens};

use crate::desk::Desk;
use crate::heard::Heard;
use crate::log::PublicationLog;
use crate::opening::Opening;
use crate::published_log::Naming;
use crate::seat::Seat;
use crate::snapshot_writer::SnapshotWriter;
use disco_values::{Fault, Settings};
use std::alloc::{AllocError, Global};
use std::sync::Wait;
use std::sync::ledger::Share;

fn seat_of<J: Naming>(
    snapshots: &SnapshotWriter<J>,
    log: &PublicationLog<J>,
    rest: &mut Share<J>,
) -> Result<Seat<J>, AllocError>
    requires { (1 < rest.old.parts) × (rest.old.amount ≡ 0) }
    ensures rest { IfOk result (λ _. (rest.new.parts + 1 ≡ rest.old.parts) × (rest.new.amount ≡ 0)) }
    ensures seat { IfOk result (λ s. IsNew log.now.published s) }
{
    let reader = snapshots.snapshot_reader(log.published())?;
    let heard = Heard::of(log.published().into_prefix());
    let mine = rest.split_off(1, 0);
    Ok(Seat::new(reader, heard, mine))
}

fn seats_of<J: Naming>(
    alloc: Global,
    snapshots: &SnapshotWriter<J>,
    log: &PublicationLog<J>,
    rest: &mut Share<J>,
    count: usize,
) -> Result<Vec<Seat<J>>, AllocError>
    requires { (count < rest.old.parts) × (rest.old.amount ≡ 0) }
    ensures count { IfOk result (λ v. vec_len v ≡ count) }
    ensures seats { IfOk result (λ v. All (λ s. IsNew log.now.published s) v.items) }
{
    let mut seats = Vec::new(alloc);
    for _ in 0..count {
        let seat = seat_of(snapshots, log, rest)?;
        seats.push(seat)?;
    }
    Ok(seats)
}

/// A desk over an empty registry within the limits of the settings, with so many seats, 1 to 64.
///
/// # Errors
///
/// `OutOfMemory` alone.
pub fn open<J: Naming, R: Wait>(
    rt: &R,
    alloc: Global,
    settings: &Settings,
    seats: usize,
    opening: Opening,
) -> Result<(Desk<J>, Vec<Seat<J>>), Fault>
    requires seats { (0 < seats) × (seats ≤ 64) }
    requires opening { Opens J.list J.name J.parts opening }
    ensures nothing { IfOk result (λ r. (r.0.published ≡ []) × (r.0.pending ≡ []) × (r.0.by_seats ≡ 0) × (r.0.by_none ≡ 0)) }
    ensures hub { IfOk result (λ r. IsEmptyHub settings.now r.0.hub) }
    ensures count { IfOk result (λ r. vec_len r.1 ≡ seats) }
    ensures seats { IfOk result (λ r. All (λ s. IsNew [] s) r.1.items) }
    ensures memory { IfErr result (λ e. e ≡ OutOfMemory) }
{
    let Opening { marks, blank } = opening;
    let (book, mut rest) = blank.open::<J>();
    let log = PublicationLog::new(marks);
    let prefix = log.published().into_prefix();
    let snapshots = SnapshotWriter::new(alloc, prefix, seats)?;
    let Ok(seats) = seats_of(alloc, &snapshots, &log, &mut rest, seats) else {
        snapshots.close(rt);
        return Err(Fault::OutOfMemory);
    };
    Ok((Desk::new(alloc, settings, snapshots, log, book), seats))
}
