//! How the leases follow a change, and an operation without one.
ghost use Rattle.std.specs.Prelude.{◌≡◌, Err, IfErr, None, Ok, OnErr, OnOk, Some, true};
ghost use Rattle.disco_values.specs.declared.fault.Fault.TheVariants.{OutOfMemory};
ghost use Rattle.disco_history.specs.Change.{key_of, change_view};
ghost use Rattle.disco_index.specs.Tally.{tally_in};
ghost use Rattle.disco_lease.specs.Leases.{HasPlace, IsFilled, IsSameLeases, KeepsOthers, Sets, extended, lease_at, marked};
ghost use Rattle.disco_registry.specs.Accept.{accepts};
ghost use Rattle.disco_registry.specs.Op.{op_view, renew};
ghost use Rattle.disco_core.specs.Moves.{FollowsChange, GoesOn};
ghost use Rattle.disco_core.specs.State.{is_renewal};
ghost use Rattle.disco_core.specs.Tied.{AreLeased};

use disco_history::Change;
use disco_index::Counts;
use disco_instance::Record;
use disco_lease::LeaseBook;
use disco_registry::{Op, Registry};
use disco_values::{Action, Fault, Key, Status};

/// Whether an operation is a renewal.
pub(crate) fn is_renewal(op: &Op) -> bool
    ensures { result ≡ is_renewal (op_view op.now) }
{
    matches!(op, Op::Renew(_))
}

/// Makes a place for the lease of a key, which has one already where it is held. Refused only as
/// `OutOfMemory`.
pub(crate) fn open(leases: &mut LeaseBook, key: &Key, held: bool) -> Result<(), Fault>
    requires { held ≡ true → HasPlace leases.old key.now }
    ensures same { IsSameLeases leases.old leases.new }
    ensures place { OnOk result (HasPlace leases.new key.now) }
    ensures others { KeepsOthers key.now leases.old leases.new }
    ensures memory { IfErr result (λ e. e ≡ OutOfMemory) }
{
    if held {
        return Ok(());
    }
    leases.ready(key)
}

/// Starts the lease of an instance that registers.
fn start(leases: &mut LeaseBook, rec: &Record, now: u64)
    requires { HasPlace leases.old rec.now.key }
    ensures lease { Sets rec.now.key (Some (marked rec.now.lease.duration_secs now)) leases.old leases.new }
    ensures there { lease_at leases.new rec.now.key ≡ Some (marked rec.now.lease.duration_secs now) }
    ensures renewals { leases.new.renewals ≡ leases.old.renewals }
    ensures closed { leases.new.closed ≡ leases.old.closed }
{
    leases.register(&rec.key, rec.lease.duration_secs, now);
}

/// Keeps the lease of an instance going whose status or override changes: it is marked anew, and
/// then moved by its duration.
fn keep_going(leases: &mut LeaseBook, rec: &Record, now: u64)
    requires { HasPlace leases.old rec.now.key }
    ensures lease { Sets rec.now.key (Some (extended now (marked rec.now.lease.duration_secs now))) leases.old leases.new }
    ensures there { lease_at leases.new rec.now.key ≡ Some (extended now (marked rec.now.lease.duration_secs now)) }
    ensures renewals { leases.new.renewals ≡ leases.old.renewals }
    ensures closed { leases.new.closed ≡ leases.old.closed }
{
    leases.register_touched(&rec.key, rec.lease.duration_secs, now);
}

/// Ends the lease of an instance that goes, and gives back its place.
fn end(leases: &mut LeaseBook, key: &Key)
    ensures lease { Sets key.now None leases.old leases.new }
    ensures swept { IsFilled key.now leases.new }
    ensures renewals { leases.new.renewals ≡ leases.old.renewals }
    ensures closed { leases.new.closed ≡ leases.old.closed }
{
    leases.end(key);
}

/// Moves the lease of the instance that a change is about.
pub(crate) fn follow(leases: &mut LeaseBook, change: &Change, now: u64)
    requires { HasPlace leases.old (key_of (change_view change.now)) }
    ensures lease { FollowsChange (change_view change.now) now leases.old leases.new }
    ensures swept { IsFilled (key_of (change_view change.now)) leases.new }
{
    match change {
        Change::Put { action, rec } => match action {
            Action::Added => start(leases, rec, now),
            Action::Modified => keep_going(leases, rec, now),
            Action::Deleted => end(leases, change.key()),
        },
        Change::Gone { rec: _ } => end(leases, change.key()),
    }
}

/// Moves the lease of an instance whose record stays as it is, and counts a renewal. The instance is
/// held, so it has a lease.
pub(crate) fn keep(leases: &mut LeaseBook, key: &Key, renewal: bool, now: u64)
    ensures { GoesOn key.now renewal now leases.old leases.new }
{
    let _ = if renewal {
        leases.renew(key, now)
    } else {
        leases.touch(key, now)
    };
}

/// Renews the lease of a key, where the registry accepts that. Each instance has a lease, and only one
/// of unknown status may not renew it: so it searches for the record only where some instance is of
/// that status.
pub(crate) fn renew(
    leases: &mut LeaseBook,
    registry: &Registry,
    counts: &Counts,
    key: &Key,
    now: u64,
) -> Result<(), Fault>
    requires leased { AreLeased registry.now.held leases.old }
    requires tally { counts.now ≡ tally_in registry.now.held }
    ensures accepted { OnOk result (accepts registry.now (renew key.now) now ≡ Ok None) }
    ensures goes_on { OnOk result (GoesOn key.now true now leases.old leases.new) }
    ensures refused { IfErr result (λ e. accepts registry.now (renew key.now) now ≡ Err e) }
    ensures as_before { OnErr result (leases.new ≡ leases.old) }
    ensures leased { AreLeased registry.now.held leases.new }
{
    if counts.of(Status::Unknown) > 0 {
        registry.admit_renewal(key)?;
    }
    leases.renew(key, now)?;
    Ok(())
}
