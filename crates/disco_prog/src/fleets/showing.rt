//! The results of a fleet, as lines.
ghost use Rattle.std.specs.Prelude.{◌≡◌, ◌↔◌, IsTrue, codes, if◌then◌else◌};
ghost use Rattle.disco_prog.specs.Fleets.{IsRegistryCopy};
ghost use Rattle.disco_reconcile.specs.State.{copy_of};

use disco_client::Copy;
use disco_follow::are_same;
use disco_press::{Desk, Naming};
use disco_reconcile::{Client, Fetch};
use disco_values::{DocKey, Fault, Form, Query};
use disco_wire::read_document;
use std::alloc::Global;
use std::sync::{Mutex, MutexGuard, Wait};

/// A copy of the registry as it is now.
fn copy_of<J: Naming, R: Wait>(
    rt: &R,
    alloc: Global,
    desk: &Mutex<Desk<J>>,
) -> Result<Copy, Fault> {
    let key = DocKey {
        query: Query::Apps,
        form: Form::Full,
    };
    let mut guard = desk.lock(rt);
    let loaded = guard.load(&key);
    MutexGuard::unlock(guard);
    let mut copy = Copy::new(alloc);
    copy.full(read_document(alloc, loaded?.text.as_slice())?)?;
    Ok(copy)
}

/// Whether a client has a copy with exactly the records of the registry.
fn is_exact<F: Fetch>(client: &Client<F>, registry: &Copy) -> bool
    ensures { IsTrue result ↔ IsRegistryCopy (copy_of client.now.kept) registry.now }
{
    match client.copy() {
        Some(copy) => are_same(copy.records(), registry.records()),
        None => false,
    }
}

/// `yes` where a client's copy is the registry, and `no` where it isn't.
fn answer(exact: bool) -> &'static str
    ensures { result.now ≡ (if exact then codes "yes" else codes "no") }
{
    if exact { "yes" } else { "no" }
}

/// What a fleet came to, as lines: `fleet N HASH` of the registry, and of each client whether its
/// copy has exactly the registry's records, `client I yes` or `client I no`.
///
/// # Errors
///
/// `OutOfMemory` where memory is refused.
pub fn lines_of<F: Fetch>(
    alloc: Global,
    registry: &Copy,
    clients: &[Client<F>],
) -> Result<String, Fault> {
    let hash = registry.hash(alloc)?;
    let mut lines = String::new(alloc);
    writeln!(lines, "fleet {} {}", registry.len(), hash.as_str())?;
    for (number, client) in clients.iter().enumerate() {
        let exact = answer(is_exact(client, registry));
        writeln!(lines, "client {number} {exact}")?;
    }
    Ok(lines)
}

/// A line for the registry as it is now, and one for each client.
pub(super) fn lines_now<J: Naming, R: Wait, F: Fetch>(
    rt: &R,
    alloc: Global,
    desk: &Mutex<Desk<J>>,
    clients: &[Client<F>],
) -> Result<String, Fault> {
    let registry = copy_of(rt, alloc, desk)?;
    lines_of(alloc, &registry, clients)
}
