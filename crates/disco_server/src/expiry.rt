//! Expiry: instances whose leases have run out are cancelled, some in each step.
ghost use Rattle.std.specs.Prelude.{◌≡◌, ◌++◌, ◌∷◌, ◌≤◌, [], IfErr, IfOk, MatchOption, None, Some, drop, take, vec_len};
ghost use Rattle.std.specs.Vec.{vec_capacity};
ghost use Rattle.disco_values.specs.declared.fault.Fault.TheVariants.{OutOfMemory};
ghost use Rattle.disco_core.specs.Past.{Past, taken_in};
ghost use Rattle.disco_hub.specs.State.{HubStandsFor};
ghost use Rattle.disco_server.specs.Tasks.{LetsRunOut, RunsOn, is_left, most_held};

use disco_press::{Desk, Naming};
use disco_values::{Fault, Key};
use std::alloc::AllocError;
use std::collections::VecDeque;
use std::marker::Model;

/// How many instances one step looks at, at most.
const HELD: usize = 100;

/// The keys that are left of those that were due when an expiry began, in their order.
#[derive(Drop)]
pub(crate) struct Expiry {
    /// Those of the next step, or of the last one where it was stopped.
    next: Vec<Key>,
    /// Those behind them.
    behind: VecDeque<Key>,
}

impl Model for Expiry {
    ghost use Rattle.std.specs.Prelude.{◌++◌, ◌≤◌, List, vec_len};
    ghost use Rattle.std.specs.Vec.{vec_capacity};
    ghost use Rattle.disco_values.specs.declared.key.Key.{Key};

    ghost Value = { List Key };

    ghost view = { λ e. e.next.items ++ e.behind.items };

    ghost invariant = { λ e. (vec_len e.next ≤ 100) × (100 ≤ vec_capacity e.next) };
}

/// Takes out the first key, if there is one.
fn first_of(behind: &mut VecDeque<Key>) -> Option<Key>
    ensures { MatchOption result ((behind.old.items ≡ []) × (behind.new.items ≡ [])) (λ k. behind.old.items ≡ k ∷ behind.new.items) }
{
    behind.pop_front()
}

/// Moves keys up to the number that one step looks at.
fn fill(next: &mut Vec<Key>, behind: &mut VecDeque<Key>)
    requires few { vec_len next.old ≤ 100 }
    requires room { 100 ≤ vec_capacity next.old }
    ensures next { next.new.items ≡ take most_held (next.old.items ++ behind.old.items) }
    ensures behind { behind.new.items ≡ drop most_held (next.old.items ++ behind.old.items) }
    ensures few { vec_len next.new ≤ 100 }
    ensures room { 100 ≤ vec_capacity next.new }
{
    for _ in next.len()..HELD {
        let Some(key) = first_of(behind) else {
            return;
        };
        next.push_reserved(key);
    }
}

/// Cancels those of the first keys whose leases have run out by a moment. Why it stopped, if it did.
fn cancel_first<J: Naming>(
    desk: &mut Desk<J>,
    next: &mut Vec<Key>,
    behind: &mut VecDeque<Key>,
    now: u64,
) -> Option<Fault>
    requires few { vec_len next.old ≤ 100 }
    requires room { 100 ≤ vec_capacity next.old }
    ensures run { LetsRunOut now desk.old desk.new (next.old.items ++ behind.old.items) (next.new.items ++ behind.new.items) result }
    ensures few { vec_len next.new ≤ 100 }
    ensures room { 100 ≤ vec_capacity next.new }
{
    fill(next, behind);
    match desk.cancel_overdue(next, now).stopped {
        Some(fault) => Some(fault),
        None => {
            next.clear();
            None
        }
    }
}

/// As [`cancel_first`], of an expiry.
fn cancel_next<J: Naming>(desk: &mut Desk<J>, run: &mut Expiry, now: u64) -> Option<Fault>
    ensures { LetsRunOut now desk.old desk.new run.old run.new result }
{
    cancel_first(desk, &mut run.next, &mut run.behind, now)
}

/// An expiry of these keys.
fn run_of(keys: Vec<Key>) -> Result<Expiry, AllocError>
    ensures { IfOk result (λ run. run ≡ keys.items) }
{
    let next = Vec::with_capacity(*keys.allocator(), HELD)?;
    Ok(Expiry {
        next,
        behind: VecDeque::from_vec(keys),
    })
}

/// Whether a key is left.
fn is_left(run: &Expiry) -> bool
    ensures { result ≡ is_left run.now }
{
    if run.next.is_empty() {
        !run.behind.is_empty()
    } else {
        true
    }
}

/// Begins an expiry at a moment. Gives it, and whether a step follows at once.
fn begin<J: Naming>(desk: &Desk<J>, now: u64) -> (Option<Expiry>, Result<bool, Fault>)
    ensures { RunsOn now desk.now None result.1 desk.now result.0 }
{
    match taken(desk, now) {
        Ok(run) => (Some(run), Ok(true)),
        Err(fault) => (None, Err(fault)),
    }
}

/// An expiry of the keys that are due at a moment.
fn taken<J: Naming>(desk: &Desk<J>, now: u64) -> Result<Expiry, Fault>
    ensures keys { IfOk result (λ run. (p : Past) → HubStandsFor desk.now.hub p → run ≡ taken_in p now) }
    ensures memory { IfErr result (λ e. e ≡ OutOfMemory) }
{
    let keys = desk.due(now)?;
    Ok(run_of(keys)?)
}

/// Takes the next step of an expiry. Gives what is left of it, and whether another step follows at once.
fn go_on<J: Naming>(
    desk: &mut Desk<J>,
    mut run: Expiry,
    now: u64,
) -> (Option<Expiry>, Result<bool, Fault>)
    ensures { RunsOn now desk.old (Some run) result.1 desk.new result.0 }
{
    match cancel_next(desk, &mut run, now) {
        Some(fault) => (Some(run), Err(fault)),
        None => {
            let more = is_left(&run);
            (Some(run), Ok(more))
        }
    }
}

/// Takes the next step of the open expiry, or begins one. Gives what is left of it, and whether another
/// step follows at once: until no key is left.
pub(crate) fn run_on<J: Naming>(
    desk: &mut Desk<J>,
    begun: Option<Expiry>,
    now: u64,
) -> (Option<Expiry>, Result<bool, Fault>)
    ensures { RunsOn now desk.old begun result.1 desk.new result.0 }
{
    match begun {
        Some(run) => go_on(desk, run, now),
        None => begin(desk, now),
    }
}
