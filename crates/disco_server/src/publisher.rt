//! The steps of a publisher.
ghost use Rattle.std.specs.Prelude.{◌≡◌, IfErr, IfOk, None, OnErr};
ghost use Rattle.disco_values.specs.declared.fault.Fault.TheVariants.{OutOfMemory};
ghost use Rattle.disco_hub.specs.State.{open_round};
ghost use Rattle.disco_hub.specs.Transitions.{HasNoneLeft, MovesRounds};
ghost use Rattle.disco_server.specs.Publishing.{TakesStep};

use disco_press::{Desk, Naming};
use disco_values::Fault;
use std::sync::{Mutex, MutexGuard, Wait};

/// What a step of a publisher did.
#[derive(Clone, Copy, Debug, PartialEq, Eq)]
pub enum Step {
    /// It began a round, since none was open.
    Begun,
    /// It copied one key of the open round.
    Copied,
    /// It published the open round, of which no key was left.
    Published,
}

/// Begins a round.
fn begin<J: Naming>(desk: &mut Desk<J>) -> Result<Step, Fault>
    requires { open_round desk.old.hub ≡ None }
    ensures moves { IfOk result (λ step. TakesStep desk.old step desk.new) }
    ensures rest { MovesRounds desk.old.hub desk.new.hub }
    ensures refused { IfErr result (λ fault. fault ≡ OutOfMemory) }
    ensures as_before { OnErr result (desk.new ≡ desk.old) }
{
    match desk.begin() {
        Ok(_) => Ok(Step::Begun),
        Err(_) => Err(Fault::OutOfMemory),
    }
}

/// Publishes the open round, of which no key is left.
fn publish<J: Naming, R: Wait>(rt: &R, desk: &mut Desk<J>) -> Step
    requires { HasNoneLeft desk.old.hub }
    ensures moves { TakesStep desk.old result desk.new }
    ensures rest { MovesRounds desk.old.hub desk.new.hub }
{
    let Ok(_) = desk.publish(rt) else {
        unreachable!()
    };
    Step::Published
}

/// Takes the next step of a publisher: it goes on with the round that is open, and begins one only
/// where none is. May wait for a seat that is inside its look.
///
/// # Errors
///
/// `OutOfMemory` alone. Then the desk is as it was.
pub fn publish_step<J: Naming, R: Wait>(rt: &R, desk: &mut Desk<J>) -> Result<Step, Fault>
    ensures moves { IfOk result (λ step. TakesStep desk.old step desk.new) }
    ensures rest { MovesRounds desk.old.hub desk.new.hub }
    ensures refused { IfErr result (λ fault. fault ≡ OutOfMemory) }
    ensures as_before { OnErr result (desk.new ≡ desk.old) }
{
    match desk.copy_one() {
        Ok(Some(_)) => Ok(Step::Copied),
        Ok(None) => Ok(publish(rt, desk)),
        Err(Fault::NoRound) => begin(desk),
        Err(_) => Err(Fault::OutOfMemory),
    }
}

/// Takes the next step of a publisher under the lock.
fn step_locked<J: Naming, R: Wait>(rt: &R, desk: &Mutex<Desk<J>>) -> Result<Step, Fault>
    ensures { IfErr result (λ fault. fault ≡ OutOfMemory) }
{
    let mut guard = desk.lock(rt);
    let step = publish_step(rt, &mut *guard);
    MutexGuard::unlock(guard);
    step
}

/// Publishes the round that is open, or else a new one. Others get the lock between two steps.
///
/// # Errors
///
/// `OutOfMemory` alone. Then the round stays open.
pub fn publish_round<J: Naming, R: Wait>(rt: &R, desk: &Mutex<Desk<J>>) -> Result<(), Fault>
    ensures { IfErr result (λ fault. fault ≡ OutOfMemory) }
{
    for _ in rt.forever() {
        if step_locked(rt, desk)? == Step::Published {
            return Ok(());
        }
    }
    unreachable!()
}
