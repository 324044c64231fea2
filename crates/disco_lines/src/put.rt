//! Events put behind those that were read before. Each function says whether it put one.
ghost use Rattle.std.specs.Prelude.{◌≡◌, ◌∷◌, ◌++◌, [], IfOk, IfErr, option_map, true};
ghost use Rattle.std.specs.Option.{is_some};
ghost use Rattle.disco_values.specs.declared.fault.Fault.TheVariants.{OutOfMemory};
ghost use Rattle.disco_lines.specs.Lines.{alone};
ghost use Rattle.disco_lines.specs.Steps.{with_found};
ghost use Rattle.disco_world.specs.declared.event.Event.TheVariants as event;

use crate::words::Words;
use disco_values::Fault;
use disco_world::{Event, Step};

#[inline(always)]
fn put(event: Event, events: &mut Vec<Event>) -> Result<bool, Fault>
    ensures says { IfOk result (λ found. found ≡ true) }
    ensures puts { IfOk result (λ _. events.new.items ≡ events.old.items ++ event ∷ []) }
    ensures memory { IfErr result (λ e. e ≡ OutOfMemory) }
{
    events.push(event)?;
    Ok(true)
}

#[inline(always)]
pub(crate) fn put_step(step: Step, events: &mut Vec<Event>) -> Result<bool, Fault>
    ensures says { IfOk result (λ found. found ≡ true) }
    ensures puts { IfOk result (λ _. events.new.items ≡ events.old.items ++ event.Step step ∷ []) }
    ensures memory { IfErr result (λ e. e ≡ OutOfMemory) }
{
    put(Event::Step(step), events)
}

/// Puts a step, where no word stands behind it.
#[inline(always)]
pub(crate) fn put_alone(step: Step, words: &Words, events: &mut Vec<Event>) -> Result<bool, Fault>
    ensures says { IfOk result (λ found. found ≡ is_some (option_map event.Step (alone step words.now))) }
    ensures puts { IfOk result (λ _. events.new.items ≡ with_found events.old.items (option_map event.Step (alone step words.now))) }
    ensures memory { IfErr result (λ e. e ≡ OutOfMemory) }
{
    if !words.is_empty() {
        return Ok(false);
    }
    put_step(step, events)
}

/// Puts the event that was found, if one was.
pub(crate) fn put_found(found: Option<Event>, events: &mut Vec<Event>) -> Result<bool, Fault>
    ensures says { IfOk result (λ put. put ≡ is_some found) }
    ensures puts { IfOk result (λ _. events.new.items ≡ with_found events.old.items found) }
    ensures memory { IfErr result (λ e. e ≡ OutOfMemory) }
{
    match found {
        Some(event) => put(event, events),
        None => Ok(false),
    }
}

/// Puts the step that was found, if one was.
pub(crate) fn put_found_step(found: Option<Step>, events: &mut Vec<Event>) -> Result<bool, Fault>
    ensures says { IfOk result (λ put. put ≡ is_some (option_map event.Step found)) }
    ensures puts { IfOk result (λ _. events.new.items ≡ with_found events.old.items (option_map event.Step found)) }
    ensures memory { IfErr result (λ e. e ≡ OutOfMemory) }
{
    match found {
        Some(step) => put_step(step, events),
        None => Ok(false),
    }
}
