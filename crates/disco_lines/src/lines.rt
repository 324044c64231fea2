//! All lines of the input.
ghost use Rattle.std.specs.Prelude.{◌≡◌, ◌⊎◌, IfOk, IfErr, OnOk, Some, map};
ghost use Rattle.std.specs.Io.KnownBytes.{IsAtEnd};
ghost use Rattle.std.specs.List.{after_first, before_first};
ghost use Rattle.disco_values.specs.declared.fault.Fault.TheVariants.{OutOfMemory, ReadFailed};
ghost use Rattle.disco_lines.specs.Lines.{IsFirstBadLine, meanings};
ghost use Rattle.disco_lines.specs.Steps.{is_feed};
ghost use Rattle.disco_lines.specs.Input.{AreRead, NamesBadLine};
ghost use Rattle.disco_http.specs.Causes.{Cause};

use crate::find::first_of;
use crate::line::put_event_of;
use disco_http::{Source, read_all};
use disco_values::Fault;
use disco_world::Event;
use std::alloc::Global;

fn split_line(input: &[u8]) -> (&[u8], &[u8])
    ensures line { result.0.now ≡ before_first is_feed input.now }
    ensures rest { result.1.now ≡ after_first is_feed input.now }
{
    match first_of(b'\n', input) {
        Some(at) => (&input[..at], &input[at + 1..]),
        None => (input, &[]),
    }
}

/// The events of an input, in order. A line ends at a line feed, which the last one may lack; every
/// line is an event. Refused as `BadEvent`, with the number from 1 of the first line that means
/// none, or as `OutOfMemory`.
pub(crate) fn events_of(alloc: Global, input: &[u8]) -> Result<Vec<Event>, Fault>
    ensures events { IfOk result (λ events. map Some events.items ≡ meanings input.now) }
    ensures fault { IfErr result (λ e. (e ≡ OutOfMemory) ⊎ IsFirstBadLine input.now e) }
{
    let mut events = Vec::new(alloc);
    let mut rest = input;
    while !rest.is_empty() {
        let (line, after) = split_line(rest);
        if !put_event_of(alloc, line, &mut events)? {
            return Err(Fault::BadEvent(events.len() as u64 + 1));
        }
        rest = after;
    }
    Ok(events)
}

/// The events of all that a source gives, up to its end.
///
/// # Errors
///
/// `ReadFailed` where a read fails, `BadEvent` with the number, from 1, of the first line that can't be
/// read, and `OutOfMemory`.
pub(crate) fn read_events<R: Source>(alloc: Global, reader: &mut R) -> Result<Vec<Event>, Fault>
    ensures events { IfOk result (λ events. AreRead (R.remaining reader.old) events.items) }
    ensures end { OnOk result (IsAtEnd (R.remaining reader.new)) }
    ensures fault { IfErr result (λ e. (e ≡ OutOfMemory) ⊎ ((e ≡ ReadFailed)
        ⊎ NamesBadLine (R.remaining reader.old) e)) }
    // A failed read has raised the count of failures.
    ensures cause { Cause ReadFailed (R.failed reader.old) (R.failed reader.new) result }
{
    let input = read_all(alloc, reader)?;
    events_of(alloc, input.as_slice())
}
