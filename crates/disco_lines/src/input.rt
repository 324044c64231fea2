//! The events of an input, answered.
ghost use Rattle.std.specs.Prelude.{◌≡◌, ℕ, List, IfErr, OnOk, Some};
ghost use Rattle.std.specs.Io.KnownBytes.{IsAtEnd};
ghost use Rattle.disco_values.specs.declared.fault.Fault.{Fault};
ghost use Rattle.disco_http.specs.Causes.{Raises};
ghost use Rattle.disco_lines.specs.Lines.{IsFirstBadLine};
ghost use Rattle.disco_lines.specs.Answered.{IsInputAnswered, IsLeft, IsRunFault};

use crate::answers::write_answers;
use crate::lines::read_events;
use disco_http::{Sink, Source};
use disco_values::{Fault, Settings};
use disco_world::run;
use std::alloc::Global;

/// Answers all events of an input, one a line, from an empty registry, with a line for each. Nothing is
/// written before all of them are answered.
///
/// # Errors
///
/// `ReadFailed` where a read fails, `BadEvent` with the number of the first line that means no event,
/// else of the first event that can't be run, `WriteFailed` where a write fails, and `OutOfMemory`.
/// Nothing is written then, but for a front of the answer lines where a write failed, or found no
/// memory for a line.
pub fn answer_input<R: Source, W: Sink>(
    alloc: Global,
    settings: &Settings,
    reader: &mut R,
    out: &mut W,
) -> Result<(), Fault>
    ensures answered { OnOk result (IsInputAnswered settings.now (R.remaining reader.old)
        (W.contents out.old) (W.contents out.new)) }
    ensures end { OnOk result (IsAtEnd (R.remaining reader.new)) }
    ensures fault { IfErr result (IsRunFault settings.now (R.remaining reader.old)
        (Raises (R.failed reader.old) (R.failed reader.new)) (Raises (W.failed out.old) (W.failed out.new))) }
    ensures bad_line { (input : List ℕ) (bad : Fault) → R.remaining reader.old ≡ Some input
        → IsFirstBadLine input bad → out.new ≡ out.old }
    ensures left { IfErr result (λ e. IsLeft W.contents settings.now (R.remaining reader.old) e out.old out.new) }
{
    let events = read_events(alloc, reader)?;
    let replies = run(alloc, settings, events.as_slice())?;
    write_answers(alloc, replies.as_slice(), out)
}
