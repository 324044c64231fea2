//! The command `replay`.
ghost use Rattle.std.specs.Prelude.{◌≡◌, ◌≢◌, ℕ, List, [], Some, map, string_bytes};
ghost use Rattle.std.specs.Io.KnownBytes.{IsAtEnd};
ghost use Rattle.disco_values.specs.declared.fault.Fault.{Fault};
ghost use Rattle.disco_options.specs.Ending.{EndsBy};
ghost use Rattle.disco_options.specs.Faults.{Says};
ghost use Rattle.disco_lines.specs.Lines.{IsFirstBadLine};
ghost use Rattle.disco_options.specs.Options.{faults_of};
ghost use Rattle.disco_http.specs.Causes.{Raises};
ghost use Rattle.disco_prog.specs.Replay.{IsFailed, IsReplayed};

use disco_http::{Sink, Source};
use disco_lines::answer_input;
use disco_options::{Subcommand, read_settings, refused, report};
use std::alloc::Global;

/// Runs the program on the words behind its name, and gives its exit status.
///
/// `replay` reads all events from `reader`, one a line, and writes an answer line for each to
/// `out`. The status is 0 where all answers were written, and where help was asked for. It is 2 for
/// words that are refused, with a message on `errors`. Else it is 1, with the one line
/// `discovery: fault N` on `errors`; nothing is then written, but for a front of the answer lines where
/// a write failed or found no memory.
pub fn replay<R: Source, W: Sink, E: Sink>(
    alloc: Global,
    reader: &mut R,
    out: &mut W,
    errors: &mut E,
    words: &[String],
) -> u8
    ensures ends { EndsBy E.contents E.failed (faults_of Subcommand.Replay (map string_bytes words.now)) result out.old out.new errors.old errors.new }

    // Words with no fault are `replay` with options: 0 says that all is answered, else it is 1.
    ensures answered { faults_of Subcommand.Replay (map string_bytes words.now) ≡ [] → result ≡ 0
        → IsReplayed (map string_bytes words.now) (R.remaining reader.old)
        (W.contents out.old) (W.contents out.new) }
    ensures end { faults_of Subcommand.Replay (map string_bytes words.now) ≡ [] → result ≡ 0
        → IsAtEnd (R.remaining reader.new) }

    // Words that are refused or ask for help leave the input as it is.
    ensures unread { faults_of Subcommand.Replay (map string_bytes words.now) ≢ [] → reader.new ≡ reader.old }

    // Where a line of the input means nothing, no event is answered.
    ensures bad_line { faults_of Subcommand.Replay (map string_bytes words.now) ≡ []
        → (input : List ℕ) (bad : Fault) → R.remaining reader.old ≡ Some input
        → IsFirstBadLine input bad → (result ≡ 1) × (out.new ≡ out.old) }

    // Where the run is refused its fault is told, and no answer is written; where the writing is, a front
    // of the answer lines is. A read or a write that failed has raised the count of failures.
    ensures failed { faults_of Subcommand.Replay (map string_bytes words.now) ≡ [] → result ≡ 1
        → IsFailed (map string_bytes words.now) (R.remaining reader.old)
        (Raises (R.failed reader.old) (R.failed reader.new)) (Raises (W.failed out.old) (W.failed out.new))
        (λ fault. Says fault (E.contents errors.old) (E.contents errors.new) (E.failed errors.old) (E.failed errors.new))
        W.contents out.old out.new }
{
    match read_settings(alloc, Subcommand::Replay, words, 0) {
        Ok(settings) => match answer_input(alloc, &settings, reader, out) {
            Ok(()) => 0,
            Err(fault) => report(&fault, errors),
        },
        Err(error) => refused(alloc, &error, out, errors),
    }
}
