//! Runs the program: the command that its words name.
ghost use Rattle.std.specs.Prelude.{◌≡◌, [], map, string_bytes};
ghost use Rattle.disco_prog.specs.Fleets.{faults_of_running};
ghost use Rattle.disco_follow.specs.Following.{TellsFor};
ghost use Rattle.disco_options.specs.Ending.{EndsBy};
ghost use Rattle.disco_options.specs.Faults.{Says};
ghost use Rattle.disco_options.specs.Options.{faults_of, verb_of};
ghost use Rattle.disco_options.specs.declared.subcommand.Subcommand.TheVariants.{Replay, Serve, Follow};
ghost use Rattle.disco_press.specs.Openings.{Opens};
ghost use Rattle.disco_http.specs.Causes.{Raises};
ghost use Rattle.disco_prog.specs.Replay.{IsFailed, IsReplayed};
ghost use Rattle.disco_prog.specs.Serving.{SaysListening, SaysWhy};

use crate::fleets::fleet;
use crate::replay_command::replay;
use crate::serve_command::serve;
use disco_follow::follow;
use disco_http::{Sink, Source};
use disco_options::Subcommand;
use disco_press::{Naming, Opening};
use std::alloc::Global;
use std::net::{Net, TcpListener, TcpStream};
use std::rt::Clock;
use std::sync::Wait;
use std::thread::Threads;

/// Runs the command that the words behind the program's name name, and gives the exit status: 0
/// where all went well and where help was asked for, 2 for words that are refused, and else 1, with
/// the line `discovery: fault N` last on `errors`.
pub fn run<J: Naming + Send + Sync, R, I: Source, W: Sink, E: Sink>(
    rt: &R,
    alloc: Global,
    opening: Opening,
    input: &mut I,
    out: &mut W,
    errors: &mut E,
    words: &[String],
) -> u8
where
    R: Net<Listener = TcpListener, Stream = TcpStream> + Threads + Wait + Clock + Sync,
    requires opening { Opens J.list J.name J.parts opening }
    ensures ends { EndsBy E.contents E.failed (faults_of_running (verb_of (map string_bytes words.now))
        (map string_bytes words.now)) result out.old out.new errors.old errors.new }

    // `replay` with status 0 has answered all events of the input, and with 1 has told why it hasn't.
    ensures replayed { verb_of (map string_bytes words.now) ≡ Replay → faults_of Replay (map string_bytes words.now) ≡ [] → result ≡ 0
        → IsReplayed (map string_bytes words.now) (I.remaining input.old) (W.contents out.old) (W.contents out.new) }
    ensures failed { verb_of (map string_bytes words.now) ≡ Replay → faults_of Replay (map string_bytes words.now) ≡ [] → result ≡ 1
        → IsFailed (map string_bytes words.now) (I.remaining input.old)
        (Raises (I.failed input.old) (I.failed input.new)) (Raises (W.failed out.old) (W.failed out.new))
        (λ fault. Says fault (E.contents errors.old) (E.contents errors.new) (E.failed errors.old) (E.failed errors.new))
        W.contents out.old out.new }

    // `serve` with status 0 has said where it listens, and with 1 why it doesn't serve, or no longer.
    ensures listening { verb_of (map string_bytes words.now) ≡ Serve → faults_of Serve (map string_bytes words.now) ≡ [] → result ≡ 0
        → SaysListening (map string_bytes words.now) (W.contents out.old) (W.contents out.new) }
    ensures stopped { verb_of (map string_bytes words.now) ≡ Serve → faults_of Serve (map string_bytes words.now) ≡ [] → result ≡ 1
        → SaysWhy (E.contents errors.old) (E.contents errors.new) (E.failed errors.old) (E.failed errors.new) }

    // `follow` with status 0 has told all that was asked for.
    ensures followed { verb_of (map string_bytes words.now) ≡ Follow → faults_of Follow (map string_bytes words.now) ≡ [] → result ≡ 0
        → TellsFor (map string_bytes words.now) (W.contents out.old) (W.contents out.new) }
{
    match Subcommand::of(words) {
        Subcommand::Replay => replay(alloc, input, out, errors, words),
        Subcommand::Serve => serve::<J, R, W, E>(rt, alloc, opening, out, errors, words),
        Subcommand::Fleet => fleet(rt, alloc, out, errors, words),
        Subcommand::Follow => follow(rt, alloc, out, errors, words),
    }
}
