//! Answer lines.
ghost use Rattle.std.specs.Prelude.{◌≡◌, ◌⊎◌, ◌++◌, [], IfErr, OnErr, OnOk, codes, if◌then◌else◌};
ghost use Rattle.disco_values.specs.declared.fault.Fault.TheVariants.{OutOfMemory, WriteFailed};
ghost use Rattle.std.specs.Io.KnownBytes.{Appends};
ghost use Rattle.disco_http.specs.Causes.{Cause, Raises};
ghost use Rattle.disco_lines.specs.Answered.{AppendsFront, AppendsUpTo};
ghost use Rattle.disco_lines.specs.Answers.{answer_line, answer_lines, document_line, summary_text, refusal_line};
ghost use Rattle.disco_lines.specs.Steps.{document_front};
ghost use Rattle.std.specs.List.{flat_map};
ghost use Rattle.disco_world.specs.declared.event.Reply.TheVariants as reply;
ghost use Rattle.disco_world.specs.declared.event.Reply.TheVariants.{Taken, Certified, Changed, Held};

use disco_cache::Payload;
use disco_http::{Sink, write_all};
use disco_hub::{Copied, Expired};
use disco_lease::Minute;
use disco_values::Fault;
use disco_world::{InstanceSummary, Reply};
use itoa::Buffer;
use std::alloc::Global;
use std::io;
use std::io::Write;

/// Writes what stands in front of a document's text.
fn write_front<W: Write>(payload: &Payload, out: &mut W) -> io::Result<()>
    ensures { OnOk result (Appends (W.contents out.old) (W.contents out.new) (document_front payload.now)) }
{
    let (base, version) = (payload.base, payload.version);
    write!(out, "doc {base} {version} ")
}

fn write_document<W: Write>(payload: &Payload, out: &mut W) -> io::Result<()>
    ensures { OnOk result (Appends (W.contents out.old) (W.contents out.new) (document_line payload.now)) }
{
    write_front(payload, out)?;
    out.write_all(payload.text.as_slice())?;
    out.write_all(b"\n")
}

fn write_refusal<W: Write>(fault: &Fault, out: &mut W) -> io::Result<()>
    ensures { OnOk result (Appends (W.contents out.old) (W.contents out.new) (refusal_line fault.now)) }
{
    let number = fault.number();
    match fault {
        Fault::MissingField(field) => {
            let name = field.name();
            writeln!(out, "fault {number} {name}")
        }
        _ => writeln!(out, "fault {number}"),
    }
}

fn yes_or_no(yes: bool) -> &'static str
    ensures { result.now ≡ (if yes then codes "yes" else codes "no") }
{
    if yes { "yes" } else { "no" }
}

fn write_taken<W: Write>(equal: bool, version: Option<u64>, out: &mut W) -> io::Result<()>
    ensures { OnOk result (Appends (W.contents out.old) (W.contents out.new) (answer_line (Taken equal version))) }
{
    let equal = yes_or_no(equal);
    match version {
        Some(version) => writeln!(out, "copy {equal} {version}"),
        None => writeln!(out, "copy {equal} -"),
    }
}

fn copy_or_keep(taken: bool) -> &'static str
    ensures { result.now ≡ (if taken then codes "copy" else codes "keep") }
{
    if taken { "copy" } else { "keep" }
}

fn write_certified<W: Write>(taken: bool, run: u64, version: u64, out: &mut W) -> io::Result<()>
    ensures { OnOk result (Appends (W.contents out.old) (W.contents out.new) (answer_line (Certified taken run version))) }
{
    let word = copy_or_keep(taken);
    writeln!(out, "{word} {run} {version}")
}

fn write_closed<W: Write>(minute: &Minute, out: &mut W) -> io::Result<()>
    ensures { OnOk result (Appends (W.contents out.old) (W.contents out.new) (answer_line (reply.Closed minute.now))) }
{
    let (renewals, instances) = (minute.renewals, minute.instances);
    writeln!(out, "minute {renewals} {instances}")
}

fn write_expired<W: Write>(run: &Expired, out: &mut W) -> io::Result<()>
    ensures { OnOk result (Appends (W.contents out.old) (W.contents out.new) (answer_line (reply.Expired run.now))) }
{
    let gone = run.gone;
    match &run.stopped {
        Some(fault) => {
            let number = fault.number();
            writeln!(out, "expired {gone} fault {number}")
        }
        None => writeln!(out, "expired {gone}"),
    }
}

fn write_copied<W: Write>(copied: &Copied, out: &mut W) -> io::Result<()>
    ensures { OnOk result (Appends (W.contents out.old) (W.contents out.new) (answer_line (reply.Copied copied.now))) }
{
    match copied {
        Copied::Doc(payload) => {
            let version = payload.version;
            writeln!(out, "copied {version}")
        }
        Copied::Drop(_) => writeln!(out, "dropped"),
    }
}

fn write_summary<W: Write>(summary: &InstanceSummary, out: &mut W) -> io::Result<()>
    ensures { OnOk result (Appends (W.contents out.old) (W.contents out.new) (summary_text summary.now)) }
{
    let (app, id) = (summary.key.app.as_str(), summary.key.id.as_str());
    let status = summary.status.name();
    write!(out, " {app}/{id}={status}")
}

fn write_summaries<W: Write>(listed: &[InstanceSummary], out: &mut W) -> io::Result<()>
    ensures { OnOk result (Appends (W.contents out.old) (W.contents out.new) (flat_map summary_text listed.now)) }
{
    for summary in listed {
        write_summary(summary, out)?;
    }
    Ok(())
}

fn write_held<W: Write>(listed: &[InstanceSummary], out: &mut W) -> io::Result<()>
    ensures { OnOk result (Appends (W.contents out.old) (W.contents out.new) (answer_line (Held listed.now))) }
{
    let count = listed.len();
    write!(out, "held {count}")?;
    write_summaries(listed, out)?;
    out.write_all(b"\n")
}

/// Writes the line of a change, which most lines are of: with no formatter.
fn write_changed<W: Write>(version: u64, out: &mut W) -> io::Result<()>
    ensures { OnOk result (Appends (W.contents out.old) (W.contents out.new) (answer_line (Changed version))) }
{
    let mut digits = Buffer::new();
    out.write_all(b"ok ")?;
    out.write_all(digits.format(version).as_bytes())?;
    out.write_all(b"\n")
}

fn write_answer<W: Write>(reply: &Reply, out: &mut W) -> io::Result<()>
    ensures { OnOk result (Appends (W.contents out.old) (W.contents out.new) (answer_line reply.now)) }
{
    match reply {
        Reply::Changed(version) => write_changed(*version, out),
        Reply::Same => out.write_all(b"same\n"),
        Reply::Doc(payload) => write_document(payload, out),
        Reply::Cleaned(base) => writeln!(out, "base {base}"),
        Reply::Closed(minute) => write_closed(minute, out),
        Reply::Expired(run) => write_expired(run, out),
        Reply::Begun(keys) => writeln!(out, "round {keys}"),
        Reply::Copied(copied) => write_copied(copied, out),
        Reply::Done => writeln!(out, "done"),
        Reply::Published(documents) => writeln!(out, "published {documents}"),
        Reply::Missed => writeln!(out, "miss"),
        Reply::Taken {
            hash_equal,
            version,
        } => write_taken(*hash_equal, *version, out),
        Reply::Certified {
            taken,
            run,
            version,
        } => write_certified(*taken, *run, *version, out),
        Reply::Held(listed) => write_held(listed.as_slice(), out),
        Reply::Restarted(run) => writeln!(out, "run {run}"),
        Reply::Refused(fault) => write_refusal(fault, out),
    }
}

/// How many bytes are gathered for one write, at least.
const FLUSH_AT: usize = 65_536;

/// How many bytes can be gathered without more memory: less than enough, and one short line more.
const ROOM: usize = 2 * FLUSH_AT + 64;

/// Writes bytes.
fn write_bytes<W: Sink>(bytes: &[u8], out: &mut W) -> Result<(), Fault>
    ensures written { OnOk result (AppendsUpTo (W.contents out.old) (W.contents out.new) bytes.now []) }
    ensures front { IfErr result (λ e. AppendsFront (W.contents out.old) (W.contents out.new) e bytes.now) }
    ensures fault { IfErr result (λ e. e ≡ WriteFailed) }
    ensures cause { OnErr result (Raises (W.failed out.old) (W.failed out.new)) }
    ensures none_failed { OnOk result (W.failed out.new ≡ W.failed out.old) }
{
    write_all(out, bytes)
}

/// Writes what is gathered, and empties the buffer.
fn write_buffered<W: Sink>(buffered: &mut Vec<u8>, out: &mut W) -> Result<(), Fault>
    ensures empty { OnOk result (buffered.new.items ≡ []) }
    ensures written { OnOk result (AppendsUpTo (W.contents out.old) (W.contents out.new) buffered.old.items []) }
    ensures front { IfErr result (λ e. AppendsFront (W.contents out.old) (W.contents out.new) e buffered.old.items) }
    ensures fault { IfErr result (λ e. e ≡ WriteFailed) }
    ensures cause { OnErr result (Raises (W.failed out.old) (W.failed out.new)) }
    ensures none_failed { OnOk result (W.failed out.new ≡ W.failed out.old) }
{
    write_bytes(buffered.as_slice(), out)?;
    buffered.clear();
    Ok(())
}

/// Gathers an answer line.
fn gather(reply: &Reply, buffered: &mut Vec<u8>) -> Result<(), Fault>
    ensures line { OnOk result (buffered.new.items ≡ buffered.old.items ++ answer_line reply.now) }
    ensures memory { IfErr result (λ e. e ≡ OutOfMemory) }
{
    match write_answer(reply, buffered) {
        Ok(()) => Ok(()),
        Err(_) => Err(Fault::OutOfMemory),
    }
}

/// Gathers what stands in front of a document's text.
fn gather_front(payload: &Payload, buffered: &mut Vec<u8>) -> Result<(), Fault>
    ensures front { OnOk result (buffered.new.items ≡ buffered.old.items ++ document_front payload.now) }
    ensures memory { IfErr result (λ e. e ≡ OutOfMemory) }
{
    match write_front(payload, buffered) {
        Ok(()) => Ok(()),
        Err(_) => Err(Fault::OutOfMemory),
    }
}

/// Writes a document as it lies, behind what is gathered, and gathers the end of its line.
fn write_long<W: Sink>(payload: &Payload, buffered: &mut Vec<u8>, out: &mut W) -> Result<(), Fault>
    ensures told { OnOk result (AppendsUpTo (W.contents out.old) (W.contents out.new) (buffered.old.items ++ document_line payload.now) buffered.new.items) }
    ensures front { IfErr result (λ e. AppendsFront (W.contents out.old) (W.contents out.new) e (buffered.old.items ++ document_line payload.now)) }
    ensures fault { IfErr result (λ e. (e ≡ WriteFailed) ⊎ (e ≡ OutOfMemory)) }
    ensures cause { Cause WriteFailed (W.failed out.old) (W.failed out.new) result }
    ensures none_failed { OnOk result (W.failed out.new ≡ W.failed out.old) }
{
    gather_front(payload, buffered)?;
    write_buffered(buffered, out)?;
    write_bytes(payload.text.as_slice(), out)?;
    buffered.push(b'\n')?;
    Ok(())
}

/// Gathers an answer line, and writes what is gathered where that is enough. A document that is
/// enough by itself is written as it lies, behind what is gathered.
fn gather_answer<W: Sink>(reply: &Reply, buffered: &mut Vec<u8>, out: &mut W) -> Result<(), Fault>
    ensures told { OnOk result (AppendsUpTo (W.contents out.old) (W.contents out.new) (buffered.old.items ++ answer_line reply.now) buffered.new.items) }
    ensures front { IfErr result (λ e. AppendsFront (W.contents out.old) (W.contents out.new) e (buffered.old.items ++ answer_line reply.now)) }
    ensures fault { IfErr result (λ e. (e ≡ WriteFailed) ⊎ (e ≡ OutOfMemory)) }
    ensures cause { Cause WriteFailed (W.failed out.old) (W.failed out.new) result }
    ensures none_failed { OnOk result (W.failed out.new ≡ W.failed out.old) }
{
    if let Reply::Doc(payload) = reply
        && payload.text.as_slice().len() >= FLUSH_AT
    {
        return write_long(payload, buffered, out);
    }
    gather(reply, buffered)?;
    if buffered.len() < FLUSH_AT {
        return Ok(());
    }
    write_buffered(buffered, out)
}

/// Writes one line for each reply, in order. A document is not copied where it is long.
///
/// # Errors
///
/// `WriteFailed` where a write fails, and `OutOfMemory`. Then a front of the lines was written.
pub(crate) fn write_answers<W: Sink>(
    alloc: Global,
    replies: &[Reply],
    out: &mut W,
) -> Result<(), Fault>
    ensures written { OnOk result (Appends (W.contents out.old) (W.contents out.new) (answer_lines replies.now)) }
    ensures front { IfErr result (λ e. AppendsFront (W.contents out.old) (W.contents out.new) e (answer_lines replies.now)) }
    ensures fault { IfErr result (λ e. (e ≡ WriteFailed) ⊎ (e ≡ OutOfMemory)) }
    // A failed write has raised the count of failures.
    ensures cause { Cause WriteFailed (W.failed out.old) (W.failed out.new) result }
    ensures none_failed { OnOk result (W.failed out.new ≡ W.failed out.old) }
{
    let mut buffered = Vec::with_capacity(alloc, ROOM)?;
    for reply in replies {
        gather_answer(reply, &mut buffered, out)?;
    }
    write_buffered(&mut buffered, out)
}
