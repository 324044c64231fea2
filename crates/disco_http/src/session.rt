//! One connection, from its first request to its end.
ghost use Rattle.std.specs.Prelude.{◌≡◌, ◌+◌, ◌≤◌, ◌<◌, [], ℕ, List, Option, IfOk, IfSome, IsFalse, IsTrue, None, OnErr, OnOk, Some, vec_len, length};
ghost use Rattle.std.specs.List.{concat};
ghost use Rattle.std.specs.Vec.{vec_capacity};
ghost use Rattle.std.specs.Io.KnownBytes.{Consumes, IsAtEnd};
ghost use Rattle.disco_values.specs.declared.fault.Fault.TheVariants.{ReadFailed, WriteFailed};
ghost use Rattle.disco_message.specs.RequestView as message;
ghost use Rattle.disco_http.specs.Causes.{Counts, Raises};
ghost use Rattle.disco_http.specs.Streams.{ahead, is_spent, reader_limits, source_of};
ghost use Rattle.disco_http.specs.Exchanges.{Exchanged, GoesOn, IsPut, PutsOut, Reads, Replies, SoFar, Stands, StopsReading, to_come};
ghost use Rattle.disco_http.specs.Served.{end_behind, left_by, AnswersAll};
ghost use Rattle.disco_http.specs.Sessions.{HasDone};
ghost use Rattle.disco_http.specs.declared.steps.State.TheVariants as state;
ghost use Rattle.disco_http.specs.Sinks.{sink_of};
ghost use Rattle.disco_http.specs.Sinks as sinks;
ghost use Rattle.disco_http.specs.Unread.{bytes_of};

use crate::incoming::{Incoming, Room};
use crate::outgoing::Outgoing;
use crate::reader::Reader;
use crate::replies::body_of;
use crate::service::Service;
use crate::source::{Failed, Sink, Source};
use crate::steps::{Session, State};
use crate::writer::Writer;
use disco_message::{Document, Request};
use disco_values::Fault;
use std::alloc::Global;
use std::mem;

/// Why a connection ended.
#[derive(Clone, Copy, Debug, PartialEq, Eq)]
pub enum End {
    /// The input ended between requests.
    Closed,
    /// A request asked for it.
    Asked,
    /// It was the last request that a connection may make.
    Limit,
    /// A request was refused, or a read or a write failed.
    Fault(Fault),
}

/// What a connection came to.
#[derive(Clone, Copy, Debug, PartialEq, Eq)]
pub struct Served {
    /// How many requests were whole, and given to the service.
    pub requests: u64,
    pub end: End,
}

/// How a connection ends behind a request, if it does.
pub(crate) fn end_behind(closes: bool, last: bool) -> Option<End>
    ensures { result ≡ end_behind closes last }
{
    if last {
        Some(End::Limit)
    } else if closes {
        Some(End::Asked)
    } else {
        None
    }
}

/// Reads once for a session that waits, and tells it where the input has ended.
fn read<R: Source, D: Document + Drop>(
    session: &mut Session<D>,
    source: &mut R,
) -> Result<(), Failed>
    requires waits { session.old.state ≡ state.Waits }
    requires goes { IsFalse session.old.has_ended }
    requires room { length (bytes_of session.old.incoming.unread) < vec_len session.old.incoming.unread.buffer }
    requires size { vec_len session.old.incoming.unread.buffer ≡ session.old.limits.head }
    ensures came { OnOk result ((came : List ℕ) × Consumes (R.remaining source.old) (R.remaining source.new) came
        × GoesOn D.content session.old session.new came) }
    ensures looks { OnOk result (session.new.state ≡ state.Looks) }
    ensures less { OnOk result (to_come session.new < to_come session.old) }
    ensures ended { IsTrue session.new.has_ended → IsAtEnd (R.remaining source.new) }
    ensures none { OnErr result (Consumes (R.remaining source.old) (R.remaining source.new) []) }
    ensures cause { Counts (R.failed source.old) (R.failed source.new) result }
    ensures limits { session.new.limits ≡ session.old.limits }
    ensures requests { session.new.requests ≡ session.old.requests }
    ensures size { vec_len session.new.incoming.unread.buffer ≡ vec_len session.old.incoming.unread.buffer }
{
    let count = session.incoming.unread.read_from(source)?;
    session.has_ended = count == 0;
    drop(mem::replace(&mut session.state, State::Looks));
    Ok(())
}

/// Takes the next request, and reads on where the session waits for bytes. With none it is over.
///
/// # Errors
///
/// `Failed` where a read fails. Inside, why what follows is refused.
pub(crate) fn next_request<R: Source, D: Document + Drop>(
    alloc: Global,
    session: &mut Session<D>,
    source: &mut R,
    room: &mut Room,
) -> Result<Result<Option<Request>, Fault>, Failed>
    requires looks { session.old.state ≡ state.Looks }
    requires ended { IsTrue session.old.has_ended → IsAtEnd (R.remaining source.old) }
    requires size { vec_len session.old.incoming.unread.buffer ≡ session.old.limits.head }
    requires places { vec_len room.old.spans ≡ session.old.limits.fields }
    ensures came { (came : List ℕ) × Consumes (R.remaining source.old) (R.remaining source.new) came
        × Reads D.content session.old session.new came result }
    ensures stands { IfOk result (λ found. Stands session.new found) }
    ensures stops { OnOk result (session.new.state ≡ state.Waits → ⊥) }
    ensures ended { IsTrue session.new.has_ended → IsAtEnd (R.remaining source.new) }
    ensures cause { Counts (R.failed source.old) (R.failed source.new) result }
    ensures limits { session.new.limits ≡ session.old.limits }
    ensures requests { session.new.requests ≡ session.old.requests }
    ensures size { vec_len session.new.incoming.unread.buffer ≡ vec_len session.old.incoming.unread.buffer }
    ensures places { vec_len room.new.spans ≡ vec_len room.old.spans }
{
    let mut told = session.stage();
    source.expect(told);
    'reads: loop {
        match session.take_request(alloc, room) {
            Ok(None) if session.waits() => {}
            found => return Ok(found),
        }
        let stage = session.stage();
        if stage != told {
            source.expect(stage);
            told = stage;
        }
        read(session, source)?;
    }
}

/// Reads until a reply goes out, or the session is over.
fn next_reply<R: Source, S: Service>(
    alloc: Global,
    session: &mut Session<S::Body>,
    source: &mut R,
    room: &mut Room,
    text: &mut Vec<u8>,
    service: &mut S,
)
    requires looks { session.old.state ≡ state.Looks }
    requires ended { IsTrue session.old.has_ended → IsAtEnd (R.remaining source.old) }
    requires size { vec_len session.old.incoming.unread.buffer ≡ session.old.limits.head }
    requires places { vec_len room.old.spans ≡ session.old.limits.fields }
    requires capacity { 4352 ≤ vec_capacity text.old }
    ensures came { (came : List ℕ) × Consumes (R.remaining source.old) (R.remaining source.new) came
        × Replies S.Body.content S.answers session.old session.new service.old service.new came }
    ensures stops { StopsReading S.Body.content session.new.limits text.new.items session.old.requests session.new.requests
        (R.failed source.old) (R.failed source.new) session.new.state }
    ensures ended { IsTrue session.new.has_ended → IsAtEnd (R.remaining source.new) }
    ensures limits { session.new.limits ≡ session.old.limits }
    ensures size { vec_len session.new.incoming.unread.buffer ≡ vec_len session.old.incoming.unread.buffer }
    ensures places { vec_len room.new.spans ≡ vec_len room.old.spans }
    ensures capacity { vec_capacity text.old ≤ vec_capacity text.new }
{
    match next_request(alloc, session, source, room) {
        Ok(found) => session.reply(room, text, service, found),
        Err(Failed) => session.fail(Fault::ReadFailed),
    }
}

/// Writes the reply that goes out, if there is one.
fn put_out<W: Sink, D: Document + Drop>(session: &mut Session<D>, writer: &mut Writer<W>)
    requires { (o : Outgoing D) → session.old.state ≡ state.Writes o → IsPut D.content writer.old.room.items o }
    ensures put { PutsOut D.content session.old.state session.new.state (W.contents (sink_of writer.old)) (W.contents (sink_of writer.new))
        (W.failed (sink_of writer.old)) (W.failed (sink_of writer.new)) }
    ensures done { (given : List ℕ) (asks : List message.RequestView) (texts : List (List ℕ)) (out : List ℕ) → HasDone D.content session.old given asks texts out
        → session.new.state ≡ state.Looks → HasDone D.content session.new given asks texts (concat texts) }
    ensures incoming { session.new.incoming ≡ session.old.incoming }
    ensures limits { session.new.limits ≡ session.old.limits }
    ensures ended { session.new.has_ended ≡ session.old.has_ended }
    ensures requests { session.new.requests ≡ session.old.requests }
{
    let State::Writes(outgoing) = &session.state else {
        return;
    };
    let left = outgoing.left;
    match writer.send(left, body_of(&outgoing.reply)) {
        Ok(()) => session.sent(left),
        Err(_) => session.fail(Fault::WriteFailed),
    }
}

/// Steps a session until it is over: reads on until a reply goes out, and writes it. How it ended.
fn answer_all<R: Source, W: Sink, S: Service>(
    alloc: Global,
    session: &mut Session<S::Body>,
    source: &mut R,
    room: &mut Room,
    writer: &mut Writer<W>,
    service: &mut S,
) -> End
    requires looks { session.old.state ≡ state.Looks }
    requires few { session.old.requests < session.old.limits.requests }
    requires ended { IsTrue session.old.has_ended → IsAtEnd (R.remaining source.old) }
    requires size { vec_len session.old.incoming.unread.buffer ≡ session.old.limits.head }
    requires places { vec_len room.old.spans ≡ session.old.limits.fields }
    ensures answers { (stream : List ℕ) (first : S) (before : Option (List ℕ))
        → SoFar S.Body.content S.answers stream first before session.old (R.remaining source.old) service.old (W.contents (sink_of writer.old))
        → Exchanged S.Body.content S.answers stream first before session.new (R.remaining source.new) service.new (W.contents (sink_of writer.new)) (Some result) }
    ensures read_cause { result ≡ End.Fault ReadFailed → Raises (R.failed source.old) (R.failed source.new) }
    ensures write_cause { result ≡ End.Fault WriteFailed → Raises (W.failed (sink_of writer.old)) (W.failed (sink_of writer.new)) }
    ensures limits { session.new.limits ≡ session.old.limits }
    ensures size { vec_len session.new.incoming.unread.buffer ≡ vec_len session.old.incoming.unread.buffer }
    ensures places { vec_len room.new.spans ≡ vec_len room.old.spans }
{
    'replies: loop {
        next_reply(alloc, session, source, room, &mut writer.room, service);
        put_out(session, writer);
        if let Some(end) = session.end() {
            return end;
        }
    }
}

/// Answers the requests of a connection, one after another, until it ends. Then reader and writer are
/// spent.
pub fn serve<R: Source, W: Sink, S: Service>(
    alloc: Global,
    reader: &mut Reader<R>,
    writer: &mut Writer<W>,
    service: &mut S,
) -> Served
    requires { IsFalse (is_spent reader.old) × IsFalse (sinks.is_writer_spent writer.old) }
    // What was written is exactly the answers to the requests of what is read. After a failed read
    // these are the whole requests that had come; at a failed write the last of them was answered in
    // part, and nothing more is read.
    ensures answers { IfSome (ahead R.remaining reader.old) (λ stream.
        AnswersAll S.answers (reader_limits reader.old) stream (left_by R.remaining reader.new) service.old service.new
        (W.contents (sink_of writer.old)) (W.contents (sink_of writer.new)) result) }
    // A connection ends by a failed read or write only where the count of failures rose.
    ensures read_cause { result.end ≡ End.Fault ReadFailed → Raises (R.failed (source_of reader.old)) (R.failed (source_of reader.new)) }
    ensures write_cause { result.end ≡ End.Fault WriteFailed → Raises (W.failed (sink_of writer.old)) (W.failed (sink_of writer.new)) }
    ensures spent { IsTrue (is_spent reader.new) × IsTrue (sinks.is_writer_spent writer.new) }
{
    // The session has what the reader has unread, and gives it back.
    let incoming = mem::replace(&mut reader.incoming, Incoming::none(alloc));
    let mut session = Session::over(reader.limits, incoming);
    let end = answer_all(
        alloc,
        &mut session,
        &mut reader.source,
        &mut reader.room,
        writer,
        service,
    );
    mem::swap(&mut session.incoming, &mut reader.incoming);
    reader.spent = true;
    writer.spend();
    Served {
        requests: session.requests,
        end,
    }
}
