//! Answers of a desk to a seat.
ghost use Rattle.std.specs.Prelude.{Ok, Result};
ghost use Rattle.disco_instance.specs.Instance.{Gives};
ghost use Rattle.disco_values.specs.declared.fault.Fault.{Fault};
ghost use Rattle.disco_hub.specs.Transitions.{KeepsRest};
ghost use Rattle.disco_message.specs.ReplyText.{reply_view};
ghost use Rattle.disco_calls.specs.Calls.{CallView, call, loads, call_view, shows, shows_id, writes};
ghost use Rattle.disco_press.specs.Desks.{NotesNothing};
ghost use Rattle.disco_registry.specs.Op.{op_view};
ghost use Rattle.disco_server.specs.Desks.{IsAnsweredBy, IsAnsweredOn};
ghost use Rattle.disco_server.specs.Replies.{IsAnswered, KeepsAsked, shared_text};

use crate::cancel::cancel;
use crate::replies::{lacking, refused, showing, success_of, wrote};
use crate::shared::Shared;
use disco_calls::{Call, Routes, call_of};
use disco_message::{Reply, Request};
use disco_press::{Desk, Naming, Seat};
use disco_registry::Op;
use disco_values::{DocKey, Fault, Form, Key, Text};
use std::alloc::Global;

/// Serves the document of a key.
fn load<J: Naming>(desk: &mut Desk<J>, key: &DocKey, now: u64) -> Reply<Shared>
    ensures answered { IsAnswered desk.old.hub desk.new.hub (Ok (loads key.now)) now (reply_view shared_text result) }
    ensures kept { KeepsAsked desk.old.hub desk.new.hub (Ok (loads key.now)) }
    ensures noted { NotesNothing desk.old desk.new }
    ensures rest { KeepsRest desk.old.hub desk.new.hub }
{
    showing(desk.load(key))
}

/// Serves the document of an instance.
fn instance<J: Naming>(desk: &Desk<J>, key: &Key, form: Form, now: u64) -> Reply<Shared>
    ensures { IsAnswered desk.now.hub desk.now.hub (Ok (shows key.now form)) now (reply_view shared_text result) }
{
    showing(desk.instance(key, form))
}

/// Serves the document of the instance of an id.
fn by_id<J: Naming>(desk: &Desk<J>, id: &Text, form: Form, now: u64) -> Reply<Shared>
    ensures { IsAnswered desk.now.hub desk.now.hub (Ok (shows_id id.now form)) now (reply_view shared_text result) }
{
    showing(desk.by_id(id.as_str(), form))
}

/// Does an operation for a seat, once.
fn apply<J: Naming>(desk: &mut Desk<J>, seat: &mut Seat<J>, op: Op, now: u64) -> Reply<Shared>
    ensures answered { IsAnsweredOn desk.old desk.new seat.old seat.new (Ok (writes (op_view op))) now (reply_view shared_text result) }
    ensures kept { KeepsAsked desk.old.hub desk.new.hub (Ok (writes (op_view op))) }
    ensures rest { KeepsRest desk.old.hub desk.new.hub }
{
    let success = success_of(&op);
    wrote(desk.write_as(seat, op, now), success)
}

/// Does an operation for a seat. A cancel that is refused memory is done once more.
fn write<J: Naming>(desk: &mut Desk<J>, seat: &mut Seat<J>, op: Op, now: u64) -> Reply<Shared>
    ensures answered { IsAnsweredOn desk.old desk.new seat.old seat.new (Ok (writes (op_view op))) now (reply_view shared_text result) }
    ensures kept { KeepsAsked desk.old.hub desk.new.hub (Ok (writes (op_view op))) }
    ensures rest { KeepsRest desk.old.hub desk.new.hub }
{
    match op {
        Op::Cancel(key) => cancel(desk, seat, &key, now),
        other => apply(desk, seat, other, now),
    }
}

/// Does what is called for.
fn answer_call<J: Naming>(
    desk: &mut Desk<J>,
    seat: &mut Seat<J>,
    call: Call,
    now: u64,
) -> Reply<Shared>
    ensures answered { IsAnsweredOn desk.old desk.new seat.old seat.new (Ok (call_view call)) now (reply_view shared_text result) }
    ensures kept { KeepsAsked desk.old.hub desk.new.hub (Ok (call_view call)) }
    ensures rest { KeepsRest desk.old.hub desk.new.hub }
{
    match call {
        Call::Load(key) => load(desk, &key, now),
        Call::Instance(key, form) => instance(desk, &key, form, now),
        Call::ById(id, form) => by_id(desk, &id, form, now),
        Call::Write(op) => write(desk, seat, op, now),
        Call::Lacks(allow) => lacking(allow),
    }
}

/// Does what is called for, or says why nothing is.
fn answer_called<J: Naming>(
    desk: &mut Desk<J>,
    seat: &mut Seat<J>,
    called: Result<Call, Fault>,
    now: u64,
) -> Reply<Shared>
    ensures answered { (asked : Result CallView Fault) → Gives call_view called asked
        → IsAnsweredOn desk.old desk.new seat.old seat.new asked now (reply_view shared_text result) }
    ensures kept { (asked : Result CallView Fault) → Gives call_view called asked → KeepsAsked desk.old.hub desk.new.hub asked }
    ensures rest { KeepsRest desk.old.hub desk.new.hub }
{
    match called {
        Ok(call) => answer_call(desk, seat, call, now),
        Err(fault) => refused(fault),
    }
}

/// As [`answer_on`], of a request that has been read.
pub(crate) fn answer_read<J: Naming>(
    desk: &mut Desk<J>,
    seat: &mut Seat<J>,
    called: Result<Call, Fault>,
    now: u64,
) -> Reply<Shared>
    ensures answered { (asked : Result CallView Fault) → Gives call_view called asked
        → IsAnsweredBy desk.old desk.new seat.old seat.new asked now (reply_view shared_text result) }
    ensures rest { KeepsRest desk.old.hub desk.new.hub }
{
    // For the proof alone: what holds of every desk.
    desk.check();
    seat.learn(desk);
    let reply = answer_called(desk, seat, called, now);
    seat.learn(desk);
    reply
}

/// The reply to a request at a moment in milliseconds, of which the desk does what it asks for. The
/// seat counts the change that it makes, if it makes one, and knows then what the desk has published.
/// `ServiceUnavailable` may stand in the place of another reply where memory is refused, and then
/// nothing has happened.
pub fn answer_on<J: Naming>(
    alloc: Global,
    routes: &Routes,
    desk: &mut Desk<J>,
    seat: &mut Seat<J>,
    request: &Request,
    now: u64,
) -> Reply<Shared>
    ensures answered { IsAnsweredBy desk.old desk.new seat.old seat.new (call request.now) now (reply_view shared_text result) }
    ensures rest { KeepsRest desk.old.hub desk.new.hub }
{
    answer_read(desk, seat, call_of(alloc, routes, request), now)
}
