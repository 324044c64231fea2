//! Answers over a hub.
ghost use Rattle.std.specs.Prelude.{◌≡◌, Ok};
ghost use Rattle.disco_hub.specs.Transitions.{KeepsRest};
ghost use Rattle.disco_message.specs.ReplyText.{reply_view};
ghost use Rattle.disco_calls.specs.Calls.{call, loads, call_view, shows, shows_id, writes};
ghost use Rattle.disco_registry.specs.Op.{op_view};
ghost use Rattle.disco_server.specs.Replies.{IsAnswered, KeepsAsked, shared_text};

use crate::replies::{lacking, refused, showing, success_of, wrote};
use crate::shared::Shared;
use disco_calls::{Call, Routes, call_of};
use disco_hub::Hub;
use disco_message::{Reply, Request};
use disco_registry::Op;
use disco_values::{DocKey, Form, Key, Text};
use std::alloc::Global;

/// Serves the document of a key.
fn load(hub: &mut Hub, key: &DocKey, now: u64) -> Reply<Shared>
    ensures answered { IsAnswered hub.old hub.new (Ok (loads key.now)) now (reply_view shared_text result) }
    ensures kept { KeepsAsked hub.old hub.new (Ok (loads key.now)) }
    ensures rest { KeepsRest hub.old hub.new }
{
    showing(hub.load(key))
}

/// Serves the document of an instance.
fn instance(hub: &mut Hub, key: &Key, form: Form, now: u64) -> Reply<Shared>
    ensures answered { IsAnswered hub.old hub.new (Ok (shows key.now form)) now (reply_view shared_text result) }
    ensures same { hub.new ≡ hub.old }
{
    showing(hub.instance(key, form))
}

/// Serves the document of the instance of an id.
fn by_id(hub: &mut Hub, id: &Text, form: Form, now: u64) -> Reply<Shared>
    ensures answered { IsAnswered hub.old hub.new (Ok (shows_id id.now form)) now (reply_view shared_text result) }
    ensures same { hub.new ≡ hub.old }
{
    showing(hub.by_id(id.as_str(), form))
}

/// Does an operation.
fn write(hub: &mut Hub, op: Op, now: u64) -> Reply<Shared>
    ensures answered { IsAnswered hub.old hub.new (Ok (writes (op_view op))) now (reply_view shared_text result) }
    ensures kept { KeepsAsked hub.old hub.new (Ok (writes (op_view op))) }
    ensures rest { KeepsRest hub.old hub.new }
{
    let success = success_of(&op);
    wrote(hub.write(op, now), success)
}

/// Does what is called for.
fn answer_call(hub: &mut Hub, call: Call, now: u64) -> Reply<Shared>
    ensures answered { IsAnswered hub.old hub.new (Ok (call_view call)) now (reply_view shared_text result) }
    ensures kept { KeepsAsked hub.old hub.new (Ok (call_view call)) }
    ensures rest { KeepsRest hub.old hub.new }
{
    match call {
        Call::Load(key) => load(hub, &key, now),
        Call::Instance(key, form) => instance(hub, &key, form, now),
        Call::ById(id, form) => by_id(hub, &id, form, now),
        Call::Write(op) => write(hub, op, now),
        Call::Lacks(allow) => lacking(allow),
    }
}

/// The reply to a request at a moment in milliseconds, of which the hub does what it asks for. It keeps
/// no document but the one that is asked for. `ServiceUnavailable` may stand in the place of another reply where memory is refused, and then
/// nothing has happened.
pub fn answer_hub(
    alloc: Global,
    routes: &Routes,
    hub: &mut Hub,
    request: &Request,
    now: u64,
) -> Reply<Shared>
    ensures answered { IsAnswered hub.old hub.new (call request.now) now (reply_view shared_text result) }
    ensures kept { KeepsAsked hub.old hub.new (call request.now) }
    ensures rest { KeepsRest hub.old hub.new }
{
    match call_of(alloc, routes, request) {
        Ok(call) => answer_call(hub, call, now),
        Err(fault) => refused(fault),
    }
}
