//! Replies that go out: the answer to a request, or its refusal.
ghost use Rattle.std.specs.Prelude.{◌≡◌, ◌+◌, ◌-◌, ◌^◌, ◌≤◌, ◌<◌, None, Some, min, nat_le, vec_len};
ghost use Rattle.std.specs.Vec.{vec_capacity};
ghost use Rattle.disco_message.specs.ReplyText.{reply_view};
ghost use Rattle.disco_http.specs.Exchanges.{IsPut};
ghost use Rattle.disco_http.specs.Served.{end_behind, refused};

use crate::incoming::Room;
use crate::replies::put;
use crate::service::Service;
use crate::session::{End, end_behind};
use disco_message::{Document, Limits, Reply, Request, refusal};
use disco_values::Fault;

/// A reply that is going out.
#[derive(Drop)]
pub(crate) struct Outgoing<D> {
    pub(crate) reply: Reply<D>,
    /// How the connection ends behind it, if it does.
    pub(crate) end: Option<End>,
    /// How many bytes of it are still to be written.
    pub(crate) left: usize,
}

/// A reply of which nothing is written, put into the room.
fn going_out<D: Document>(text: &mut Vec<u8>, reply: Reply<D>, end: Option<End>) -> Outgoing<D>
    requires { 4352 ≤ vec_capacity text.old }
    ensures reply { result.reply ≡ reply }
    ensures end { result.end ≡ end }
    ensures put { IsPut D.content text.new.items result }
    ensures capacity { vec_capacity text.old ≤ vec_capacity text.new }
{
    let left = put(text, &reply, end.is_some());
    Outgoing { reply, end, left }
}

/// The refusal of a request.
pub(crate) fn refuse<D: Document>(text: &mut Vec<u8>, fault: Fault) -> Outgoing<D>
    requires { 4352 ≤ vec_capacity text.old }
    ensures reply { reply_view D.content result.reply ≡ refused fault }
    ensures end { result.end ≡ Some (End.Fault fault) }
    ensures put { IsPut D.content text.new.items result }
    ensures capacity { vec_capacity text.old ≤ vec_capacity text.new }
{
    let reply = Reply {
        status: refusal(fault),
        allow: None,
        document: None,
        cert: None,
    };
    going_out(text, reply, Some(End::Fault(fault)))
}

/// The answer of a service to a request, which is counted. The room of the request is kept.
pub(crate) fn answer<S: Service>(
    limits: &Limits,
    requests: &mut u64,
    room: &mut Room,
    text: &mut Vec<u8>,
    service: &mut S,
    request: Request,
) -> Outgoing<S::Body>
    requires { 4352 ≤ vec_capacity text.old }
    ensures answers { S.answers service.old request (reply_view S.Body.content result.reply) service.new }
    ensures end { result.end ≡ end_behind request.closes (nat_le limits.now.requests requests.new) }
    ensures counted { requests.new ≡ min (requests.old + 1) (2 ^ 64 - 1) }
    ensures few { requests.old < limits.now.requests → requests.new ≡ requests.old + 1 }
    ensures goes { result.end ≡ None → requests.new < limits.now.requests }
    ensures put { IsPut S.Body.content text.new.items result }
    ensures capacity { vec_capacity text.old ≤ vec_capacity text.new }
    ensures places { vec_len room.new.spans ≡ vec_len room.old.spans }
{
    *requests = requests.saturating_add(1);
    let last = *requests >= limits.requests;
    let reply = service.call(&request);
    let end = end_behind(request.closes(), last);
    room.keep(request);
    going_out(text, reply, end)
}
