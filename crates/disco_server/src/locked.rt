//! Answers of a desk under a lock, and of looks without it.
ghost use Rattle.std.specs.Prelude.{◌≡◌, IfSome, Result};
ghost use mathlib.Core.List.{IsPrefix};
ghost use Rattle.disco_instance.specs.Instance.{Gives};
ghost use Rattle.disco_values.specs.declared.fault.Fault.{Fault};
ghost use Rattle.disco_message.specs.ReplyText.{reply_view};
ghost use Rattle.disco_calls.specs.Calls.{CallView, call, call_view};
ghost use Rattle.disco_server.specs.Desks.{IsAnsweredBySome, IsLooked, IsLookOrCall};
ghost use Rattle.disco_server.specs.Replies.{shared_text};

use crate::desk::answer_read;
use crate::desk_service::ServerContext;
use crate::replies::showing;
use crate::shared::Shared;
use crate::spin::spin_and_lock;
use crate::turns::call_in_turn;
use disco_calls::{Call, Routes, call_of};
use disco_message::{Reply, Request};
use disco_press::{Desk, Looked, Naming, Seat};
use disco_values::Fault;
use std::alloc::Global;
use std::sync::{Mutex, MutexGuard, Wait};

/// The document that is called for, where a look finds it.
fn looked<J: Naming>(seat: &mut Seat<J>, called: &Result<Call, Fault>) -> Option<Reply<Shared>>
    ensures looked { IfSome result (λ reply. (asked : Result CallView Fault) → Gives call_view called.now asked
        → IsLooked seat.old seat.new asked (reply_view shared_text reply)) }
    ensures known { IsPrefix seat.old.known seat.new.known }
    ensures heard { seat.new.heard ≡ seat.old.heard }
    ensures count { seat.new.changes ≡ seat.old.changes }
{
    let Ok(Call::Load(key)) = called else {
        return None;
    };
    match seat.look(key) {
        Looked::Doc(payload) => Some(showing(Ok(payload))),
        Looked::Miss | Looked::Shut => None,
    }
}

/// What the desk answers once no other thread has its lock.
fn answer_locked<J: Naming, R: Wait>(
    rt: &R,
    desk: &Mutex<Desk<J>>,
    seat: &mut Seat<J>,
    called: Result<Call, Fault>,
    now: u64,
) -> Reply<Shared>
    ensures answered { (asked : Result CallView Fault) → Gives call_view called asked
        → IsAnsweredBySome seat.old seat.new asked now (reply_view shared_text result) }
    ensures known { IsPrefix seat.old.known seat.new.known }
{
    let mut guard = spin_and_lock(rt, desk);
    let reply = answer_read(&mut *guard, seat, called, now);
    MutexGuard::unlock(guard);
    reply
}

/// The reply to what is called for: where that is a document which readers share, the seat looks for
/// it first.
fn answer_called<J: Naming, R: Wait>(
    rt: &R,
    desk: &Mutex<Desk<J>>,
    seat: &mut Seat<J>,
    called: Result<Call, Fault>,
    now: u64,
) -> Reply<Shared>
    ensures told { (asked : Result CallView Fault) → Gives call_view called asked
        → IsLookOrCall seat.old seat.new asked now (reply_view shared_text result) }
    ensures known { IsPrefix seat.old.known seat.new.known }
{
    match looked(seat, &called) {
        Some(reply) => reply,
        None => answer_locked(rt, desk, seat, called, now),
    }
}

/// The reply to a request at a moment, as [`answer`] gives it, for a worker of a server: of long bodies
/// one is read at a time.
pub(crate) fn answer_in<J: Naming, R: Wait, G>(
    context: &ServerContext<'_, J, R, G>,
    routes: &Routes,
    seat: &mut Seat<J>,
    request: &Request,
    now: u64,
) -> Reply<Shared>
    ensures told { IsLookOrCall seat.old seat.new (call request.now) now (reply_view shared_text result) }
    ensures known { IsPrefix seat.old.known seat.new.known }
{
    let called = call_in_turn(
        context.rt,
        context.alloc,
        routes,
        &context.long_body,
        request,
    );
    answer_called(context.rt, context.desk, seat, called, now)
}

/// The reply to a request at a moment in milliseconds. Where it asks for a document that readers
/// share, the seat looks for it first, without the lock and waiting for nobody. What no look finds,
/// and every other request, the desk answers under its lock, as [`crate::answer_on`] does.
pub fn answer<J: Naming, R: Wait>(
    rt: &R,
    alloc: Global,
    routes: &Routes,
    desk: &Mutex<Desk<J>>,
    seat: &mut Seat<J>,
    request: &Request,
    now: u64,
) -> Reply<Shared>
    ensures told { IsLookOrCall seat.old seat.new (call request.now) now (reply_view shared_text result) }
    ensures known { IsPrefix seat.old.known seat.new.known }
{
    let called = call_of(alloc, routes, request);
    answer_called(rt, desk, seat, called, now)
}
