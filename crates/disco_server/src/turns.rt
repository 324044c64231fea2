//! Reading of long bodies, one at a time.
ghost use Rattle.disco_instance.specs.Instance.{Gives};
ghost use Rattle.disco_calls.specs.Calls.{call, call_view};

use disco_calls::{Call, Routes, call_of};
use disco_message::Request;
use disco_values::Fault;
use std::alloc::Global;
use std::sync::{Mutex, MutexGuard, Wait};

/// How many bytes a body may have that is read beside others.
const SHORT_BODY: usize = 65_536;

/// What a request asks for, as [`call_of`] says. While a body is read its tree is there, which may take
/// more than a hundred times its bytes: of those of more than 65,536 bytes one is read at a time.
pub(crate) fn call_in_turn<R: Wait>(
    rt: &R,
    alloc: Global,
    routes: &Routes,
    turn: &Mutex<()>,
    request: &Request,
) -> Result<Call, Fault>
    ensures { Gives call_view result (call request.now) }
{
    if request.body().len() <= SHORT_BODY {
        return call_of(alloc, routes, request);
    }
    let guard = turn.lock(rt);
    let called = call_of(alloc, routes, request);
    MutexGuard::unlock(guard);
    called
}
