//! Cancels for a seat.
ghost use Rattle.std.specs.Prelude.{◌≡◌, Err, MatchResult, Ok, OnErr, true};
ghost use Rattle.disco_values.specs.declared.fault.Fault.TheVariants.{OutOfMemory};
ghost use Rattle.disco_core.specs.Past.{Past};
ghost use Rattle.disco_hub.specs.State.{HubStandsFor};
ghost use Rattle.disco_hub.specs.Transitions.{KeepsRest};
ghost use Rattle.disco_message.specs.ReplyText.{ReplyView, reply_view};
ghost use Rattle.disco_calls.specs.Calls.{writes};
ghost use Rattle.disco_press.specs.Desks.{NotesNothing};
ghost use Rattle.disco_registry.specs.Op as op;
ghost use Rattle.disco_server.specs.Desks.{IsAnsweredOn};
ghost use Rattle.disco_server.specs.Replies.{KeepsAsked, plain, refusal_answer, shared_text};

use crate::replies::wrote;
use crate::shared::Shared;
use disco_message::{Reply, StatusCode};
use disco_press::{Desk, Naming, Seat};
use disco_registry::{Applied, Op};
use disco_values::{Fault, Key};

/// Cancels the instance of a key. What is refused has done nothing.
fn cancel_key<J: Naming>(
    desk: &mut Desk<J>,
    seat: &mut Seat<J>,
    key: Key,
    now: u64,
) -> Result<Applied, Fault>
    ensures told { (y : ReplyView) → MatchResult result (λ _. y ≡ plain 200) (λ e. y ≡ refusal_answer e)
        → IsAnsweredOn desk.old desk.new seat.old seat.new (Ok (writes (op.cancel key))) now y }
    ensures kept { KeepsAsked desk.old.hub desk.new.hub (Ok (writes (op.cancel key))) }
    ensures stands { OnErr result ((p : Past) → HubStandsFor desk.old.hub p → HubStandsFor desk.new.hub p) }
    ensures noted { OnErr result (NotesNothing desk.old desk.new) }
    ensures seat { OnErr result (seat.new ≡ seat.old) }
    ensures rest { KeepsRest desk.old.hub desk.new.hub }
{
    desk.write_as(seat, Op::Cancel(key), now)
}

/// Cancels the instance of a key that is lent, as [`cancel_key`] does.
fn cancel_once<J: Naming>(
    desk: &mut Desk<J>,
    seat: &mut Seat<J>,
    key: &Key,
    now: u64,
) -> Result<Applied, Fault>
    ensures told { (y : ReplyView) → MatchResult result (λ _. y ≡ plain 200) (λ e. y ≡ refusal_answer e)
        → IsAnsweredOn desk.old desk.new seat.old seat.new (Ok (writes (op.cancel key.now))) now y }
    ensures kept { KeepsAsked desk.old.hub desk.new.hub (Ok (writes (op.cancel key.now))) }
    ensures stands { OnErr result ((p : Past) → HubStandsFor desk.old.hub p → HubStandsFor desk.new.hub p) }
    ensures noted { OnErr result (NotesNothing desk.old desk.new) }
    ensures seat { OnErr result (seat.new ≡ seat.old) }
    ensures rest { KeepsRest desk.old.hub desk.new.hub }
{
    match key.clone() {
        Ok(key) => cancel_key(desk, seat, key, now),
        Err(_) => Err(Fault::OutOfMemory),
    }
}

/// Cancels the instance of a key without the desk's reserve, which is taken again behind that.
fn cancel_again<J: Naming>(
    desk: &mut Desk<J>,
    seat: &mut Seat<J>,
    key: &Key,
    now: u64,
) -> Reply<Shared>
    ensures answered { IsAnsweredOn desk.old desk.new seat.old seat.new (Ok (writes (op.cancel key.now))) now (reply_view shared_text result) }
    ensures kept { KeepsAsked desk.old.hub desk.new.hub (Ok (writes (op.cancel key.now))) }
    ensures rest { KeepsRest desk.old.hub desk.new.hub }
{
    let _some = desk.give_up_reserve();
    let done = cancel_once(desk, seat, key, now);
    desk.take_reserve_again();
    wrote(done, StatusCode::OK)
}

/// Whether memory was refused.
fn lacks_memory(done: &Result<Applied, Fault>) -> bool
    ensures { result ≡ true → done.now ≡ Err OutOfMemory }
{
    matches!(done, Err(Fault::OutOfMemory))
}

/// Cancels the instance of a key for a seat. Where memory is refused, it is done once more without the
/// desk's reserve.
pub(crate) fn cancel<J: Naming>(
    desk: &mut Desk<J>,
    seat: &mut Seat<J>,
    key: &Key,
    now: u64,
) -> Reply<Shared>
    ensures answered { IsAnsweredOn desk.old desk.new seat.old seat.new (Ok (writes (op.cancel key.now))) now (reply_view shared_text result) }
    ensures kept { KeepsAsked desk.old.hub desk.new.hub (Ok (writes (op.cancel key.now))) }
    ensures rest { KeepsRest desk.old.hub desk.new.hub }
{
    let done = cancel_once(desk, seat, key, now);
    if lacks_memory(&done) {
        return cancel_again(desk, seat, key, now);
    }
    wrote(done, StatusCode::OK)
}
