//! Runs of events.
ghost use Rattle.std.specs.Prelude.{◌≡◌, ◌≢◌, length, IfOk, IfErr, IfSome, IfNone, None, Ok, Result, Some, option_map};
ghost use Rattle.std.specs.BTreeMap as tree;
ghost use Rattle.std.specs.FinMap.{empty};
ghost use Rattle.disco_instance.specs.Instance.{Gives};
ghost use Rattle.disco_values.specs.declared.fault.Fault.{Fault};
ghost use Rattle.disco_values.specs.declared.fault.Fault.TheVariants.{OutOfMemory};
ghost use Rattle.disco_values.specs.declared.key.Key.{Key as SpecKey};
ghost use Rattle.disco_registry.specs.Op as asking;
ghost use Rattle.disco_registry.specs.Op.{OpView, op_view};
ghost use Rattle.disco_core.specs.Past.{nothing};
ghost use Rattle.disco_core.specs.State.{rules};
ghost use Rattle.disco_hub.specs.State.{HubStandsFor, rules_of};
ghost use Rattle.disco_world.specs.Answers.{AreAnswers, AreExact, AreKnown, AreServed, IsFirstBadEvent, NeverFall};
ghost use Rattle.disco_world.specs.Events.{World, bad, closes, effect, doc_in, doc_of_event, expires, for_clients, writes};
ghost use Rattle.disco_world.specs.Outcomes.{new_cache};
ghost use Rattle.disco_world.specs.Levels.{AreLevelsOf, AnswersEvent};
ghost use Rattle.disco_world.specs.Steps.{AreHeld, AreReadable, Performs, cache_of, holders, reply_to, reply_to_give, reply_to_show, reply_to_take};
ghost use Rattle.disco_world.specs.declared.event.Event.TheVariants as event;

use crate::asks::{add_metadata, cancel, copied_key, drop_status, set_status};
use crate::certified::{Given, give};
use crate::clients::{Clients, Told, show, show_certified, take};
use crate::event::{Event, Reply, Step};
use crate::instance_summary::InstanceSummaries;
use crate::levels::CacheLevels;
use crate::loads::{load, load_by_id};
use crate::restarts::restart;
use crate::rounds::{begin, copy, look, publish};
use disco_cache::Payload;
use disco_hub::Hub;
use disco_operations::register;
use disco_registry::{Applied, Op};
use disco_values::{Fault, Key, Query, Settings};
use std::alloc::Global;

/// Runs the events in order from an empty registry, in the run that the settings name, and answers
/// each. An event that finds no memory is answered so and changes nothing; a run of cancels that
/// finds none says so behind how many are gone.
///
/// # Errors
///
/// `BadEvent`, with the number of the first such event counted from 1, where a client is to take
/// what is no earlier served document of all apps and no delta, and `OutOfMemory` where no room for
/// the replies is found.
pub fn run(alloc: Global, settings: &Settings, events: &[Event]) -> Result<Vec<Reply>, Fault>
    ensures each { IfOk result (λ replies. length replies.items ≡ length events.now) }
    ensures answers { IfOk result (λ replies. AreAnswers settings.now.entries (rules settings.now) settings.now.run events.now replies.items) }
    ensures served { IfOk result (λ replies. AreServed (rules settings.now) settings.now.run events.now replies.items) }
    ensures known { IfOk result (λ replies. AreKnown (rules settings.now) settings.now.run events.now replies.items) }
    ensures exact { IfOk result (λ replies. AreExact (rules settings.now) settings.now.run events.now replies.items) }
    ensures rising { IfOk result (λ replies. NeverFall (rules settings.now) settings.now.run events.now replies.items) }
    ensures refused { IfErr result (λ e. e ≢ OutOfMemory → IsFirstBadEvent settings.now.entries (rules settings.now) settings.now.run events.now e) }
{
    let mut levels = CacheLevels::new(alloc, settings);
    let mut clients = Clients::new(alloc);
    run_all(alloc, settings, &mut levels, &mut clients, events)
}

/// Runs the events over an empty registry, of which no client has a copy.
fn run_all(
    alloc: Global,
    settings: &Settings,
    levels: &mut CacheLevels,
    clients: &mut Clients,
    events: &[Event],
) -> Result<Vec<Reply>, Fault>
    requires stands { HubStandsFor levels.old.hub (nothing settings.now.run) }
    requires ruled { rules_of levels.old.hub ≡ rules settings.now }
    requires cache { cache_of levels.old.hub ≡ new_cache settings.now.entries }
    requires published { levels.old.published ≡ empty }
    requires plain { tree.IsEmpty clients.old.plain }
    requires certified { tree.IsEmpty clients.old.certified }
    ensures each { IfOk result (λ replies. length replies.items ≡ length events.now) }
    ensures answers { IfOk result (λ replies. AreAnswers settings.now.entries (rules settings.now) settings.now.run events.now replies.items) }
    ensures served { IfOk result (λ replies. AreServed (rules settings.now) settings.now.run events.now replies.items) }
    ensures known { IfOk result (λ replies. AreKnown (rules settings.now) settings.now.run events.now replies.items) }
    ensures exact { IfOk result (λ replies. AreExact (rules settings.now) settings.now.run events.now replies.items) }
    ensures rising { IfOk result (λ replies. NeverFall (rules settings.now) settings.now.run events.now replies.items) }
    ensures refused { IfErr result (λ e. e ≢ OutOfMemory → IsFirstBadEvent settings.now.entries (rules settings.now) settings.now.run events.now e) }
{
    let mut replies = Vec::new(alloc);
    for event in events {
        let Some(reply) = answer(alloc, settings, levels, clients, replies.as_slice(), event) else {
            return Err(Fault::BadEvent(replies.len() as u64 + 1));
        };
        replies.push(reply)?;
    }
    Ok(replies)
}

/// Answers one event, by the replies to the earlier ones. None where the event can't be run.
fn answer(
    alloc: Global,
    settings: &Settings,
    levels: &mut CacheLevels,
    clients: &mut Clients,
    replies: &[Reply],
    event: &Event,
) -> Option<Reply>
    requires ruled { rules_of levels.old.hub ≡ rules settings.now }
    requires room { levels.old.hub.docs.max ≡ settings.now.entries }
    requires readable { AreReadable replies.now }
    ensures is_bad { IfNone result ((w : World) → w.replies ≡ replies.now → effect (rules_of levels.old.hub) w event.now ≡ bad) }
    ensures does { IfSome result (λ r. (w : World) → w.replies ≡ replies.now → AreHeld (holders clients.old) w → AreLevelsOf levels.old w
        → AnswersEvent (rules_of levels.old.hub) w event.now r levels.old.hub levels.new (holders clients.new)) }
    ensures rules { rules_of levels.new.hub ≡ rules_of levels.old.hub }
{
    match event {
        Event::Step(step) => Some(answer_step(alloc, settings, levels, clients, step)),
        Event::Take { client, event } => match document(replies, *event) {
            Some(payload) => Some(took(take(alloc, &mut clients.plain, *client, payload))),
            None => None,
        },
        Event::Certify { client, event } => match document(replies, *event) {
            Some(payload) => Some(gave(give(alloc, &mut clients.certified, *client, payload))),
            None => None,
        },
    }
}

/// Answers one event that needs no earlier reply.
fn answer_step(
    alloc: Global,
    settings: &Settings,
    levels: &mut CacheLevels,
    clients: &Clients,
    step: &Step,
) -> Reply
    requires ruled { rules_of levels.old.hub ≡ rules settings.now }
    requires room { levels.old.hub.docs.max ≡ settings.now.entries }
    ensures does { (w : World) → AreHeld (holders clients.now) w → AreLevelsOf levels.old w
        → AnswersEvent (rules_of levels.old.hub) w (event.Step step.now) result levels.old.hub levels.new (holders clients.now) }
    ensures rules { rules_of levels.new.hub ≡ rules_of levels.old.hub }
{
    match step {
        Step::Register { now, app, json } => write(
            &mut levels.hub,
            *now,
            register(alloc, app, json.as_slice()),
        ),
        Step::Cancel { now, app, id } => write(&mut levels.hub, *now, cancel(alloc, app, id)),
        Step::Renew { now, app, id } => renew(&mut levels.hub, *now, copied_key(alloc, app, id)),
        Step::SetStatus {
            now,
            app,
            id,
            status,
        } => write(&mut levels.hub, *now, set_status(alloc, app, id, status)),
        Step::DropStatus {
            now,
            app,
            id,
            status,
        } => write(&mut levels.hub, *now, drop_status(alloc, app, id, status)),
        Step::Metadata {
            now,
            app,
            id,
            entries,
        } => write(&mut levels.hub, *now, add_metadata(alloc, app, id, entries)),
        Step::Load { key } => load(alloc, &mut levels.hub, key),
        Step::LoadById { id, form } => load_by_id(&levels.hub, id, *form),
        Step::Clean { now } => Reply::Cleaned(levels.hub.clean(*now)),
        Step::Minute => close(&mut levels.hub),
        Step::Expire { now } => expire(&mut levels.hub, *now),
        Step::Begin => begin(alloc, levels),
        Step::Copy => copy(alloc, levels),
        Step::Publish => publish(alloc, levels),
        Step::Look { key } => look(alloc, &levels.published, key),
        Step::LookById { .. } => Reply::Missed,
        Step::Show { client } => showed(show(alloc, &clients.plain, *client)),
        Step::ShowCertified { client } => {
            showed(show_certified(alloc, &clients.certified, *client))
        }
        Step::Restart { run } => restart(alloc, settings, levels, *run),
    }
}

/// Closes a minute.
fn close(hub: &mut Hub) -> Reply
    ensures does { Performs hub.old hub.new (λ _. closes) result }
    ensures rules { rules_of hub.new ≡ rules_of hub.old }
    ensures rounds { hub.new.rounds ≡ hub.old.rounds }
{
    Reply::Closed(hub.close_minute())
}

/// Cancels the instances whose leases have run out.
fn expire(hub: &mut Hub, now: u64) -> Reply
    ensures does { Performs hub.old hub.new (λ _. expires now) result }
    ensures rules { rules_of hub.new ≡ rules_of hub.old }
    ensures rounds { hub.new.rounds ≡ hub.old.rounds }
{
    Reply::Expired(hub.expire(now))
}

fn for_clients(query: &Query) -> bool
    ensures { result ≡ for_clients query.now }
{
    matches!(query, Query::Apps | Query::Delta)
}

fn document_in(reply: &Reply) -> Option<&Payload>
    ensures { option_map (λ d. d.now) result ≡ doc_in (Some reply.now) }
{
    match reply {
        Reply::Doc(payload) if for_clients(&payload.key.query) => Some(&**payload),
        _ => None,
    }
}

/// The document that the event of that number, from 1, answered, where a client can take it.
fn document(replies: &[Reply], event: u64) -> Option<&Payload>
    ensures { option_map (λ d. d.now) result ≡ doc_of_event replies.now event }
{
    if event == 0 || event > replies.len() as u64 {
        return None;
    }
    document_in(&replies[event as usize - 1])
}

/// The reply to a take.
fn took(told: Result<Told, Fault>) -> Reply
    ensures { result ≡ reply_to_take told }
{
    match told {
        Ok((hash_equal, version)) => Reply::Taken {
            hash_equal,
            version,
        },
        Err(fault) => Reply::Refused(fault),
    }
}

/// The reply to a document for a certified client.
fn gave(told: Result<Given, Fault>) -> Reply
    ensures { result ≡ reply_to_give told }
{
    match told {
        Ok((taken, known)) => Reply::Certified {
            taken,
            run: known.run,
            version: known.version,
        },
        Err(fault) => Reply::Refused(fault),
    }
}

/// The reply to a show.
fn showed(shown: Result<InstanceSummaries, Fault>) -> Reply
    ensures { result ≡ reply_to_show shown }
{
    match shown {
        Ok(listed) => Reply::Held(listed),
        Err(fault) => Reply::Refused(fault),
    }
}

/// Does the operation that an event asks for, if it asks for one.
fn write(hub: &mut Hub, now: u64, op: Result<Op, Fault>) -> Reply
    ensures does { (asked : Result OpView Fault) → Gives op_view op asked → Performs hub.old hub.new (λ _. writes now asked) result }
    ensures rules { rules_of hub.new ≡ rules_of hub.old }
    ensures rounds { hub.new.rounds ≡ hub.old.rounds }
{
    match op {
        Ok(op) => perform(hub, now, op),
        Err(fault) => Reply::Refused(fault),
    }
}

/// Renews the lease of a key. Renewals come most often, and an operation has the size of a record:
/// this one is made where it is performed, and isn't moved there.
fn renew(hub: &mut Hub, now: u64, key: Result<Key, Fault>) -> Reply
    ensures does { (named : SpecKey) → Gives (λ k. k) key (Ok named) → Performs hub.old hub.new (λ _. writes now (Ok (asking.renew named))) result }
    ensures rules { rules_of hub.new ≡ rules_of hub.old }
    ensures rounds { hub.new.rounds ≡ hub.old.rounds }
{
    match key {
        Ok(key) => perform(hub, now, Op::Renew(key)),
        Err(fault) => Reply::Refused(fault),
    }
}

/// Does an operation.
#[inline(always)]
fn perform(hub: &mut Hub, now: u64, op: Op) -> Reply
    ensures does { Performs hub.old hub.new (λ _. writes now (Ok (op_view op))) result }
    ensures rules { rules_of hub.new ≡ rules_of hub.old }
    ensures rounds { hub.new.rounds ≡ hub.old.rounds }
{
    let applied = hub.write(op, now);
    written(applied, hub.version())
}

/// The reply to an operation, after which the registry has this version.
fn written(applied: Result<Applied, Fault>, version: u64) -> Reply
    ensures { result ≡ reply_to applied version }
{
    match applied {
        Ok(Applied::Changed(_)) => Reply::Changed(version),
        Ok(Applied::Same) => Reply::Same,
        Err(fault) => Reply::Refused(fault),
    }
}
