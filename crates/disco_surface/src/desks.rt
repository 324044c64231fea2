//! A desk and its seats, by code that is generic in their name.
use crate::given::{apps, compact_apps, key, registration, say};
use crate::hubs::tell_expired;
use disco_cache::DocKey;
use disco_instance::{Fault, Form, Key};
use disco_press::{Desk, Looked, Naming, Seat};
use disco_registry::Op;
use std::alloc::Global;
use std::sync::Wait;

/// What a look finds, by its name and its version.
fn found(looked: Looked) -> (&'static str, u64) {
    match looked {
        Looked::Doc(doc) => ("look", doc.version),
        Looked::Miss => ("miss", 0),
        Looked::Shut => ("shut", 0),
    }
}

fn tell_look<J: Naming>(seat: &mut Seat<J>, out: &mut String) -> Result<(), Fault> {
    let (name, version) = found(seat.look(&apps()));
    say(out, name, version)
}

/// The version of the document of a key.
fn load<J: Naming>(desk: &mut Desk<J>, key: DocKey) -> Result<u64, Fault> {
    Ok(desk.load(&key)?.version)
}

/// Whether a document was copied.
fn copy<J: Naming>(desk: &mut Desk<J>) -> Result<u64, Fault> {
    Ok(desk.copy_one()?.is_some() as u64)
}

fn write<J: Naming>(desk: &mut Desk<J>, op: Op, now: u64) -> Result<(), Fault> {
    let _ = desk.write(op, now)?;
    Ok(())
}

fn write_as<J: Naming>(
    desk: &mut Desk<J>,
    seat: &mut Seat<J>,
    op: Op,
    now: u64,
) -> Result<(), Fault> {
    let _ = desk.write_as(seat, op, now)?;
    Ok(())
}

/// A round is copied at version 1.
fn tell_copied<J: Naming>(
    alloc: Global,
    desk: &mut Desk<J>,
    out: &mut String,
) -> Result<(), Fault> {
    write(desk, registration(alloc, "1")?, 1)?;
    say(out, "load", load(desk, apps())?)?;
    say(out, "load", load(desk, compact_apps())?)?;
    say(out, "round", desk.begin()? as u64)?;
    say(out, "copied", copy(desk)?)?;
    say(out, "copied", copy(desk)?)
}

/// The step back that a look may take: a round was copied at version 1, and published behind version 2.
fn tell_step_back<J: Naming, R: Wait>(
    rt: &R,
    alloc: Global,
    desk: &mut Desk<J>,
    seat: &mut Seat<J>,
    out: &mut String,
) -> Result<(), Fault> {
    tell_copied(alloc, desk, out)?;
    write_as(desk, seat, registration(alloc, "2")?, 2)?;
    tell_look(seat, out)?;
    say(out, "load", load(desk, apps())?)?;
    say(out, "published", desk.publish(rt)? as u64)?;
    tell_look(seat, out)?;
    seat.learn(desk);
    say(out, "changes", seat.changes())
}

/// The version of the document of an instance.
fn instance<J: Naming>(desk: &Desk<J>, key: &Key) -> Result<u64, Fault> {
    Ok(desk.instance(key, Form::Full)?.version)
}

/// The version of the document of the instance of an id.
fn by_id<J: Naming>(desk: &Desk<J>, id: &str) -> Result<u64, Fault> {
    Ok(desk.by_id(id, Form::Full)?.version)
}

fn tell_one<J: Naming>(desk: &Desk<J>, key: &Key, out: &mut String) -> Result<(), Fault> {
    say(out, "one", instance(desk, key)?)?;
    say(out, "by id", by_id(desk, key.id.as_str())?)
}

fn tell_instance<J: Naming>(alloc: Global, desk: &Desk<J>, out: &mut String) -> Result<(), Fault> {
    let key = key(alloc, "2")?;
    tell_one(desk, &key, out)
}

fn tell_time<J: Naming>(desk: &mut Desk<J>, out: &mut String) -> Result<(), Fault> {
    say(out, "run", desk.run())?;
    say(out, "instances", desk.close_minute().instances)?;
    tell_expired(desk.expire(1_000_000), out)?;
    say(out, "base", desk.clean(1_000_000))
}

/// How many leases have run out.
fn due<J: Naming>(desk: &Desk<J>) -> Result<u64, Fault> {
    Ok(desk.due(1_000_000)?.len() as u64)
}

fn push(alloc: Global, keys: &mut Vec<Key>, id: &str) -> Result<(), Fault> {
    Ok(keys.push(key(alloc, id)?)?)
}

fn tell_cancelled<J: Naming>(
    alloc: Global,
    desk: &mut Desk<J>,
    keys: &mut Vec<Key>,
    out: &mut String,
) -> Result<(), Fault> {
    push(alloc, keys, "2")?;
    push(alloc, keys, "3")?;
    tell_expired(desk.cancel_overdue(keys, 1_000_000), out)?;
    say(out, "overdue", keys.len() as u64)
}

/// An instance whose lease runs out.
fn tell_overdue<J: Naming>(
    alloc: Global,
    desk: &mut Desk<J>,
    out: &mut String,
) -> Result<(), Fault> {
    write(desk, registration(alloc, "3")?, 4)?;
    say(out, "due", due(desk)?)?;
    let mut keys = Vec::new(alloc);
    tell_cancelled(alloc, desk, &mut keys, out)
}

/// A reserve that is given up twice.
fn tell_reserve<J: Naming>(desk: &mut Desk<J>, out: &mut String) -> Result<(), Fault> {
    desk.keep_reserve()?;
    say(out, "given up", desk.give_up_reserve() as u64)?;
    say(out, "nothing is left", desk.give_up_reserve() as u64)?;
    desk.take_reserve_again();
    say(out, "given up again", desk.give_up_reserve() as u64)
}

/// What a desk answers, and what its seat sees.
pub(crate) fn tell<J: Naming, R: Wait>(
    rt: &R,
    alloc: Global,
    desk: &mut Desk<J>,
    seat: &mut Seat<J>,
    out: &mut String,
) -> Result<(), Fault> {
    tell_look(seat, out)?;
    tell_step_back(rt, alloc, desk, seat, out)?;
    tell_instance(alloc, desk, out)?;
    write_as(desk, seat, Op::Cancel(key(alloc, "2")?), 3)?;
    tell_time(desk, out)?;
    tell_overdue(alloc, desk, out)?;
    tell_reserve(desk, out)
}

/// What a seat sees of a desk that is gone.
pub(crate) fn tell_shut<J: Naming>(seat: &mut Seat<J>, out: &mut String) -> Result<(), Fault> {
    tell_look(seat, out)?;
    say(out, "changes", seat.changes())
}
