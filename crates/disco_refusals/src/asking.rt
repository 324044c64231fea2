//! The calls to a desk and to a seat, in order.
use crate::answers::Answer;
use disco_hub::Copied;
use disco_press::{Desk, Looked, Naming, Seat};
use disco_registry::Op;
use disco_values::{DocKey, Fault, Form, Key, Query, Text};
use disco_wire::read_registration;
use std::alloc::Global;
use std::sync::Wait;

#[derive(Clone, Copy, Debug)]
pub(crate) enum Asked {
    /// An instance of app A by its id, and the moment in milliseconds.
    Register(&'static str, u64),
    Cancel(&'static str, u64),
    LoadAll,
    LoadApp,
    Begin,
    Copy,
    Publish,
    LookAtAll,
    LookAtApp,
}

/// One after another.
pub(crate) const ASKED: &[Asked] = &[
    Asked::LookAtAll,
    Asked::Register("1", 1),
    Asked::LoadAll,
    Asked::LoadAll,
    Asked::Copy,
    Asked::Publish,
    Asked::Begin,
    Asked::Begin,
    Asked::Publish,
    Asked::Copy,
    Asked::Register("2", 2),
    Asked::Copy,
    Asked::Publish,
    Asked::LookAtAll,
    Asked::LoadAll,
    Asked::LoadAll,
    Asked::LoadApp,
    Asked::LoadApp,
    Asked::Begin,
    Asked::Cancel("1", 3),
    Asked::Cancel("2", 4),
    Asked::Copy,
    Asked::Copy,
    Asked::Publish,
    Asked::LookAtApp,
    Asked::LookAtAll,
];

fn registration(alloc: Global, id: &str) -> Result<Op, Fault> {
    let text = format!(in alloc;
        r#"{{"instance":{{"instanceId":"{id}","hostName":"h","app":"A","ipAddr":"10.0.0.1","status":"UP","dataCenterInfo":{{"name":"MyOwn"}}}}}}"#
    )?;
    Ok(Op::Register(read_registration(alloc, text.as_bytes())?))
}

fn cancel(alloc: Global, id: &str) -> Result<Op, Fault> {
    Ok(Op::Cancel(Key {
        app: Text::new(alloc, "A")?,
        id: Text::new(alloc, id)?,
    }))
}

fn all_apps() -> DocKey {
    DocKey {
        query: Query::Apps,
        form: Form::Full,
    }
}

fn app(alloc: Global) -> Result<DocKey, Fault> {
    Ok(DocKey {
        query: Query::App(Text::new(alloc, "A")?),
        form: Form::Full,
    })
}

fn write<J: Naming>(desk: &mut Desk<J>, op: Op, now: u64) -> Result<Answer, Fault> {
    desk.write(op, now)?;
    Ok(Answer::Done)
}

fn load<J: Naming>(desk: &mut Desk<J>, key: &DocKey) -> Result<Answer, Fault> {
    let doc = desk.load(key)?;
    Ok(Answer::Doc {
        base: doc.base,
        version: doc.version,
    })
}

fn copy<J: Naming>(desk: &mut Desk<J>) -> Result<Answer, Fault> {
    match desk.copy_one()? {
        Some(Copied::Doc(doc)) => Ok(Answer::Copied(doc.version)),
        Some(Copied::Drop(_)) => Ok(Answer::Dropped),
        None => Ok(Answer::NothingLeft),
    }
}

fn look<J: Naming>(seat: &mut Seat<J>, key: &DocKey) -> Answer {
    match seat.look(key) {
        Looked::Doc(doc) => Answer::Doc {
            base: doc.base,
            version: doc.version,
        },
        Looked::Miss => Answer::Miss,
        Looked::Shut => Answer::Shut,
    }
}

/// A look at all apps.
pub(crate) fn look_at_all<J: Naming>(seat: &mut Seat<J>) -> Answer {
    look(seat, &all_apps())
}

fn asked_once<J: Naming, R: Wait>(
    rt: &R,
    alloc: Global,
    desk: &mut Desk<J>,
    seat: &mut Seat<J>,
    asked: Asked,
) -> Result<Answer, Fault> {
    match asked {
        Asked::Register(id, now) => write(desk, registration(alloc, id)?, now),
        Asked::Cancel(id, now) => write(desk, cancel(alloc, id)?, now),
        Asked::LoadAll => load(desk, &all_apps()),
        Asked::LoadApp => load(desk, &app(alloc)?),
        Asked::Begin => Ok(Answer::Round(desk.begin()?)),
        Asked::Copy => copy(desk),
        Asked::Publish => Ok(Answer::Published(desk.publish(rt)?)),
        Asked::LookAtAll => Ok(look_at_all(seat)),
        Asked::LookAtApp => Ok(look(seat, &app(alloc)?)),
    }
}

fn told(answer: Result<Answer, Fault>) -> Answer {
    match answer {
        Ok(answer) => answer,
        Err(fault) => Answer::Fault(fault.number()),
    }
}

/// Asks, and once more where there was no memory.
pub(crate) fn answer<J: Naming, R: Wait>(
    rt: &R,
    alloc: Global,
    desk: &mut Desk<J>,
    seat: &mut Seat<J>,
    asked: Asked,
) -> Answer {
    match asked_once(rt, alloc, desk, seat, asked) {
        Err(Fault::OutOfMemory) => told(asked_once(rt, alloc, desk, seat, asked)),
        other => told(other),
    }
}
