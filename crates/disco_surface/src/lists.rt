//! Lists of events, as values and as lines.
use crate::given::{apps, say, say_text};
use crate::hubs::settings;
use disco_http::Counted;
use disco_instance::{Bytes, Entries, Fault, Form, Text};
use disco_prog::{replay, settings_of};
use disco_world::{Event, Reply, Step, run};
use std::alloc::Global;

const BODY: &str =
    r#"{"instance":{"instanceId":"1","hostName":"h","app":"A","ipAddr":"10.0.0.1","dataCenterInfo":{"name":"MyOwn"}}}"#;

fn one(alloc: Global) -> Result<Text, Fault> {
    Ok(Text::new(alloc, "1")?)
}

fn app(alloc: Global) -> Result<Text, Fault> {
    Ok(Text::new(alloc, "A")?)
}

/// The events that write, by a number from 0 to 5, the cancel last.
fn write(alloc: Global, number: u64) -> Result<Step, Fault> {
    let now = number.saturating_add(1);
    let app = app(alloc)?;
    if number == 0 {
        let json = Bytes::from_vec(BODY.as_bytes().to_vec(alloc)?);
        return Ok(Step::Register { now, app, json });
    }
    let id = one(alloc)?;
    match number {
        1 => Ok(Step::SetStatus {
            now,
            app,
            id,
            status: Text::new(alloc, "DOWN")?,
        }),
        2 => Ok(Step::DropStatus {
            now,
            app,
            id,
            status: None,
        }),
        3 => Ok(Step::Metadata {
            now,
            app,
            id,
            entries: Entries::new(alloc),
        }),
        4 => Ok(Step::Renew { now, app, id }),
        _ => Ok(Step::Cancel { now, app, id }),
    }
}

/// The events of a reader, by a number from 0 to 3.
fn read(alloc: Global, number: u64) -> Result<Step, Fault> {
    let form = Form::Full;
    match number {
        0 => Ok(Step::Load { key: apps() }),
        1 => Ok(Step::Look { key: apps() }),
        2 => Ok(Step::LoadById {
            id: one(alloc)?,
            form,
        }),
        _ => Ok(Step::LookById {
            id: one(alloc)?,
            form,
        }),
    }
}

/// The events of publisher and time, and those that show the clients, by a number from 0 to 9.
fn pass(number: u64) -> Step {
    match number {
        0 => Step::Begin,
        1 | 2 => Step::Copy,
        3 => Step::Publish,
        4 => Step::Show { client: 0 },
        5 => Step::ShowCertified { client: 0 },
        6 => Step::Minute,
        7 => Step::Expire { now: 7 },
        8 => Step::Clean { now: 8 },
        _ => Step::Restart { run: 8 },
    }
}

/// The event at a place of the list, which has each kind of event: 0 to 21.
fn event(alloc: Global, number: u64) -> Result<Event, Fault> {
    let (client, event) = (0, 2);
    match number {
        0 => Ok(Event::Step(write(alloc, 0)?)),
        1..=4 => Ok(Event::Step(read(alloc, number - 1)?)),
        5 => Ok(Event::Take { client, event }),
        6 => Ok(Event::Certify { client, event }),
        7..=15 => Ok(Event::Step(pass(number - 7))),
        16..=20 => Ok(Event::Step(write(alloc, number - 15)?)),
        _ => Ok(Event::Step(pass(9))),
    }
}

fn events(alloc: Global) -> Result<Vec<Event>, Fault> {
    let mut events = Vec::new(alloc);
    for number in 0..22 {
        events.push(event(alloc, number)?)?;
    }
    Ok(events)
}

fn tell_reply(reply: &Reply, out: &mut String) -> Result<(), Fault> {
    match reply {
        Reply::Changed(version) => say(out, "ok", *version),
        Reply::Same => say_text(out, "ok", "same"),
        Reply::Doc(doc) => say(out, "doc", doc.version),
        Reply::Cleaned(base) => say(out, "base", *base),
        Reply::Closed(minute) => say(out, "minute", minute.instances),
        Reply::Expired(expired) => say(out, "expired", expired.gone),
        Reply::Begun(keys) => say(out, "round", *keys as u64),
        Reply::Copied(copied) => say(out, "copied", copied.is_doc() as u64),
        Reply::Done => say_text(out, "copied", "all"),
        Reply::Published(count) => say(out, "published", *count as u64),
        Reply::Missed => say_text(out, "look", "miss"),
        Reply::Taken { hash_equal, .. } => say(out, "copy", *hash_equal as u64),
        Reply::Certified { version, .. } => say(out, "certified copy", *version),
        Reply::Held(held) => say(out, "held", held.as_slice().len() as u64),
        Reply::Restarted(run) => say(out, "run", *run),
        Reply::Refused(fault) => say(out, "fault", fault.number() as u64),
    }
}

fn tell_replies(replies: &[Reply], out: &mut String) -> Result<(), Fault> {
    for reply in replies {
        tell_reply(reply, out)?;
    }
    Ok(())
}

/// What each event of a list answers.
fn tell_events(alloc: Global, out: &mut String) -> Result<(), Fault> {
    let events = events(alloc)?;
    let replies = run(alloc, &settings(), events.as_slice())?;
    tell_replies(replies.as_slice(), out)
}

fn words(alloc: Global, words: &[&str]) -> Result<Vec<String>, Fault> {
    let mut owned = Vec::new(alloc);
    for word in words {
        owned.push(String::from_str(alloc, word)?)?;
    }
    Ok(owned)
}

/// What words set, or the status with which they are refused.
fn tell_settings(alloc: Global, given: &[&str], out: &mut String) -> Result<(), Fault> {
    let words = words(alloc, given)?;
    match settings_of(alloc, words.as_slice(), 9) {
        Ok(settings) => say(out, "versions", settings.versions),
        Err(status) => say(out, "refused", status as u64),
    }
}

/// Replays two lines: the status of that, and what they answer.
fn replayed(alloc: Global, words: &[String]) -> (u8, Vec<u8>) {
    let mut input = Counted::new(b"load full apps\ncancel 1 A 1\n".as_slice());
    let mut answers = Counted::new(Vec::new(alloc));
    let mut faults = Counted::new(Vec::new(alloc));
    let status = replay(alloc, &mut input, &mut answers, &mut faults, words);
    (status, answers.inner)
}

fn tell_replay(alloc: Global, out: &mut String) -> Result<(), Fault> {
    let words = words(alloc, &["replay"])?;
    let (status, answers) = replayed(alloc, words.as_slice());
    let text = String::from_utf8_lossy(alloc, answers.as_slice())?;
    say_text(out, "lines:", text.as_str())?;
    say(out, "status", status as u64)
}

/// What lists of events answer.
pub(crate) fn tell(alloc: Global, out: &mut String) -> Result<(), Fault> {
    tell_events(alloc, out)?;
    tell_settings(alloc, &["replay", "--versions", "3"], out)?;
    tell_settings(alloc, &["replay", "--bogus"], out)?;
    tell_replay(alloc, out)
}
