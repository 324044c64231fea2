//! Records, and JSON that is read.
use crate::given::{record, say, say_text};
use disco_instance::{
    Action, Bytes, Cert, DataCenter, Entries, Fault, Field, Form, Key, Lease, Port, Record, Status,
    Text, status_of, upper,
};
use disco_wire::{Mention, Mentions, Shape, Wire, read_document, read_registration};
use serde_json::Value;
use std::alloc::Global;

/// A document whose one application and one instance stand without brackets.
const DOCUMENT: &str =
    r#"{"applications":{"versions__delta":1,"apps__hashcode":"UP_1_","application":{"name":"a","instance":{"hostName":"h","status":"UP","port":{"$":"80","@enabled":true},"actionType":"ADDED"}}}}"#;

/// A registration without its host's name.
const HOSTLESS: &str =
    r#"{"instance":{"instanceId":"1","app":"A","ipAddr":"10.0.0.1","dataCenterInfo":{"name":"MyOwn"}}}"#;

fn tell_key(key: &Key, out: &mut String) -> Result<(), Fault> {
    say_text(out, "app", key.app.as_str())?;
    say_text(out, "id", key.id.as_str())
}

fn tell_port(port: Port, out: &mut String) -> Result<(), Fault> {
    say(out, "port", port.number as u64)?;
    say(out, "enabled", port.enabled as u64)
}

fn action_name(action: Option<Action>) -> &'static str {
    match action {
        Some(Action::Added) => "ADDED",
        Some(Action::Modified) => "MODIFIED",
        Some(Action::Deleted) => "DELETED",
        None => "-",
    }
}

fn tell_mention(mention: &Mention, out: &mut String) -> Result<(), Fault> {
    tell_key(&mention.rec.key, out)?;
    say_text(out, "status", mention.rec.status.name())?;
    tell_port(mention.rec.port, out)?;
    say_text(out, "action", action_name(mention.action))
}

fn shape_name(shape: Shape) -> &'static str {
    match shape {
        Shape::Many => "many",
        Shape::App => "app",
        Shape::One => "one",
    }
}

fn hash_of(wire: &Wire) -> &str {
    match &wire.hash {
        Some(hash) => hash.as_str(),
        None => "-",
    }
}

fn tell_document(wire: &Wire, out: &mut String) -> Result<(), Fault> {
    say_text(out, "shape", shape_name(wire.shape))?;
    say_text(out, "hash", hash_of(wire))?;
    say(out, "version", wire.version.unwrap_or(0))?;
    for mention in wire.mentions.as_slice() {
        tell_mention(mention, out)?;
    }
    Ok(())
}

const STATUSES: [Status; 5] = [
    Status::Up,
    Status::Down,
    Status::Starting,
    Status::OutOfService,
    Status::Unknown,
];

const FIELDS: [Field; 5] = [
    Field::InstanceId,
    Field::HostName,
    Field::IpAddr,
    Field::App,
    Field::DataCenterInfo,
];

/// Every refusal there is, by its number.
const FAULTS: [Fault; 24] = [
    Fault::OutOfMemory,
    Fault::BadJson,
    Fault::MissingField(Field::App),
    Fault::MismatchedApp,
    Fault::NotFound,
    Fault::BadStatus,
    Fault::VersionsSpent,
    Fault::TooManyInstances,
    Fault::DeltaDisabled,
    Fault::NotAcceptable,
    Fault::HeadTooLarge,
    Fault::BodyTooLarge,
    Fault::BadRequest,
    Fault::BadMethod,
    Fault::UnsupportedCoding,
    Fault::RoundOpen,
    Fault::NoRound,
    Fault::KeysLeft,
    Fault::BadDocument,
    Fault::ReadFailed,
    Fault::WriteFailed,
    Fault::NotFetched,
    Fault::BadEvent(1),
    Fault::RunNotNew,
];

fn tell_statuses(out: &mut String) -> Result<(), Fault> {
    for status in &STATUSES {
        say(
            out,
            status.name(),
            status_of(status.name()).is_some() as u64,
        )?;
    }
    Ok(())
}

fn tell_fields(out: &mut String) -> Result<(), Fault> {
    for field in &FIELDS {
        say_text(out, "member", field.name())?;
    }
    Ok(())
}

fn tell_faults(out: &mut String) -> Result<(), Fault> {
    for fault in &FAULTS {
        say(out, "fault", fault.number() as u64)?;
    }
    Ok(())
}

/// The key and the port of a record, or the member that it lacks.
fn tell_read(read: &Result<Record, Fault>, out: &mut String) -> Result<(), Fault> {
    match read {
        Ok(rec) => {
            tell_key(&rec.key, out)?;
            tell_port(rec.port, out)
        }
        Err(Fault::MissingField(field)) => say_text(out, "lacks", field.name()),
        Err(fault) => say(out, "fault", fault.number() as u64),
    }
}

fn tell_registration(alloc: Global, out: &mut String) -> Result<(), Fault> {
    let read = read_registration(alloc, HOSTLESS.as_bytes());
    tell_read(&read, out)
}

/// How long a lease lasts, by a copy of its record.
fn lasts(rec: &Record) -> Result<u64, Fault> {
    let Lease { duration_secs, .. } = rec.copy()?.lease;
    Ok(duration_secs as u64)
}

/// The name of a data centre of the same class.
fn center_name(alloc: Global, rec: &Record) -> Result<String, Fault> {
    let center = DataCenter {
        class: rec.details.data_center.class.clone()?,
        name: Text::new(alloc, "MyOwn")?,
    };
    Ok(center.name.into_string(alloc)?)
}

fn tell_center(alloc: Global, rec: &Record, out: &mut String) -> Result<(), Fault> {
    let name = center_name(alloc, rec)?;
    say_text(out, "in", name.as_str())
}

/// How many entries the metadata of a record has.
fn entry_count(rec: &Record) -> Result<u64, Fault> {
    Ok(rec.details.metadata.copy()?.into_vec().len() as u64)
}

fn tell_parts_of(alloc: Global, rec: &Record, out: &mut String) -> Result<(), Fault> {
    say(out, "seconds", lasts(rec)?)?;
    tell_center(alloc, rec, out)?;
    say(out, "entries", entry_count(rec)?)
}

fn tell_parts(alloc: Global, out: &mut String) -> Result<(), Fault> {
    let rec = record(alloc, "1")?;
    tell_parts_of(alloc, &rec, out)
}

/// Metadata of a name that is given twice.
fn twice(alloc: Global) -> Result<Entries, Fault> {
    let mut pairs = Vec::new(alloc);
    for text in ["z2", "z3"] {
        pairs.push((Text::new(alloc, "zone")?, Text::new(alloc, text)?))?;
    }
    Ok(Entries::from_pairs(alloc, pairs)?)
}

/// A name and its text, which is taken out of its storage.
fn tell_entry(alloc: Global, entry: (Text, Text), out: &mut String) -> Result<(), Fault> {
    let (name, text) = entry;
    let text = text.into_string(alloc)?;
    say_text(out, name.as_str(), text.as_str())
}

/// Metadata that is taken apart.
fn tell_entries(alloc: Global, entries: Entries, out: &mut String) -> Result<(), Fault> {
    for entry in entries.into_vec() {
        tell_entry(alloc, entry, out)?;
    }
    Ok(())
}

/// A document that is made of a record.
fn made(alloc: Global) -> Result<Wire, Fault> {
    let mut mentions = Vec::new(alloc);
    mentions.push(Mention {
        rec: record(alloc, "1")?,
        action: None,
    })?;
    Ok(Wire {
        shape: Shape::One,
        mentions: Mentions::from_vec(mentions),
        hash: None,
        version: None,
    })
}

fn tell_read_document(alloc: Global, out: &mut String) -> Result<(), Fault> {
    let read = read_document(alloc, DOCUMENT.as_bytes())?;
    tell_document(&read, out)
}

fn tell_made(alloc: Global, out: &mut String) -> Result<(), Fault> {
    let made = made(alloc)?;
    tell_document(&made, out)
}

fn form_name(form: Form) -> &'static str {
    match form {
        Form::Full => "full",
        Form::Compact => "compact",
    }
}

fn tell_cert(cert: Cert, out: &mut String) -> Result<(), Fault> {
    say(out, "run", cert.run)?;
    say(out, "base", cert.base)?;
    say(out, "version", cert.version)
}

/// The record of an instance within an application `a`, of its JSON value.
fn from_value(alloc: Global, text: &str) -> Result<Record, Fault> {
    match Value::from_str(alloc, text) {
        Ok(value) => Record::from_value(alloc, &value, Some("a")),
        Err(_) => Err(Fault::BadJson),
    }
}

fn tell_value(alloc: Global, out: &mut String) -> Result<(), Fault> {
    let read = from_value(alloc, r#"{"instanceId":"1"}"#);
    tell_read(&read, out)
}

const CERT: Cert = Cert {
    run: 7,
    base: 1,
    version: 2,
};

fn byte_count(alloc: Global) -> Result<u64, Fault> {
    let bytes = Bytes::from_vec(b"{}".to_vec(alloc)?).into_vec();
    Ok(bytes.len() as u64)
}

fn tell_texts(alloc: Global, out: &mut String) -> Result<(), Fault> {
    say(out, "bytes", byte_count(alloc)?)?;
    let upper = upper(alloc, "orders")?;
    say_text(out, "upper", upper.as_str())
}

/// What is read, and what it is made of.
pub(crate) fn tell(alloc: Global, out: &mut String) -> Result<(), Fault> {
    tell_statuses(out)?;
    tell_fields(out)?;
    tell_faults(out)?;
    say_text(out, "form", form_name(Form::Compact))?;
    tell_cert(CERT, out)?;
    tell_texts(alloc, out)?;
    tell_entries(alloc, twice(alloc)?, out)?;
    tell_read_document(alloc, out)?;
    tell_made(alloc, out)?;
    tell_registration(alloc, out)?;
    tell_value(alloc, out)?;
    tell_parts(alloc, out)
}
