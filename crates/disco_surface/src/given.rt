//! Arguments of the calls, and how their answers are written.
use disco_cache::DocKey;
use disco_instance::{Fault, Form, Key, Record, Text};
use disco_registry::Op;
use disco_wire::read_registration;
use disco_writer::Query;
use std::alloc::Global;
use std::fmt::Write;

/// Writes a name and a number, on a line of their own.
pub(crate) fn say(out: &mut String, name: &str, number: u64) -> Result<(), Fault> {
    Ok(writeln!(out, "{name} {number}")?)
}

/// Writes a name and a text, on a line of their own.
pub(crate) fn say_text(out: &mut String, name: &str, text: &str) -> Result<(), Fault> {
    Ok(writeln!(out, "{name} {text}")?)
}

/// The record of the instance of an id, of app A.
pub(crate) fn record(alloc: Global, id: &str) -> Result<Record, Fault> {
    let text = format!(in alloc;
        r#"{{"instance":{{"instanceId":"{id}","hostName":"h","app":"A","ipAddr":"10.0.0.1","vipAddress":"a,b","dataCenterInfo":{{"name":"MyOwn"}}}}}}"#
    )?;
    read_registration(alloc, text.as_bytes())
}

/// The key of that instance.
pub(crate) fn key(alloc: Global, id: &str) -> Result<Key, Fault> {
    Ok(Key {
        app: Text::new(alloc, "A")?,
        id: Text::new(alloc, id)?,
    })
}

/// The registration of that instance.
pub(crate) fn registration(alloc: Global, id: &str) -> Result<Op, Fault> {
    Ok(Op::Register(record(alloc, id)?))
}

/// The key of the document of all apps.
pub(crate) fn apps() -> DocKey {
    DocKey {
        query: Query::Apps,
        form: Form::Full,
    }
}

/// The key of the compact document of all apps.
pub(crate) fn compact_apps() -> DocKey {
    DocKey {
        query: Query::Apps,
        form: Form::Compact,
    }
}

/// The key of the document of app A.
pub(crate) fn app(alloc: Global) -> Result<DocKey, Fault> {
    Ok(DocKey {
        query: Query::App(Text::new(alloc, "A")?),
        form: Form::Full,
    })
}

/// The number of a refusal, or 0 where there was none.
pub(crate) fn refusal<T: Drop>(answer: Result<T, Fault>) -> u64 {
    match answer {
        Ok(_) => 0,
        Err(fault) => fault.number() as u64,
    }
}
