//! Arguments of trials: settings, instances, and keys of documents.
use disco_instance::Record;
use disco_options::settings_of;
use disco_registry::Op;
use disco_values::{DocKey, Fault, Form, Key, Query, Settings, Text};
use disco_wire::read_registration;
use std::alloc::{AllocError, Global};

pub(crate) fn strings(alloc: Global, words: &[&str]) -> Result<Vec<String>, AllocError> {
    let mut strings = Vec::new(alloc);
    for word in words {
        strings.push(String::from_str(alloc, word)?)?;
    }
    Ok(strings)
}

/// The settings of a command line without options.
pub(crate) fn defaults(alloc: Global) -> Result<Settings, Fault> {
    let words = strings(alloc, &["replay"])?;
    match settings_of(alloc, words.as_slice(), 0) {
        Ok(settings) => Ok(settings),
        Err(_) => Err(Fault::OutOfMemory),
    }
}

/// The record of the instance of an id, of app A.
pub(crate) fn record(alloc: Global, id: &str) -> Result<Record, Fault> {
    let text = format!(in alloc;
        r#"{{"instance":{{"instanceId":"{id}","hostName":"h","app":"A","ipAddr":"10.0.0.1","vipAddress":"a,b","dataCenterInfo":{{"name":"MyOwn"}}}}}}"#
    )?;
    read_registration(alloc, text.as_bytes())
}

/// The key of that instance.
pub(crate) fn key(alloc: Global, id: &str) -> Result<Key, Fault> {
    Ok(Key {
        app: Text::new(alloc, "A")?,
        id: Text::new(alloc, id)?,
    })
}

/// The registration of that instance.
pub(crate) fn registration(alloc: Global, id: &str) -> Result<Op, Fault> {
    Ok(Op::Register(record(alloc, id)?))
}

/// The cancel of that instance.
pub(crate) fn cancel(alloc: Global, id: &str) -> Result<Op, Fault> {
    Ok(Op::Cancel(key(alloc, id)?))
}

/// The registration of the one instance of the app of a number.
pub(crate) fn registration_of(alloc: Global, app: u64) -> Result<Op, Fault> {
    let text = format!(in alloc;
        r#"{{"instance":{{"instanceId":"1","hostName":"h","app":"A{app}","ipAddr":"10.0.0.1","dataCenterInfo":{{"name":"MyOwn"}}}}}}"#
    )?;
    Ok(Op::Register(read_registration(alloc, text.as_bytes())?))
}

/// The key of the document of all apps.
pub(crate) fn apps() -> DocKey {
    DocKey {
        query: Query::Apps,
        form: Form::Full,
    }
}

/// The key of the document of the app of a number.
pub(crate) fn app(alloc: Global, app: u64) -> Result<DocKey, Fault> {
    let name = format!(in alloc; "A{app}")?;
    Ok(DocKey {
        query: Query::App(Text::from_string(name)),
        form: Form::Full,
    })
}

/// The number of a refusal, or 0 where there was none.
pub(crate) fn refusal<T: Drop>(answer: Result<T, Fault>) -> u32 {
    match answer {
        Ok(_) => 0,
        Err(fault) => fault.number(),
    }
}
