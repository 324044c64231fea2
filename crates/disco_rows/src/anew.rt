//! Joins documents anew, from texts that are made of their own mentions.
use disco_compact::text_compact;
use disco_trials::Outcome;
use disco_values::{Fault, Form, Text};
use disco_wire::{Mention, Shape, Wire, read_document};
use disco_writer::text_full;
use serde_json::Value;
use std::alloc::{AllocError, Global};
use std::io;

fn push(out: &mut Vec<u8>, text: &str) -> Result<(), AllocError> {
    out.extend_from_slice(text.as_bytes())
}

fn push_quoted(alloc: Global, out: &mut Vec<u8>, text: &str) -> Result<(), AllocError> {
    let quoted = Value::String(String::from_str(alloc, text)?).to_vec(alloc)?;
    out.extend_from_slice(quoted.as_slice())
}

fn push_text(alloc: Global, out: &mut Vec<u8>, form: Form, mention: &Mention) -> Result<(), Fault> {
    let text = match form {
        Form::Full => text_full(alloc, mention)?,
        Form::Compact => text_compact(alloc, mention)?,
    };
    Ok(out.extend_from_slice(text.as_slice())?)
}

/// The end of an application.
fn push_name(alloc: Global, out: &mut Vec<u8>, app: Option<&Text>) -> Result<(), AllocError> {
    match app {
        Some(app) => {
            push(out, "],\"name\":")?;
            push_quoted(alloc, out, app.as_str())?;
            push(out, "}")
        }
        None => Ok(()),
    }
}

/// What stands before an instance of this app, behind one of the last app.
fn push_before(
    alloc: Global,
    out: &mut Vec<u8>,
    last: Option<&Text>,
    app: &Text,
) -> Result<(), AllocError> {
    if last == Some(app) {
        return push(out, ",");
    }
    push_name(alloc, out, last)?;
    push(out, if last.is_some() { "," } else { "" })?;
    push(out, "{\"instance\":[")
}

/// Applications of these instances.
fn push_apps(
    alloc: Global,
    out: &mut Vec<u8>,
    form: Form,
    mentions: &[Mention],
) -> Result<(), Fault> {
    let mut last: Option<&Text> = None;
    for mention in mentions {
        push_before(alloc, out, last, &mention.rec.key.app)?;
        push_text(alloc, out, form, mention)?;
        last = Some(&mention.rec.key.app);
    }
    Ok(push_name(alloc, out, last)?)
}

/// The end of a document of many apps.
fn push_end(alloc: Global, out: &mut Vec<u8>, wire: &Wire) -> Result<(), AllocError> {
    push(out, "],\"apps__hashcode\":")?;
    if let Some(hash) = &wire.hash {
        push_quoted(alloc, out, hash.as_str())?;
    }
    if let Some(version) = wire.version {
        let version = format!(in alloc; ",\"versions__delta\":\"{version}\"")?;
        push(out, version.as_str())?;
    }
    push(out, "}}")
}

/// The document that means this, in a form.
fn joined(alloc: Global, form: Form, wire: &Wire) -> Result<Vec<u8>, Fault> {
    let mut out = Vec::new(alloc);
    let mentions = wire.mentions.as_slice();
    match wire.shape {
        Shape::Many => {
            push(&mut out, "{\"applications\":{\"application\":[")?;
            push_apps(alloc, &mut out, form, mentions)?;
            push_end(alloc, &mut out, wire)?;
        }
        Shape::App => {
            push(&mut out, "{\"application\":")?;
            push_apps(alloc, &mut out, form, mentions)?;
            push(&mut out, "}")?;
        }
        Shape::One => {
            push(&mut out, "{\"instance\":")?;
            for mention in mentions {
                push_text(alloc, &mut out, form, mention)?;
            }
            push(&mut out, "}")?;
        }
    }
    Ok(out)
}

/// The document joined anew in the full form, or in the compact one where that is the document.
fn document_anew(alloc: Global, document: &[u8]) -> Result<Vec<u8>, Fault> {
    let wire = read_document(alloc, document)?;
    let compact = joined(alloc, Form::Compact, &wire)?;
    if compact.as_slice() == document {
        return Ok(compact);
    }
    joined(alloc, Form::Full, &wire)
}

/// An answer line without its line feed; where it has a document, with that joined anew.
fn line_anew(alloc: Global, line: &[u8]) -> Result<Vec<u8>, Fault> {
    let mut out = Vec::new(alloc);
    let text = line.iter().position(|b| *b == b'{').unwrap_or(line.len());
    out.extend_from_slice(&line[..text])?;
    if line.starts_with(b"doc ") {
        let document = document_anew(alloc, &line[text..])?;
        out.extend_from_slice(document.as_slice())?;
    } else {
        out.extend_from_slice(&line[text..])?;
    }
    Ok(out)
}

/// Answer lines, with each document joined anew.
fn answers_anew(alloc: Global, answers: &[u8]) -> Result<Vec<u8>, Fault> {
    let mut out = Vec::new(alloc);
    let mut first = true;
    for line in answers.split(|b| *b == b'\n') {
        push(&mut out, if first { "" } else { "\n" })?;
        let line = line_anew(alloc, line)?;
        out.extend_from_slice(line.as_slice())?;
        first = false;
    }
    Ok(out)
}

/// An outcome with each document of its answers joined anew.
pub(crate) fn outcome_anew(alloc: Global, came: &Outcome) -> io::Result<Outcome> {
    let Ok(answers) = answers_anew(alloc, came.answers.as_slice()) else {
        return Err(io::Error::from(io::ErrorKind::InvalidData));
    };
    Ok(Outcome {
        status: came.status.clone()?,
        answers,
        faults: came.faults.clone()?,
    })
}
