//! What comes of a row of events or documents, and what is wanted.
ghost use Rattle.disco_press.specs.Openings.{Opens};

use crate::meanings::write_meanings;
use crate::row::Row;
use disco_http::Counted;
use disco_press::{Naming, Opening};
use disco_prog::run as run_program;
use disco_trials::Outcome;
use std::alloc::Global;
use std::io::Write;
use std::marker::Brand;
use std::net::{Net, TcpListener, TcpStream};
use std::rt::{Clock, Files};
use std::sync::Wait;
use std::thread::Threads;
use std::{fs, io};

/// A status as a line.
fn status_line(alloc: Global, status: u8) -> io::Result<Vec<u8>> {
    let mut line = Vec::new(alloc);
    writeln!(line, "{status}")?;
    Ok(line)
}

/// The lines of a text.
fn words_of(alloc: Global, text: &[u8]) -> io::Result<Vec<String>> {
    let Ok(text) = std::str::from_utf8(text) else {
        return Err(io::Error::from(io::ErrorKind::InvalidData));
    };
    let mut words = Vec::new(alloc);
    for word in text.lines() {
        words.push(String::from_str(alloc, word)?)?;
    }
    Ok(words)
}

/// Runs what the program runs, on these words and this input.
fn run_command<J: Naming + Send + Sync, R>(
    rt: &R,
    opening: Opening,
    words: &[String],
    input: &[u8],
) -> io::Result<Outcome>
where
    R: Net<Listener = TcpListener, Stream = TcpStream> + Threads + Wait + Clock,
    R: AllocGlobal + Sync,
    requires opening { Opens J.list J.name J.parts opening }
{
    let alloc = rt.alloc();
    let mut input = Counted::new(input);
    let (mut out, mut errors) = (Counted::new(Vec::new(alloc)), Counted::new(Vec::new(alloc)));
    let status = run_program::<J, R, _, _, _>(
        rt,
        alloc,
        opening,
        &mut input,
        &mut out,
        &mut errors,
        words,
    );
    Ok(Outcome {
        status: status_line(alloc, status)?,
        answers: out.inner,
        faults: errors.inner,
    })
}

/// What documents mean.
fn read(alloc: Global, documents: &[u8]) -> io::Result<Outcome> {
    let mut answers = Vec::new(alloc);
    write_meanings(alloc, documents, &mut answers)?;
    Ok(Outcome {
        status: status_line(alloc, 0)?,
        answers,
        faults: Vec::new(alloc),
    })
}

/// What comes of a row: of documents what they mean, or else of events what the program writes.
pub(crate) fn came<R>(rt: &R, row: &Row<'_>) -> io::Result<Outcome>
where
    R: Net<Listener = TcpListener, Stream = TcpStream> + Threads + Wait + Clock,
    R: Files + AllocGlobal + Sync,
{
    if let Some(documents) = row.part(rt, "documents")? {
        return read(rt.alloc(), documents.as_slice());
    }
    let words = row.part_or(rt, "words", b"replay")?;
    let words = words_of(rt.alloc(), words.as_slice())?;
    let input = row.required(rt, "events")?;
    run_command::<Brand, R>(rt, Opening::new(), words.as_slice(), input.as_slice())
}

/// What has to come of a row.
pub(crate) fn wanted<R: Files + AllocGlobal>(rt: &R, row: &Row<'_>) -> io::Result<Outcome> {
    let answers = match row.part(rt, "meanings")? {
        Some(meanings) => meanings,
        None => row.required(rt, "answers")?,
    };
    Ok(Outcome {
        status: row.part_or(rt, "status", b"0\n")?,
        answers,
        faults: row.part_or(rt, "faults", b"")?,
    })
}

/// Writes what came of a row beside its file: `NAME.KIND.came` for each kind.
pub(crate) fn write_outcome<R: Files + AllocGlobal>(
    rt: &R,
    row: &Row<'_>,
    came: &Outcome,
) -> io::Result<()> {
    let kinds = [
        ("answers", &came.answers),
        ("faults", &came.faults),
        ("status", &came.status),
    ];
    for (kind, bytes) in kinds {
        let path = format!(in rt.alloc(); "{}.{kind}.came", row.path)?;
        fs::write(rt, path.as_str(), bytes.as_slice())?;
    }
    Ok(())
}
