//! What documents mean, as lines.
use disco_instance::{Lease, Record};
use disco_values::Action;
use disco_wire::{Mention, Shape, Wire, read_document};
use std::alloc::Global;
use std::io;
use std::io::Write;

fn shape_name(shape: Shape) -> &'static str {
    match shape {
        Shape::Many => "many",
        Shape::App => "app",
        Shape::One => "one",
    }
}

fn action_name(action: Option<Action>) -> &'static str {
    match action {
        Some(action) => action.name(),
        None => "-",
    }
}

/// `SHAPE`, and the version and the hash code where the document has them.
fn write_head<W: Write>(wire: &Wire, out: &mut W) -> io::Result<()> {
    write!(out, "{}", shape_name(wire.shape))?;
    if let Some(version) = wire.version {
        write!(out, " version {version}")?;
    }
    if let Some(hash) = &wire.hash {
        write!(out, " hash {}", hash.as_str())?;
    }
    writeln!(out, "")
}

fn write_moments<W: Write>(lease: &Lease, out: &mut W) -> io::Result<()> {
    write!(out, " registered {}", lease.registration)?;
    write!(out, " renewed {}", lease.last_renewal)?;
    write!(out, " evicted {}", lease.eviction)?;
    writeln!(out, " up {}", lease.service_up)
}

/// The key, the statuses, the action and the moments of a mention.
fn write_mention<W: Write>(mention: &Mention, out: &mut W) -> io::Result<()> {
    let rec: &Record = &mention.rec;
    write!(out, "  {}/{}", rec.key.app.as_str(), rec.key.id.as_str())?;
    write!(out, " {}", rec.status.name())?;
    write!(out, " {}", rec.overridden_status.name())?;
    write!(out, " {}", action_name(mention.action))?;
    write!(out, " updated {}", rec.last_updated)?;
    write!(out, " dirty {}", rec.last_dirty)?;
    write_moments(&rec.lease, out)
}

fn write_meaning<W: Write>(wire: &Wire, out: &mut W) -> io::Result<()> {
    write_head(wire, out)?;
    for mention in wire.mentions.as_slice() {
        write_mention(mention, out)?;
    }
    Ok(())
}

/// Writes what each of the documents means, which stand one a line.
pub(crate) fn write_meanings<W: Write>(
    alloc: Global,
    documents: &[u8],
    out: &mut W,
) -> io::Result<()> {
    for document in documents
        .strip_suffix(b"\n")
        .unwrap_or(documents)
        .split(|b| *b == b'\n')
    {
        match read_document(alloc, document) {
            Ok(wire) => write_meaning(&wire, out)?,
            Err(fault) => writeln!(out, "fault {}", fault.number())?,
        }
    }
    Ok(())
}
