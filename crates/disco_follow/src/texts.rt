//! The output lines on a client's copy, as texts.
ghost use Rattle.std.specs.Prelude.{◌≡◌, ◌++◌, codes, OnOk, map};
ghost use Rattle.std.specs.Io.KnownBytes.{Appends};
ghost use Rattle.std.specs.List.{flat_map};
ghost use Rattle.disco_instance.specs.Row.{row};
ghost use Rattle.disco_follow.specs.Seen.{seen_change};
ghost use Rattle.disco_follow.specs.Texts.{change_text, changes_text, copy_text, fault_text, reached_at, vip_text};

use crate::change::{Change, What};
use crate::names::shown;
use disco_instance::Record;
use disco_values::{Fault, Text};
use std::io;
use std::io::Write;

/// What became of an instance.
#[tactic(auto, unfolding(crate::specs::Texts::change_text))]
fn write_change<W: Write>(what: What, rec: &Record, out: &mut W) -> io::Result<()>
    ensures { OnOk result (Appends (W.contents out.old) (W.contents out.new) (change_text what (row rec.now))) }
{
    let (app, id) = (shown(rec.key.app.as_str()), shown(rec.key.id.as_str()));
    let status = rec.status.name();
    match what {
        What::Came => write!(out, " +{app}/{id}={status}"),
        What::Changed => write!(out, " ~{app}/{id}={status}"),
        What::Went => write!(out, " -{app}/{id}"),
    }
}

/// What became of these instances.
fn write_changes<W: Write>(changes: &[Change<'_>], out: &mut W) -> io::Result<()>
    ensures { OnOk result (Appends (W.contents out.old) (W.contents out.new) (changes_text (map seen_change changes.now))) }
{
    for change in changes {
        write_change(change.what, change.rec, out)?;
    }
    Ok(())
}

/// The line of a copy.
#[tactic(auto, unfolding(crate::specs::Texts::copy_text))]
pub(crate) fn write_copy<W: Write>(
    at: (u64, u64),
    changes: &[Change<'_>],
    out: &mut W,
) -> io::Result<()>
    ensures { OnOk result (Appends (W.contents out.old) (W.contents out.new) (copy_text at.0 at.1 (map seen_change changes.now))) }
{
    let (run, version) = at;
    write!(out, "copy {run} {version}")?;
    write_changes(changes, out)?;
    out.write_all(b"\n")
}

/// Where an instance is reached.
#[tactic(auto, unfolding(crate::specs::Texts::reached_at))]
fn write_reached<W: Write>(rec: &Record, out: &mut W) -> io::Result<()>
    ensures { OnOk result (Appends (W.contents out.old) (W.contents out.new) (reached_at (row rec.now))) }
{
    let (host, port) = (shown(rec.details.host_name.as_str()), rec.port.number);
    write!(out, " {host}:{port}")
}

/// Where these instances are reached.
fn write_all_reached<W: Write>(recs: &[&Record], out: &mut W) -> io::Result<()>
    ensures { OnOk result (Appends (W.contents out.old) (W.contents out.new) (flat_map reached_at (map (λ r. row r.now) recs.now))) }
{
    for rec in recs {
        write_reached(rec, out)?;
    }
    Ok(())
}

/// The line of a vip under which these instances are UP.
#[tactic(auto, unfolding(crate::specs::Texts::vip_text))]
pub(crate) fn write_vip<W: Write>(vip: &Text, up: &[&Record], out: &mut W) -> io::Result<()>
    ensures { OnOk result (Appends (W.contents out.old) (W.contents out.new) (vip_text vip.now (map (λ r. row r.now) up.now))) }
{
    let name = shown(vip.as_str());
    write!(out, "vip {name}")?;
    write_all_reached(up, out)?;
    out.write_all(b"\n")
}

/// The line of a refusal.
#[tactic(auto, unfolding(crate::specs::Texts::fault_text))]
pub(crate) fn write_fault<W: Write>(fault: &Fault, out: &mut W) -> io::Result<()>
    ensures { OnOk result (Appends (W.contents out.old) (W.contents out.new) (fault_text fault.now)) }
{
    let number = fault.number();
    writeln!(out, "fault {number}")
}
