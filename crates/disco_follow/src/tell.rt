//! Writes what a refresh brought.
ghost use Rattle.std.specs.Prelude.{◌≡◌, ◌⊎◌, ◌++◌, ℕ, [], List, IfOk, IfErr, OnOk, if◌then◌else◌, length, map};
ghost use Rattle.std.specs.Io.KnownBytes.{Appends};
ghost use Rattle.disco_values.specs.Fault.{fault_number};
ghost use Rattle.disco_values.specs.declared.fault.Fault.TheVariants.{OutOfMemory, WriteFailed};
ghost use Rattle.disco_http.specs.Causes.{Cause};
ghost use Rattle.disco_reconcile.specs.State.{copy_of, known_in};
ghost use Rattle.disco_follow.specs.Seen.{seen_change};
ghost use Rattle.disco_follow.specs.Telling.{IsTold, IsToldCopy, copy_line, is_news, refusal_text, unless_told};

use crate::change::Change;
use crate::changes::changes_of;
use crate::lines::{copy_line, fault_line, up_of};
use crate::told::Told;
use crate::wanted::Wanted;
use disco_client::Copy;
use disco_http::{Sink, write_all};
use disco_reconcile::{Client, Fetch, Refreshed};
use disco_values::Fault;
use std::alloc::Global;

/// The lines of a copy that changed so, of which `up` is that of the vip. Refused only as
/// `OutOfMemory`.
fn lines_of(
    alloc: Global,
    json: bool,
    told: &Told,
    at: (u64, u64),
    changes: &[Change<'_>],
    up: &[u8],
) -> Result<Vec<u8>, Fault>
    ensures lines { IfOk result (λ v. v.items
        ≡ (if is_news told.now (length changes.now) then copy_line json at.0 at.1 (map seen_change changes.now) else []) ++ unless_told told.now.up up.now) }
    ensures memory { IfErr result (λ e. e ≡ OutOfMemory) }
{
    let mut text = Vec::new(alloc);
    if told.is_news(changes.len()) {
        text = copy_line(alloc, json, at, changes)?;
    }
    if up != told.up.as_slice() {
        text.extend_from_slice(up)?;
    }
    Ok(text)
}

/// The lines of a copy that is a version of a run, and what is written last then. Refused only as
/// `OutOfMemory`.
fn copy_told(
    alloc: Global,
    wanted: &Wanted,
    told: &Told,
    at: (u64, u64),
    copy: &Copy,
) -> Result<(Vec<u8>, Told), Fault>
    ensures told { IfOk result (λ r. IsToldCopy wanted.now told.now at.0 at.1 copy.now r.0.items r.1) }
    ensures memory { IfErr result (λ e. e ≡ OutOfMemory) }
{
    let changes = changes_of(alloc, &told.copy, copy)?;
    let up = up_of(alloc, wanted, copy)?;
    let text = lines_of(
        alloc,
        wanted.json,
        told,
        at,
        changes.as_slice(),
        up.as_slice(),
    )?;
    let shared = copy.share(alloc)?;
    Ok((text, Told::of(shared, up)))
}

/// Writes the lines of a copy that is a version of a run, in one write, and gives what was written
/// last. Refused as `OutOfMemory` and as `WriteFailed`.
fn tell_copy<W: Sink>(
    alloc: Global,
    wanted: &Wanted,
    told: Told,
    at: (u64, u64),
    copy: &Copy,
    out: &mut W,
) -> Result<Told, Fault>
    ensures told { IfOk result (λ now. (text : List ℕ) × IsToldCopy wanted.now told at.0 at.1 copy.now text now
        × Appends (W.contents out.old) (W.contents out.new) text) }
    ensures fault { IfErr result (λ e. (e ≡ OutOfMemory) ⊎ (e ≡ WriteFailed)) }
    ensures cause { Cause WriteFailed (W.failed out.old) (W.failed out.new) result }
    ensures none_failed { OnOk result (W.failed out.new ≡ W.failed out.old) }
{
    let (text, now) = copy_told(alloc, wanted, &told, at, copy)?;
    write_all(out, text.as_slice())?;
    Ok(now)
}

/// The line of a refusal, unless it was written last. Refused only as `OutOfMemory`.
fn refusal_of(alloc: Global, json: bool, told: &Told, fault: &Fault) -> Result<Vec<u8>, Fault>
    ensures line { IfOk result (λ v. v.items ≡ refusal_text json told.now fault.now) }
    ensures memory { IfErr result (λ e. e ≡ OutOfMemory) }
{
    if told.is_told_last(fault) {
        return Ok(Vec::new(alloc));
    }
    fault_line(alloc, json, fault)
}

/// Writes the line of a refusal, unless it was written last, and gives what was written last. Refused
/// as `OutOfMemory` and as `WriteFailed`.
fn tell_refusal<W: Sink>(
    alloc: Global,
    json: bool,
    told: Told,
    fault: &Fault,
    out: &mut W,
) -> Result<Told, Fault>
    ensures written { OnOk result (Appends (W.contents out.old) (W.contents out.new) (refusal_text json told fault.now)) }
    ensures told { IfOk result (λ now. now ≡ record told { fault = fault_number fault.now }) }
    ensures fault { IfErr result (λ e. (e ≡ OutOfMemory) ⊎ (e ≡ WriteFailed)) }
    ensures cause { Cause WriteFailed (W.failed out.old) (W.failed out.new) result }
    ensures none_failed { OnOk result (W.failed out.new ≡ W.failed out.old) }
{
    let text = refusal_of(alloc, json, &told, fault)?;
    write_all(out, text.as_slice())?;
    Ok(told.refused(fault))
}

/// Writes the result of a refresh that left the client so: the copy, where it is new, or the refusal.
/// Gives what was written last. Refused as `OutOfMemory` and as `WriteFailed`.
pub(crate) fn tell<F: Fetch, W: Sink>(
    alloc: Global,
    client: &Client<F>,
    came: Result<Refreshed, Fault>,
    wanted: &Wanted,
    told: Told,
    out: &mut W,
) -> Result<Told, Fault>
    ensures told { IfOk result (λ now. (text : List ℕ) × IsTold wanted.now told came (known_in client.now.kept) (copy_of client.now.kept) text now
        × Appends (W.contents out.old) (W.contents out.new) text) }
    ensures fault { IfErr result (λ e. (e ≡ OutOfMemory) ⊎ (e ≡ WriteFailed)) }
    ensures cause { Cause WriteFailed (W.failed out.old) (W.failed out.new) result }
    ensures none_failed { OnOk result (W.failed out.new ≡ W.failed out.old) }
{
    if let Err(fault) = came {
        return tell_refusal(alloc, wanted.json, told, &fault, out);
    }
    match (client.run(), client.version(), client.copy()) {
        (Some(run), Some(version), Some(copy)) => {
            tell_copy(alloc, wanted, told, (run, version), copy, out)
        }
        _ => Ok(told),
    }
}
