//! Certified clients, whose copies are always known.
ghost use Rattle.std.specs.Prelude.{◌≡◌, ◌&&◌, IfErr, IfOk, None, OnErr, false, true};
ghost use Rattle.std.specs.BTreeMap as tree;
ghost use Rattle.std.specs.Ordering.{nat_cmp};
ghost use Rattle.disco_values.specs.declared.fault.Fault.TheVariants.{OutOfMemory};
ghost use Rattle.disco_wire.specs.Wire.{wire_meaning};
ghost use Rattle.disco_values.specs.Query.{is_delta};
ghost use Rattle.disco_cache.specs.Payloads.{cert_of};
ghost use Rattle.disco_client.specs.Tracks.{reaches, same_form};
ghost use Rattle.disco_world.specs.Steps.{ClientIsGiven, IsMeant, IsReadable, IsTurned};

use crate::clients::CertifiedClients;
use disco_cache::Payload;
use disco_client::{CertifiedCopy, Known};
use disco_values::Fault;
use disco_wire::{Wire, read_document};
use std::alloc::Global;

/// The result of a document for a certified client: whether it was taken, and where the copy is known
/// then.
pub(crate) type Given = (bool, Known);

/// Reads a document of many apps. Refused only as `OutOfMemory`.
fn read(alloc: Global, payload: &Payload) -> Result<Wire, Fault>
    requires { IsReadable payload.now }
    ensures meant { IfOk result (λ wire. IsMeant payload.now (wire_meaning wire)) }
    ensures memory { IfErr result (λ e. e ≡ OutOfMemory) }
{
    read_document(alloc, payload.text.as_slice())
}

/// Replaces a copy by a document of all apps, if the copy gives way to it. Only then is the document
/// read.
fn renew(alloc: Global, held: &mut CertifiedCopy, payload: &Payload) -> Result<bool, Fault>
    requires readable { IsReadable payload.now }
    requires full { is_delta payload.now.key.query ≡ false }
    ensures turned { IfOk result (IsTurned payload.now held.old held.new) }
    ensures memory { IfErr result (λ e. e ≡ OutOfMemory) }
    ensures unchanged { OnErr result (held.new ≡ held.old) }
{
    let cert = payload.cert();
    if !held.known.gives_way(cert) {
        return Ok(false);
    }
    let wire = read(alloc, payload)?;
    held.renew(alloc, wire, payload.key.form, cert)
}

/// Whether a delta is of the form of a copy that is known here, and reaches it.
fn is_next(known: Known, payload: &Payload) -> bool
    ensures { result ≡ (same_form known.form payload.now.key.form && reaches (cert_of payload.now) known) }
{
    known.is_in(payload.key.form) && known.is_reached(payload.cert())
}

/// Overlays a delta on a copy of its form that it reaches, whatever its hash code. Only then is the
/// delta read.
fn follow(alloc: Global, held: &mut CertifiedCopy, payload: &Payload) -> Result<bool, Fault>
    requires readable { IsReadable payload.now }
    requires delta { is_delta payload.now.key.query ≡ true }
    ensures turned { IfOk result (IsTurned payload.now held.old held.new) }
    ensures memory { IfErr result (λ e. e ≡ OutOfMemory) }
    ensures unchanged { OnErr result (held.new ≡ held.old) }
{
    if !is_next(held.known, payload) {
        return Ok(false);
    }
    let wire = read(alloc, payload)?;
    held.follow(wire, payload.key.form, payload.cert())
}

/// Gives a copy a document. Answers whether it was taken.
fn turn(alloc: Global, held: &mut CertifiedCopy, payload: &Payload) -> Result<bool, Fault>
    requires { IsReadable payload.now }
    ensures turned { IfOk result (IsTurned payload.now held.old held.new) }
    ensures memory { IfErr result (λ e. e ≡ OutOfMemory) }
    ensures unchanged { OnErr result (held.new ≡ held.old) }
{
    if payload.key.query.is_delta() {
        follow(alloc, held, payload)
    } else {
        renew(alloc, held, payload)
    }
}

/// Gives a document to a client without a copy.
fn begin(
    alloc: Global,
    clients: &mut CertifiedClients,
    client: u32,
    payload: &Payload,
) -> Result<Given, Fault>
    requires readable { IsReadable payload.now }
    requires none { tree.get nat_cmp clients.old client ≡ None }
    ensures { ClientIsGiven (tree.get nat_cmp clients.old) (tree.get nat_cmp clients.new) client payload.now result }
{
    if payload.key.query.is_delta() {
        return Err(Fault::NotFetched);
    }
    let wire = read(alloc, payload)?;
    let copy = CertifiedCopy::of(alloc, wire, payload.key.form, payload.cert())?;
    let known = copy.known;
    clients.insert(client, copy)?;
    Ok((true, known))
}

/// Gives a certified client a document, of all apps or a delta. Refused as `NotFetched` exactly for a
/// delta where the client has no copy, and as `OutOfMemory`; each copy is then as before.
pub(crate) fn give(
    alloc: Global,
    clients: &mut CertifiedClients,
    client: u32,
    payload: &Payload,
) -> Result<Given, Fault>
    requires { IsReadable payload.now }
    ensures { ClientIsGiven (tree.get nat_cmp clients.old) (tree.get nat_cmp clients.new) client payload.now result }
{
    let Some(held) = clients.get_mut(&client) else {
        return begin(alloc, clients, client, payload);
    };
    let taken = turn(alloc, held, payload)?;
    Ok((taken, held.known))
}
