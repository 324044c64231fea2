//! Clients and their copies.
ghost use Rattle.std.specs.Prelude.{◌≡◌, IfErr, IfOk, Some, false, map, option_map, true};
ghost use Rattle.std.specs.BTreeMap as tree;
ghost use Rattle.std.specs.Ordering.{nat_cmp};
ghost use Rattle.disco_instance.specs.Row.{row};
ghost use Rattle.disco_values.specs.declared.fault.Fault.TheVariants.{OutOfMemory};
ghost use Rattle.disco_client.specs.Copies.{hash_equal};
ghost use Rattle.disco_wire.specs.Wire.{wire_meaning};
ghost use Rattle.disco_values.specs.Query.{is_delta};
ghost use Rattle.disco_world.specs.Clients.{summaries};
ghost use Rattle.disco_world.specs.Steps.{IsMeant, IsReadable, ClientTakes, summary_of};

use crate::instance_summary::{InstanceSummaries, InstanceSummary};
use disco_cache::Payload;
use disco_client::{CertifiedCopy, Copy, Known};
use disco_history::Held;
use disco_values::{Fault, Text};
use disco_wire::{Wire, read_document};
use std::alloc::Global;
use std::collections::BTreeMap;

/// A client's copy, and where it is known, if it is.
#[derive(Drop)]
pub(crate) struct Client {
    pub(crate) copy: Copy,
    pub(crate) known: Option<Known>,
}

/// The plain clients that have a copy, by their numbers.
pub(crate) type PlainClients = BTreeMap<u32, Client>;

/// The certified clients that have a copy, by their numbers.
pub(crate) type CertifiedClients = BTreeMap<u32, CertifiedCopy>;

/// The clients that have a copy. Plain and certified ones are numbered apart.
#[derive(Drop)]
pub(crate) struct Clients {
    pub(crate) plain: PlainClients,
    pub(crate) certified: CertifiedClients,
}

impl Clients {
    /// No client has a copy.
    pub(crate) fn new(alloc: Global) -> Clients
        ensures plain { tree.IsEmpty result.plain }
        ensures certified { tree.IsEmpty result.certified }
    {
        Clients {
            plain: BTreeMap::new(alloc),
            certified: BTreeMap::new(alloc),
        }
    }
}

/// The result of a document for a plain client: whether the hash codes are equal, and the version at
/// which the copy is known.
pub(crate) type Told = (bool, Option<u64>);

fn version_of(known: Option<Known>) -> Option<u64>
    ensures { result ≡ option_map (λ at. at.version) known }
{
    match known {
        Some(at) => Some(at.version),
        None => None,
    }
}

/// Whether there is a hash code and it is that of the copy.
fn has_hash(copy: &Copy, hash: &Option<Text>) -> bool
    ensures { result ≡ hash_equal hash.now copy.now }
{
    match hash {
        Some(text) => copy.hash_is(text.as_str()),
        None => false,
    }
}

/// Replaces a client's copy by a document of all apps.
fn replace(
    alloc: Global,
    clients: &mut PlainClients,
    client: u32,
    payload: &Payload,
    wire: Wire,
) -> Result<Told, Fault>
    requires meant { IsMeant payload.now (wire_meaning wire) }
    requires full { is_delta payload.now.key.query ≡ false }
    ensures { ClientTakes (tree.get nat_cmp clients.old) (tree.get nat_cmp clients.new) client payload.now result }
{
    let Wire {
        shape,
        mentions,
        hash,
        version,
    } = wire;
    let mut copy = Copy::new(alloc);
    copy.full(Wire {
        shape,
        mentions,
        hash: None,
        version,
    })?;
    let equal = has_hash(&copy, &hash);
    let known = Known::of(payload.key.form, payload.cert());
    let replaced = Client {
        copy,
        known: Some(known),
    };
    clients.insert(client, replaced)?;
    Ok((equal, Some(payload.version)))
}

/// Overlays a delta on a client's copy.
fn overlay(
    clients: &mut PlainClients,
    client: u32,
    payload: &Payload,
    wire: Wire,
) -> Result<Told, Fault>
    requires meant { IsMeant payload.now (wire_meaning wire) }
    requires delta { is_delta payload.now.key.query ≡ true }
    ensures { ClientTakes (tree.get nat_cmp clients.old) (tree.get nat_cmp clients.new) client payload.now result }
{
    let Some(held) = clients.get_mut(&client) else {
        return Err(Fault::NotFetched);
    };
    let overlaid = held.copy.overlay(wire)?;
    held.known = Known::moved(held.known, payload.key.form, payload.cert());
    Ok((overlaid.hash_equal, version_of(held.known)))
}

/// Gives a plain client a document, of all apps or a delta. Refused as `NotFetched` exactly for a delta
/// where the client has no copy, and as `OutOfMemory`; each copy is then as before.
pub(crate) fn take(
    alloc: Global,
    clients: &mut PlainClients,
    client: u32,
    payload: &Payload,
) -> Result<Told, Fault>
    requires { IsReadable payload.now }
    ensures { ClientTakes (tree.get nat_cmp clients.old) (tree.get nat_cmp clients.new) client payload.now result }
{
    let wire = read_document(alloc, payload.text.as_slice())?;
    if payload.key.query.is_delta() {
        overlay(clients, client, payload, wire)
    } else {
        replace(alloc, clients, client, payload, wire)
    }
}

fn summarized(alloc: Global, records: &[Held]) -> Result<Vec<InstanceSummary>, Fault>
    ensures listed { IfOk result (λ v. v.items ≡ map (λ h. summary_of (row h.rec.value)) records.now) }
    ensures memory { IfErr result (λ e. e ≡ OutOfMemory) }
{
    let mut listed = Vec::new(alloc);
    for held in records {
        listed.push(InstanceSummary {
            key: held.rec.key.clone()?,
            status: held.rec.status,
        })?;
    }
    Ok(listed)
}

/// The instances of a copy, by key.
fn held_in(alloc: Global, copy: &Copy) -> Result<InstanceSummaries, Fault>
    ensures listed { IfOk result (λ h. h ≡ summaries (Some copy.now)) }
    ensures memory { IfErr result (λ e. e ≡ OutOfMemory) }
{
    Ok(InstanceSummaries::from_vec(summarized(alloc, copy.records())?))
}

/// The instances of a plain client's copy, by key: none where it has no copy.
pub(crate) fn show(
    alloc: Global,
    clients: &PlainClients,
    client: u32,
) -> Result<InstanceSummaries, Fault>
    ensures listed { IfOk result (λ h. h ≡ summaries (option_map (λ c. c.copy) (tree.get nat_cmp clients.now client))) }
    ensures memory { IfErr result (λ e. e ≡ OutOfMemory) }
{
    match clients.get(&client) {
        Some(held) => held_in(alloc, &held.copy),
        None => Ok(InstanceSummaries::from_vec(Vec::new(alloc))),
    }
}

/// The instances of a certified client's copy, by key: none where it has no copy.
pub(crate) fn show_certified(
    alloc: Global,
    clients: &CertifiedClients,
    client: u32,
) -> Result<InstanceSummaries, Fault>
    ensures listed { IfOk result (λ h. h ≡ summaries (option_map (λ c. c.copy) (tree.get nat_cmp clients.now client))) }
    ensures memory { IfErr result (λ e. e ≡ OutOfMemory) }
{
    match clients.get(&client) {
        Some(held) => held_in(alloc, &held.copy),
        None => Ok(InstanceSummaries::from_vec(Vec::new(alloc))),
    }
}
