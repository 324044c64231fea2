//! Fetches a document and reads it.
ghost use Rattle.std.specs.Prelude.{◌≡◌, ◌⊎◌, ◌==◌, ◌||◌, ◌&&◌, option_map};
ghost use Rattle.disco_instance.specs.Instance.{Gives};
ghost use Rattle.disco_wire.specs.Documents.{document_of};
ghost use Rattle.disco_values.specs.declared.query.Query.TheVariants.{Apps, Delta};
ghost use Rattle.disco_reconcile.specs.Steps.{IsAsked, told_document};
ghost use Rattle.disco_reconcile.specs.Failures.{Gave};
ghost use Rattle.disco_reconcile.specs.Told.{agreed, is_none, told_in_answer, told_of};

use crate::fetch::{Fetch, Fetched};
use disco_values::{Cert, DocKey, Fault, Form, Query};
use disco_wire::{Shape, Wire, read_document};
use std::alloc::Global;

/// A document of many apps, and its certificate, if it has one.
#[derive(Drop)]
pub(crate) struct Document {
    pub(crate) wire: Wire,
    pub(crate) cert: Option<Cert>,
}

/// The certificate, unless it is of another version than the document's own.
fn agreed(version: Option<u64>, cert: Option<Cert>) -> Option<Cert>
    ensures { result ≡ agreed version cert }
{
    match (version, cert) {
        (Some(own), Some(cert)) => {
            if cert.version == own {
                Some(cert)
            } else {
                None
            }
        }
        (_, cert) => cert,
    }
}

/// Whether a status says that there is no delta.
fn is_none(delta: bool, status: u16) -> bool
    ensures { result ≡ is_none delta status }
{
    delta && (status == 403 || status == 404)
}

/// The document that was fetched, which has to be of many apps.
fn read(alloc: Global, fetched: &Fetched) -> Result<Option<Document>, Fault>
    ensures { Gives (option_map told_document) result (told_of fetched.now.cert (document_of fetched.now.body)) }
{
    match read_document(alloc, fetched.body.as_slice()) {
        Ok(wire) => match wire.shape {
            Shape::Many => {
                let cert = agreed(wire.version, fetched.cert);
                Ok(Some(Document { wire, cert }))
            }
            Shape::App | Shape::One => Err(Fault::BadDocument),
        },
        Err(Fault::OutOfMemory) => Err(Fault::OutOfMemory),
        Err(_) => Err(Fault::BadDocument),
    }
}

/// The document of an answer; none where there is no delta.
fn told(
    alloc: Global,
    delta: bool,
    answer: Result<Fetched, Fault>,
) -> Result<Option<Document>, Fault>
    ensures { Gives (option_map told_document) result (told_in_answer delta answer) }
{
    match answer {
        Ok(fetched) => {
            if fetched.status == 200 {
                read(alloc, &fetched)
            } else if is_none(delta, fetched.status) {
                Ok(None)
            } else {
                Err(Fault::NotFetched)
            }
        }
        Err(Fault::OutOfMemory) => Err(Fault::OutOfMemory),
        Err(_) => Err(Fault::NotFetched),
    }
}

/// Asks for all apps or for the delta. None where there is no delta. Refused as `BadDocument` where the
/// body is no document of many apps, as `NotFetched` where the fetch failed or its status is neither
/// 200 nor, for the delta, 403 or 404, and as `OutOfMemory`.
pub(crate) fn ask<F: Fetch>(
    alloc: Global,
    fetcher: &mut F,
    query: Query,
    form: Form,
) -> Result<Option<Document>, Fault>
    requires { (query ≡ Apps) ⊎ (query ≡ Delta) }
    ensures { IsAsked (Gave F.gives F.failed) query form fetcher.old result fetcher.new }
{
    let delta = query.is_delta();
    let key = DocKey { query, form };
    let answer = fetcher.fetch(&key);
    told(alloc, delta, answer)
}
