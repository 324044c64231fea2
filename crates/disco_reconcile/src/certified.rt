//! A refresh of a certified client (this project's own rule).
ghost use Rattle.std.specs.Prelude.{◌≡◌};
ghost use Rattle.disco_wire.specs.declared.wire.Shape.TheVariants.{Many};
ghost use Rattle.disco_reconcile.specs.Courses.{certified_delta, certified_full};
ghost use Rattle.disco_reconcile.specs.Failures.{Gave};
ghost use Rattle.disco_reconcile.specs.Steps.{GoesThrough, IsOverlaid, IsPut, IsStep, TakesFull, told_document};

use crate::document::{Document, ask};
use crate::fetch::Fetch;
use crate::refreshed::Refreshed;
use disco_client::CertifiedCopy;
use disco_values::{Fault, Form, Query};
use std::alloc::Global;

/// Takes a document of all apps, which has to be certified, if the copy gives way to it.
fn put_full(
    alloc: Global,
    form: Form,
    held: &mut Option<CertifiedCopy>,
    document: Document,
    done: Refreshed,
) -> Result<Refreshed, Fault>
    requires { document.wire.shape ≡ Many }
    ensures { IsPut (certified_full form) done held.old (told_document document) result held.new }
{
    let Some(cert) = document.cert else {
        return Err(Fault::BadDocument);
    };
    match held {
        Some(copy) => {
            if copy.renew(alloc, document.wire, form, cert)? {
                Ok(done)
            } else {
                Ok(Refreshed::Kept)
            }
        }
        None => {
            *held = Some(CertifiedCopy::of(alloc, document.wire, form, cert)?);
            Ok(done)
        }
    }
}

/// Overlays a delta that is certified and reaches the copy. Answers whether it did.
fn put_delta(form: Form, copy: &mut CertifiedCopy, document: Document) -> Result<bool, Fault>
    requires { document.wire.shape ≡ Many }
    ensures { IsOverlaid (certified_delta form) copy.old (told_document document) result copy.new }
{
    match document.cert {
        Some(cert) => copy.follow(document.wire, form, cert),
        None => Ok(false),
    }
}

/// Fetches all apps.
fn take_full<F: Fetch>(
    alloc: Global,
    fetcher: &mut F,
    form: Form,
    held: &mut Option<CertifiedCopy>,
    done: Refreshed,
) -> Result<Refreshed, Fault>
    ensures { TakesFull (Gave F.gives F.failed) (certified_full form) form done fetcher.old held.old result fetcher.new held.new }
{
    match ask(alloc, fetcher, Query::Apps, form)? {
        Some(document) => put_full(alloc, form, held, document, done),
        None => Err(Fault::NotFetched),
    }
}

/// Fetches the delta. If a full document has to follow, answers the result of a refresh that takes it.
fn take_delta<F: Fetch>(
    alloc: Global,
    fetcher: &mut F,
    form: Form,
    copy: &mut CertifiedCopy,
) -> Result<Option<Refreshed>, Fault>
    ensures { IsStep (Gave F.gives F.failed) (certified_delta form) form fetcher.old copy.old result fetcher.new copy.new }
{
    match ask(alloc, fetcher, Query::Delta, form)? {
        Some(document) => {
            if put_delta(form, copy, document)? {
                Ok(None)
            } else {
                Ok(Some(Refreshed::DeltaThenFull))
            }
        }
        None => Ok(Some(Refreshed::Full)),
    }
}

/// Brings a copy up to date.
pub(crate) fn refresh<F: Fetch>(
    alloc: Global,
    fetcher: &mut F,
    form: Form,
    held: &mut Option<CertifiedCopy>,
) -> Result<Refreshed, Fault>
    ensures { GoesThrough (Gave F.gives F.failed) (certified_delta form) (certified_full form) form fetcher.old held.old result fetcher.new held.new }
{
    let done = match held {
        Some(copy) => match take_delta(alloc, fetcher, form, copy)? {
            Some(done) => done,
            None => return Ok(Refreshed::Delta),
        },
        None => Refreshed::Full,
    };
    take_full(alloc, fetcher, form, held, done)
}
