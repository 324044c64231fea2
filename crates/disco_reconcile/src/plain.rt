//! A refresh of a plain client, as Eureka's.
ghost use Rattle.disco_reconcile.specs.Courses.{plain_delta, plain_full};
ghost use Rattle.disco_reconcile.specs.Failures.{Gave};
ghost use Rattle.disco_reconcile.specs.Steps.{GoesThrough, IsStep, TakesFull};

use crate::document::ask;
use crate::fetch::Fetch;
use crate::refreshed::Refreshed;
use disco_client::Copy;
use disco_values::{Fault, Form, Query};
use std::alloc::Global;

/// Fetches all apps, which become the copy.
fn take_full<F: Fetch>(
    alloc: Global,
    fetcher: &mut F,
    form: Form,
    held: &mut Option<Copy>,
    done: Refreshed,
) -> Result<Refreshed, Fault>
    ensures { TakesFull (Gave F.gives F.failed) plain_full form done fetcher.old held.old result fetcher.new held.new }
{
    match ask(alloc, fetcher, Query::Apps, form)? {
        Some(document) => {
            let mut copy = Copy::new(alloc);
            copy.full(document.wire)?;
            *held = Some(copy);
            Ok(done)
        }
        None => Err(Fault::NotFetched),
    }
}

/// Fetches the delta and overlays it. If a full document has to follow, answers the result of a refresh
/// that takes it.
fn take_delta<F: Fetch>(
    alloc: Global,
    fetcher: &mut F,
    form: Form,
    copy: &mut Copy,
) -> Result<Option<Refreshed>, Fault>
    ensures { IsStep (Gave F.gives F.failed) plain_delta form fetcher.old copy.old result fetcher.new copy.new }
{
    match ask(alloc, fetcher, Query::Delta, form)? {
        Some(document) => {
            if copy.overlay(document.wire)?.hash_equal {
                Ok(None)
            } else {
                Ok(Some(Refreshed::DeltaThenFull))
            }
        }
        None => Ok(Some(Refreshed::Full)),
    }
}

/// Brings a copy up to date.
pub(crate) fn refresh<F: Fetch>(
    alloc: Global,
    fetcher: &mut F,
    form: Form,
    held: &mut Option<Copy>,
) -> Result<Refreshed, Fault>
    ensures { GoesThrough (Gave F.gives F.failed) plain_delta plain_full form fetcher.old held.old result fetcher.new held.new }
{
    let done = match held {
        Some(copy) => match take_delta(alloc, fetcher, form, copy)? {
            Some(done) => done,
            None => return Ok(Refreshed::Delta),
        },
        None => Refreshed::Full,
    };
    take_full(alloc, fetcher, form, held, done)
}
