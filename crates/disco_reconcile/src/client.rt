//! A client that keeps a copy of a registry.
ghost use Rattle.std.specs.Prelude.{◌≡◌, None, option_map};
ghost use Rattle.disco_reconcile.specs.Refreshes.{Refreshes};
ghost use Rattle.disco_reconcile.specs.State.{copy_of, known_in};
ghost use Rattle.disco_reconcile.specs.declared.kept.Kept.TheVariants.{Plain, Certified};

use crate::fetch::Fetch;
use crate::kept::Kept;
use crate::refreshed::Refreshed;
use crate::{certified, plain};
use disco_client::{Copy, Known};
use disco_values::{Fault, Form};
use std::alloc::Global;
use std::marker::Model;
use std::mem;

/// A client that keeps a copy of a registry by fetching documents in a form. Contracts see its
/// fetcher, the form and what it keeps.
#[derive(Drop)]
pub struct Client<F> {
    alloc: Global,
    fetcher: F,
    form: Form,
    kept: Kept,
}

impl<F> Model for Client<F> {
    ghost use Rattle.disco_reconcile.specs.State.{ClientState, coded_state};

    ghost Value = { ClientState F };

    ghost coded = { coded_state F.code };

    ghost view = { λ c. record { fetcher = c.fetcher; form = c.form; kept = c.kept } };
}

impl<F: Fetch> Client<F> {
    /// A plain client without a copy, which asks for documents of that form and goes by hash codes,
    /// as Eureka's.
    pub fn new(alloc: Global, fetcher: F, form: Form) -> Client<F>
        ensures { result ≡ record { fetcher = fetcher; form = form; kept = Plain None } }
    {
        Client {
            alloc,
            fetcher,
            form,
            kept: Kept::Plain(None),
        }
    }

    /// A certified client without a copy, which asks for documents of that form and goes by their
    /// certificates alone.
    pub fn certified(alloc: Global, fetcher: F, form: Form) -> Client<F>
        ensures { result ≡ record { fetcher = fetcher; form = form; kept = Certified None } }
    {
        Client {
            alloc,
            fetcher,
            form,
            kept: Kept::Certified(None),
        }
    }

    /// The copy, if there is one. Takes no memory.
    pub fn copy(&self) -> Option<&Copy>
        ensures { option_map (λ c. c.now) result ≡ copy_of self.now.kept }
    {
        match &self.kept {
            Kept::Plain(copy) => copy.as_ref(),
            Kept::Certified(Some(held)) => Some(&held.copy),
            Kept::Certified(None) => None,
        }
    }

    /// Where a certified client's copy is known.
    fn known(&self) -> Option<Known>
        ensures { result ≡ known_in self.now.kept }
    {
        match &self.kept {
            Kept::Plain(_) => None,
            Kept::Certified(Some(held)) => Some(held.known),
            Kept::Certified(None) => None,
        }
    }

    /// The version of the history of [`run`](Client::run) that a certified client's copy is. None
    /// without a copy, and for a plain client. Takes no memory.
    pub fn version(&self) -> Option<u64>
        ensures { result ≡ option_map (λ k. k.version) (known_in self.now.kept) }
    {
        match self.known() {
            Some(known) => Some(known.version),
            None => None,
        }
    }

    /// The run of the server whose registry a certified client's copy is. None without a copy, and
    /// for a plain client. Takes no memory.
    pub fn run(&self) -> Option<u64>
        ensures { result ≡ option_map (λ k. k.run) (known_in self.now.kept) }
    {
        match self.known() {
            Some(known) => Some(known.run),
            None => None,
        }
    }

    /// Replaces the fetcher, and gives back the old one. Takes no memory.
    pub fn replace_fetcher(&mut self, fetcher: F) -> F
        ensures before { result ≡ self.old.fetcher }
        ensures now { self.new ≡ record self.old { fetcher = fetcher } }
    {
        mem::replace(&mut self.fetcher, fetcher)
    }

    /// Brings the copy up to date. With a copy the delta is asked for first.
    ///
    /// A plain client overlays the delta. It asks for all apps where there is no copy, where the
    /// delta was answered 403 or 404, and where the copy hasn't the delta's hash code after the
    /// overlay; they become the copy.
    ///
    /// A certified client overlays exactly the deltas that are certified, of the copy's run, start
    /// no later than the copy's version and end no earlier, whatever their hash codes. It asks for
    /// all apps where there is no copy, where the delta was answered 403 or 404, and after every
    /// other delta. They become the copy where there was none, where it is of another run, and where
    /// it isn't newer. A certificate of another version than the document's own is none.
    ///
    /// # Errors
    ///
    /// `NotFetched` where a fetch failed or its status is neither 200 nor, for the delta, 403 or 404,
    /// `BadDocument` where a body is no document of many apps, or all apps come to a certified client
    /// without a certificate, and `OutOfMemory`. The copy is then the old one, or a plain client's that
    /// after the overlay where what followed it was refused.
    pub fn refresh(&mut self) -> Result<Refreshed, Fault>
        ensures { Refreshes F.gives F.failed self.old result self.new }
    {
        match &mut self.kept {
            Kept::Plain(held) => plain::refresh(self.alloc, &mut self.fetcher, self.form, held),
            Kept::Certified(held) => {
                certified::refresh(self.alloc, &mut self.fetcher, self.form, held)
            }
        }
    }
}
