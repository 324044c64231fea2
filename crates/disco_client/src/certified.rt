//! The copy of a certified client: its run and its version are always known.
ghost use Rattle.std.specs.Prelude.{◌≡◌, IfErr, IfOk, OnErr, if◌then◌else◌};
ghost use Rattle.disco_values.specs.declared.fault.Fault.TheVariants.{OutOfMemory};
ghost use Rattle.disco_history.specs.Mentions.{copied, overlay};
ghost use Rattle.disco_wire.specs.Wire.{tell_all};
ghost use Rattle.disco_wire.specs.declared.wire.Shape.TheVariants.{Many};
ghost use Rattle.disco_client.specs.Tracks.{gives_way, known_at, reaches};

use crate::copy::Copy;
use crate::known::Known;
use disco_values::{Cert, Fault, Form};
use disco_wire::Wire;
use std::alloc::Global;

/// A copy that goes by certificates alone. Where its documents are true, it is exactly the version that
/// it is known at, of the history of its run.
#[derive(Drop)]
pub struct CertifiedCopy {
    pub copy: Copy,
    pub known: Known,
}

impl CertifiedCopy {
    /// The copy that a document of all apps makes.
    ///
    /// # Errors
    ///
    /// `OutOfMemory` alone.
    pub fn of(alloc: Global, wire: Wire, form: Form, cert: Cert) -> Result<CertifiedCopy, Fault>
        requires { wire.shape ≡ Many }
        ensures made { IfOk result (λ k. k ≡ record { copy = copied (tell_all wire.mentions); known = known_at form cert }) }
        ensures memory { IfErr result (λ e. e ≡ OutOfMemory) }
    {
        let mut copy = Copy::new(alloc);
        copy.full(wire)?;
        Ok(CertifiedCopy {
            copy,
            known: Known::of(form, cert),
        })
    }

    /// Takes a document of all apps, unless it is of the copy's run and older. Answers whether it was
    /// taken.
    ///
    /// # Errors
    ///
    /// `OutOfMemory` alone. The copy is then unchanged.
    pub fn renew(
        &mut self,
        alloc: Global,
        wire: Wire,
        form: Form,
        cert: Cert,
    ) -> Result<bool, Fault>
        requires { wire.shape ≡ Many }
        ensures took { IfOk result (λ took. took ≡ gives_way cert self.old.known) }
        ensures now { IfOk result (λ took. self.new ≡ (if took then record {
          copy = copied (tell_all wire.mentions);
          known = known_at form cert;
        } else self.old)) }
        ensures unchanged { OnErr result (self.new ≡ self.old) }
        ensures memory { IfErr result (λ e. e ≡ OutOfMemory) }
    {
        if !self.known.gives_way(cert) {
            return Ok(false);
        }
        *self = CertifiedCopy::of(alloc, wire, form, cert)?;
        Ok(true)
    }

    /// Overlays a delta if it reaches the copy, whatever its hash code. Answers whether it was
    /// overlaid.
    ///
    /// # Errors
    ///
    /// `OutOfMemory` alone. The copy is then unchanged.
    pub fn follow(&mut self, wire: Wire, form: Form, cert: Cert) -> Result<bool, Fault>
        requires { wire.shape ≡ Many }
        ensures took { IfOk result (λ took. took ≡ reaches cert self.old.known) }
        ensures now { IfOk result (λ took. self.new ≡ (if took then record {
          copy = overlay self.old.copy (tell_all wire.mentions);
          known = known_at form cert;
        } else self.old)) }
        ensures unchanged { OnErr result (self.new ≡ self.old) }
        ensures memory { IfErr result (λ e. e ≡ OutOfMemory) }
    {
        if !self.known.is_reached(cert) {
            return Ok(false);
        }
        self.copy.overlay(wire)?;
        self.known = Known::of(form, cert);
        Ok(true)
    }
}
