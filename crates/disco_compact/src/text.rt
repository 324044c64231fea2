//! Texts of mentions in the compact form.
ghost use Rattle.std.specs.Prelude.{◌≡◌, IfErr, IfOk};
ghost use Rattle.disco_values.specs.declared.fault.Fault.TheVariants.{OutOfMemory};
ghost use Rattle.disco_values.specs.declared.form.Form.TheVariants.{Compact};
ghost use Rattle.disco_wire.specs.Wire.{tell};
ghost use Rattle.disco_writer.specs.Kept.{IsTextOf};

use disco_values::{Fault, Form};
use disco_wire::Mention;
use disco_writer::write_text;
use std::alloc::Global;

/// The text of a mention in the compact form, as [`write_text`] gives it.
///
/// # Errors
///
/// `OutOfMemory` alone.
pub fn text_compact(alloc: Global, mention: &Mention) -> Result<Vec<u8>, Fault>
    ensures text { IfOk result (λ v. IsTextOf Compact v.items (tell mention.now)) }
    ensures memory { IfErr result (λ e. e ≡ OutOfMemory) }
{
    write_text(alloc, Form::Compact, &mention.rec, mention.action)
}
