//! The texts of an instance.
ghost use Rattle.std.specs.Prelude.{◌≡◌, ◌++◌, ◌∷◌, [], IfErr, IfOk, OnOk};
ghost use Rattle.disco_instance.specs.Row.{row};
ghost use Rattle.disco_values.specs.declared.fault.Fault.TheVariants.{OutOfMemory};
ghost use Rattle.disco_values.specs.declared.form.Form.TheVariants.{Full, Compact};
ghost use Rattle.disco_wire.specs.Wire.{tell};
ghost use Rattle.disco_writer.specs.Kept.{IsTextOf};
ghost use Rattle.disco_writer.specs.Groups.{AppendsUtf8, IsObjectFront, compact_front, compact_groups, full_front, full_groups, group_part};

use crate::groups::{Group, put_group};
use crate::text_buffer::TextBuffer;
use disco_instance::{Record, well_formed};
use disco_values::{Action, Fault, Form};
use disco_wire::Mention;
use std::alloc::{AllocError, Global};

/// How many bytes are asked for a text in the full form at first: most have fewer.
const USUAL_FULL: usize = 1024;

/// How many bytes are asked for a text in the compact form at first.
const USUAL_COMPACT: usize = 512;

/// The texts of an instance in both forms, as far as they are written. Members of both forms are
/// written once and copied.
#[derive(Drop)]
struct Both {
    full: TextBuffer,
    compact: TextBuffer,
}

impl Both {
    fn new(alloc: Global) -> Result<Both, AllocError>
        ensures full { IfOk result (λ b. b.full ≡ []) }
        ensures compact { IfOk result (λ b. b.compact ≡ []) }
    {
        Ok(Both {
            full: TextBuffer::with_capacity(alloc, USUAL_FULL)?,
            compact: TextBuffer::with_capacity(alloc, USUAL_COMPACT)?,
        })
    }

    /// Adds a group to both texts.
    fn add_both(
        &mut self,
        group: Group,
        rec: &Record,
        action: Option<Action>,
    ) -> Result<(), AllocError>
        ensures full { OnOk result (AppendsUtf8 self.old.full self.new.full (group_part group (row rec.now) action)) }
        ensures compact { OnOk result (AppendsUtf8 self.old.compact self.new.compact (group_part group (row rec.now) action)) }
    {
        let start = self.full.len();
        put_group(&mut self.full, group, rec, action)?;
        self.compact.push(&self.full.as_slice()[start..])
    }

    /// Both texts with their ends.
    fn ended(self) -> Result<(Vec<u8>, Vec<u8>), AllocError>
        ensures full { IfOk result (λ t. t.0.items ≡ self.full ++ 125 ∷ []) }
        ensures compact { IfOk result (λ t. t.1.items ≡ self.compact ++ 125 ∷ []) }
    {
        let Both {
            mut full,
            mut compact,
        } = self;
        full.push(b"}")?;
        compact.push(b"}")?;
        Ok((full.into_vec(), compact.into_vec()))
    }
}

/// The groups in front of the moments.
fn front(alloc: Global, rec: &Record, action: Option<Action>) -> Result<Both, AllocError>
    ensures full { IfOk result (λ b. IsObjectFront b.full (full_front (row rec.now) action)) }
    ensures compact { IfOk result (λ b. IsObjectFront b.compact (compact_front (row rec.now) action)) }
{
    let mut texts = Both::new(alloc)?;
    texts.add_both(Group::Names, rec, action)?;
    put_group(&mut texts.full, Group::Country, rec, action)?;
    texts.add_both(Group::Center, rec, action)?;
    put_group(&mut texts.full, Group::Urls, rec, action)?;
    texts.add_both(Group::Hosts, rec, action)?;
    put_group(&mut texts.full, Group::Coordination, rec, action)?;
    Ok(texts)
}

/// Adds the groups from the moments on.
fn add_back(texts: &mut Both, rec: &Record, action: Option<Action>) -> Result<(), AllocError>
    requires full { IsObjectFront texts.old.full (full_front (row rec.now) action) }
    requires compact { IsObjectFront texts.old.compact (compact_front (row rec.now) action) }
    ensures full { OnOk result (IsObjectFront texts.new.full (full_groups (row rec.now) action)) }
    ensures compact { OnOk result (IsObjectFront texts.new.compact (compact_groups (row rec.now) action)) }
{
    texts.add_both(Group::Moments, rec, action)?;
    put_group(&mut texts.full, Group::Terms, rec, action)?;
    texts.add_both(Group::State, rec, action)?;
    put_group(&mut texts.full, Group::StatusPage, rec, action)?;
    texts.add_both(Group::Vip, rec, action)?;
    Ok(())
}

/// The texts of an instance in the full and in the compact form, as compact JSON, with its action if
/// one is named.
///
/// # Errors
///
/// `OutOfMemory` alone.
pub fn write_texts(
    alloc: Global,
    rec: &Record,
    action: Option<Action>,
) -> Result<(Vec<u8>, Vec<u8>), Fault>
    ensures full { IfOk result (λ t. IsTextOf Full t.0.items (row rec.now, action)) }
    ensures compact { IfOk result (λ t. IsTextOf Compact t.1.items (row rec.now, action)) }
    ensures memory { IfErr result (λ e. e ≡ OutOfMemory) }
{
    // For the proof alone: what holds of every record, and that its app's name is UTF-8.
    well_formed(rec);
    let _app = rec.key.app.as_str();
    let mut texts = front(alloc, rec, action)?;
    add_back(&mut texts, rec, action)?;
    Ok(texts.ended()?)
}

/// The text of an instance in a form, as [`write_texts`] gives it.
///
/// # Errors
///
/// `OutOfMemory` alone.
pub fn write_text(
    alloc: Global,
    form: Form,
    rec: &Record,
    action: Option<Action>,
) -> Result<Vec<u8>, Fault>
    ensures text { IfOk result (λ v. IsTextOf form v.items (row rec.now, action)) }
    ensures memory { IfErr result (λ e. e ≡ OutOfMemory) }
{
    let (full, compact) = write_texts(alloc, rec, action)?;
    Ok(match form {
        Form::Full => full,
        Form::Compact => compact,
    })
}

/// The text of a mention in the full form, as [`write_text`] gives it.
///
/// # Errors
///
/// `OutOfMemory` alone.
pub fn text_full(alloc: Global, mention: &Mention) -> Result<Vec<u8>, Fault>
    ensures text { IfOk result (λ v. IsTextOf Full v.items (tell mention.now)) }
    ensures memory { IfErr result (λ e. e ≡ OutOfMemory) }
{
    write_text(alloc, Form::Full, &mention.rec, mention.action)
}
