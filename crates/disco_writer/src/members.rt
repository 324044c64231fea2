//! The members of an instance's text. The punctuation and the names are constant texts, and the values
//! are put behind them.
ghost use Rattle.std.specs.Prelude.{◌≡◌, ◌++◌, [], OnOk, codes, decimal, false, if◌then◌else◌};
ghost use Rattle.json.specs.Print.{escape, quoted};
ghost use Rattle.disco_values.specs.Action.{action_name};
ghost use Rattle.disco_values.specs.Status.{status_name};
ghost use Rattle.disco_writer.specs.Groups.{AppendsUtf8, entries_text, entry_member};

use crate::join::quoted;
use crate::plain_text::is_plain;
use crate::text_buffer::TextBuffer;
use disco_values::{Action, Entries, Status, Text};
use itoa::{Buffer, Integer};
use std::alloc::AllocError;

/// Puts a text as it is.
#[inline(always)]
pub(crate) fn push(out: &mut TextBuffer, text: &str) -> Result<(), AllocError>
    ensures { OnOk result (AppendsUtf8 out.old out.new text.now) }
{
    out.push(text.as_bytes())
}

/// Puts a text that needs no escape between quotes.
fn push_plain(out: &mut TextBuffer, text: &str) -> Result<(), AllocError>
    requires { escape text.now ≡ text.now }
    ensures { OnOk result (AppendsUtf8 out.old out.new (quoted text.now)) }
{
    out.push_between_quotes(text.as_bytes())
}

/// Puts a text between quotes. Many texts are empty. Few need an escape, so those may take memory of
/// their own.
#[tactic(auto, unfolding(json::specs::Print::escape_byte))]
pub(crate) fn push_quoted(out: &mut TextBuffer, text: &str) -> Result<(), AllocError>
    ensures { OnOk result (AppendsUtf8 out.old out.new (quoted text.now)) }
{
    if text.is_empty() {
        return push(out, "\"\"");
    }
    if is_plain(text.as_bytes()) {
        return push_plain(out, text);
    }
    let text = quoted(out.allocator(), text)?;
    out.push(text.as_slice())
}

/// Puts a text between quotes behind the text in front of it.
#[inline(always)]
pub(crate) fn put_text(out: &mut TextBuffer, lead: &str, text: &Text) -> Result<(), AllocError>
    ensures { OnOk result (AppendsUtf8 out.old out.new (lead.now ++ quoted text.now)) }
{
    push(out, lead)?;
    push_quoted(out, text.as_str())
}

#[inline(always)]
pub(crate) fn put_status(out: &mut TextBuffer, lead: &str, status: Status) -> Result<(), AllocError>
    ensures { OnOk result (AppendsUtf8 out.old out.new (lead.now ++ quoted (status_name status))) }
{
    push(out, lead)?;
    push_plain(out, status.name())
}

#[inline(always)]
pub(crate) fn put_action(out: &mut TextBuffer, lead: &str, action: Action) -> Result<(), AllocError>
    ensures { OnOk result (AppendsUtf8 out.old out.new (lead.now ++ quoted (action_name action))) }
{
    push(out, lead)?;
    push_plain(out, action.name())
}

fn truth_name(flag: bool) -> &'static str
    ensures { result.now ≡ (if flag then codes "true" else codes "false") }
{
    if flag { "true" } else { "false" }
}

#[inline(always)]
pub(crate) fn put_truth(out: &mut TextBuffer, lead: &str, flag: bool) -> Result<(), AllocError>
    ensures { OnOk result (AppendsUtf8 out.old out.new (lead.now ++ quoted (if flag then codes "true" else codes "false"))) }
{
    push(out, lead)?;
    push_plain(out, truth_name(flag))
}

#[inline(always)]
pub(crate) fn put_number<I: Integer>(
    out: &mut TextBuffer,
    lead: &str,
    number: I,
) -> Result<(), AllocError>
    ensures { OnOk result (AppendsUtf8 out.old out.new (lead.now ++ I.text number)) }
{
    let mut digits = Buffer::new();
    push(out, lead)?;
    push(out, digits.format(number))
}

/// Puts the digits of a number between quotes.
#[inline(always)]
pub(crate) fn put_digits(out: &mut TextBuffer, lead: &str, number: u64) -> Result<(), AllocError>
    ensures { OnOk result (AppendsUtf8 out.old out.new (lead.now ++ quoted (decimal number))) }
{
    let mut digits = Buffer::new();
    push(out, lead)?;
    push_plain(out, digits.format(number))
}

/// The separator in front of an entry.
fn comma(later: bool) -> &'static str
    ensures { result.now ≡ (if later then codes "," else []) }
{
    if later { "," } else { "" }
}

fn push_entry(out: &mut TextBuffer, later: bool, name: &Text, text: &Text) -> Result<(), AllocError>
    ensures { OnOk result (AppendsUtf8 out.old out.new (entry_member later name.now text.now)) }
{
    push(out, comma(later))?;
    push_quoted(out, name.as_str())?;
    put_text(out, ":", text)
}

/// Puts the entries of metadata and the brace that ends their object.
pub(crate) fn push_entries(out: &mut TextBuffer, entries: &Entries) -> Result<(), AllocError>
    ensures { OnOk result (AppendsUtf8 out.old out.new (entries_text false entries.now)) }
{
    let mut later = false;
    for (name, text) in entries.as_slice() {
        push_entry(out, later, name, text)?;
        later = true;
    }
    push(out, "}")
}
