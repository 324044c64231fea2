//! The entries of a JSON object: the member `metadata` of an instance.
ghost use Rattle.std.specs.Prelude.{◌≡◌, IfOk};
ghost use Rattle.serde_json.specs.View.{members_view, view};
ghost use Rattle.disco_instance.specs.Metadata.{entries_at, entry_text, kept_entries};

use disco_values::{Entries, Text};
use serde_json::{Map, Value};
use std::alloc::{AllocError, Global};

/// The text that an entry is kept as, if it is kept.
fn kept_text(alloc: Global, value: &Value) -> Result<Option<Text>, AllocError>
    ensures { IfOk result (λ o. o ≡ entry_text (view value.now)) }
{
    match value {
        Value::String(text) => Ok(Some(Text::new(alloc, text.as_str())?)),
        Value::Bool(flag) => Ok(Some(Text::new(alloc, if *flag { "true" } else { "false" })?)),
        Value::Number(number) => match number.as_u64() {
            Some(number) => Ok(Some(Text::new(alloc, format!(in alloc; "{number}")?.as_str())?)),
            None => Ok(None),
        },
        _ => Ok(None),
    }
}

/// The members of an object that are kept, without spare room.
fn kept_pairs(alloc: Global, members: &Map<String, Value>) -> Result<Vec<(Text, Text)>, AllocError>
    ensures { IfOk result (λ v. v.items ≡ kept_entries (members_view members.now.entries)) }
{
    let mut kept = Vec::with_capacity(alloc, members.len())?;
    for (name, value) in members.iter() {
        if name.as_str() != "@class" {
            if let Some(text) = kept_text(alloc, value)? {
                kept.push((Text::new(alloc, name.as_str())?, text))?;
            }
        }
    }
    // Some members may not be kept.
    kept.shrink_to_fit();
    Ok(kept)
}

/// The entries of an object's members: texts, whole numbers and truth values, by their names.
#[tactic(auto, using(crate::proofs::Kept::kept_sorted))]
fn entries_of(alloc: Global, members: &Map<String, Value>) -> Result<Entries, AllocError>
    ensures { IfOk result (λ e. e ≡ kept_entries (members_view members.now.entries)) }
{
    // For the proof alone: the names of a map stand in order, each once.
    let _ordered = members.len();
    Ok(Entries::from_sorted(kept_pairs(alloc, members)?))
}

/// The entries of the object at a name. Where there is none, there are no entries.
pub(crate) fn entries_member(
    alloc: Global,
    value: &Value,
    name: &str,
) -> Result<Entries, AllocError>
    ensures { IfOk result (λ e. e ≡ entries_at name.now (view value.now)) }
{
    match value.get(name).and_then(Value::as_object) {
        Some(members) => entries_of(alloc, members),
        None => Ok(Entries::new(alloc)),
    }
}
