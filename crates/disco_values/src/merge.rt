//! Merges two lists of entries, each in the order of its names.
ghost use Rattle.std.specs.Prelude.{◌≡◌, ◌∷◌, [], IfOk, IfSome, MatchOption, true};
ghost use Rattle.disco_values.specs.Entries.{is_by_name, with_entries};

use crate::text::Text;
use std::alloc::{AllocError, Global};
use std::cmp::Ordering;

/// The entry that comes first of two lists, and what is left of both.
#[derive(Drop)]
struct First<'e> {
    entry: &'e (Text, Text),
    own: &'e [(Text, Text)],
    others: &'e [(Text, Text)],
}

/// The entry of the lesser name; of equal names that of `others`. None where both lists are empty.
fn first_of<'e>(own: &'e [(Text, Text)], others: &'e [(Text, Text)]) -> Option<First<'e>>
    requires { is_by_name others.now ≡ true }
    ensures entry { MatchOption result (with_entries own.now others.now ≡ []) (λ f. with_entries own.now others.now ≡ f.entry.now ∷ with_entries f.own.now f.others.now) }
    ensures sorted { IfSome result (λ f. is_by_name f.others.now ≡ true) }
{
    match (own.split_first(), others.split_first()) {
        (None, None) => None,
        (Some((entry, own)), None) => Some(First { entry, own, others }),
        (None, Some((entry, others))) => Some(First { entry, own, others }),
        (Some((mine, own_left)), Some((entry, others_left))) => match mine.0.cmp(&entry.0) {
            Ordering::Less => Some(First {
                entry: mine,
                own: own_left,
                others,
            }),
            Ordering::Equal => Some(First {
                entry,
                own: own_left,
                others: others_left,
            }),
            Ordering::Greater => Some(First {
                entry,
                own,
                others: others_left,
            }),
        },
    }
}

/// Copies of the entries of both lists, in the order of their names; of equal names that of `others`.
/// They have no spare room.
pub(crate) fn merged(
    alloc: Global,
    own: &[(Text, Text)],
    others: &[(Text, Text)],
) -> Result<Vec<(Text, Text)>, AllocError>
    requires { is_by_name others.now ≡ true }
    ensures { IfOk result (λ v. v.items ≡ with_entries own.now others.now) }
{
    let (mut own_left, mut others_left) = (own, others);
    let mut all = Vec::with_capacity(alloc, own.len().saturating_add(others.len()))?;
    while let Some(first) = first_of(own_left, others_left) {
        all.push(first.entry.clone()?)?;
        own_left = first.own;
        others_left = first.others;
    }
    // A name in both lists has one entry here.
    all.shrink_to_fit();
    Ok(all)
}
