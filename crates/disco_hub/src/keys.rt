//! The keys of a round.
ghost use Rattle.std.specs.Prelude.{◌≡◌, IfErr, IfOk, OnOk, fold, map};
ghost use Rattle.std.specs.FinMap as finmap;
ghost use Rattle.disco_values.specs.declared.fault.Fault.TheVariants.{OutOfMemory};
ghost use Rattle.disco_hub.specs.Rounds.{kept_keys, round_keys};
ghost use Rattle.disco_hub.specs.Stored.{AreInOrder, IsKeyAt, IsKeyGap, add_within, kept_with, key_pair, key_pairs, seen_keys};

use crate::round::CopiedKey;
use disco_cache::DocCache;
use disco_values::{DocKey, Fault};
use std::alloc::{AllocError, Global};

/// Borrowed keys of documents, in their order.
type Keys<'a> = Vec<&'a DocKey>;

/// Where a key is, or where it would go.
fn place(keys: &[&DocKey], key: &DocKey) -> Result<usize, usize>
    requires { AreInOrder keys.now }
    ensures found { IfOk result (λ i. IsKeyAt keys.now key.now i) }
    ensures absent { IfErr result (λ i. IsKeyGap keys.now key.now i) }
{
    keys.binary_search_by(|k| k.compare(key))
}

fn put<'a>(keys: &mut Keys<'a>, key: &'a DocKey) -> Result<(), AllocError>
    requires { AreInOrder keys.old.items }
    ensures order { OnOk result (AreInOrder keys.new.items) }
    ensures keys { OnOk result (seen_keys keys.new.items ≡ finmap.insert (seen_keys keys.old.items) key.now tt) }
{
    match place(keys, key) {
        Ok(i) => keys[i] = key,
        Err(i) => keys.insert(i, key)?,
    }
    Ok(())
}

fn take(keys: &mut Keys<'_>, key: &DocKey)
    requires { AreInOrder keys.old.items }
    ensures order { AreInOrder keys.new.items }
    ensures keys { seen_keys keys.new.items ≡ finmap.remove (seen_keys keys.old.items) key.now }
{
    if let Ok(i) = place(keys, key) {
        let _ = keys.remove(i);
    }
}

/// Adds a key that had a document, and removes one that had none.
fn note<'a>(keys: &mut Keys<'a>, copied: &'a CopiedKey) -> Result<(), AllocError>
    requires { AreInOrder keys.old.items }
    ensures order { OnOk result (AreInOrder keys.new.items) }
    ensures keys { OnOk result (seen_keys keys.new.items ≡ kept_with (seen_keys keys.old.items) (key_pair copied.now)) }
{
    if copied.kept() {
        put(keys, copied.key())?;
    } else {
        take(keys, copied.key());
    }
    Ok(())
}

/// The keys of an edition of which these were copied.
fn of_edition(alloc: Global, copied: &[CopiedKey]) -> Result<Keys<'_>, AllocError>
    ensures order { IfOk result (λ v. AreInOrder v.items) }
    ensures keys { IfOk result (λ v. seen_keys v.items ≡ kept_keys (key_pairs copied.now)) }
{
    let mut keys = Vec::new(alloc);
    for one in copied {
        note(&mut keys, one)?;
    }
    Ok(keys)
}

/// Adds a key, while there are fewer than `most`.
fn add<'a>(keys: &mut Keys<'a>, key: &'a DocKey, most: u64) -> Result<(), AllocError>
    requires { AreInOrder keys.old.items }
    ensures order { OnOk result (AreInOrder keys.new.items) }
    ensures keys { OnOk result (seen_keys keys.new.items ≡ add_within most (seen_keys keys.old.items) key.now) }
{
    if (keys.len() as u64) < most {
        put(keys, key)?;
    }
    Ok(())
}

fn fill<'a>(keys: &mut Keys<'a>, kept: &[&'a DocKey], most: u64) -> Result<(), AllocError>
    requires { AreInOrder keys.old.items }
    ensures order { OnOk result (AreInOrder keys.new.items) }
    ensures keys { OnOk result (seen_keys keys.new.items ≡ fold (add_within most) (seen_keys keys.old.items) (map (λ k. k.now) kept.now)) }
{
    for key in kept {
        add(keys, key, most)?;
    }
    Ok(())
}

/// The keys of a round: those of the edition of which these were copied, then those of kept
/// documents in their order until there are as many as may be kept; all in their order.
pub(crate) fn round_keys<'a>(
    alloc: Global,
    edition: &'a [CopiedKey],
    cache: &'a DocCache,
) -> Result<Vec<&'a DocKey>, Fault>
    ensures keys { IfOk result (λ v. map (λ k. k.now) v.items ≡ round_keys (kept_keys (key_pairs edition.now)) cache.now) }
    ensures memory { IfErr result (λ e. e ≡ OutOfMemory) }
{
    let mut keys = of_edition(alloc, edition)?;
    let kept = cache.keys(alloc)?;
    fill(&mut keys, kept.as_slice(), cache.entries())?;
    Ok(keys)
}
