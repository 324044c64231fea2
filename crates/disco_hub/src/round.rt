//! An open round.
ghost use Rattle.std.specs.Prelude.{◌≡◌, [], IfOk, false, length, map, nat_eq, option_map, slice_get, true};
ghost use Rattle.std.specs.FinMap as finmap;
ghost use Rattle.disco_hub.specs.Rounds.{Marks, kept_keys};
ghost use Rattle.disco_hub.specs.Stored.{AreNew, key_pairs};

use disco_values::DocKey;
use std::alloc::{AllocError, Global};
use std::collections::VecDeque;
use std::marker::Model;

/// A key that was copied, and whether it had a document.
#[derive(Debug, Drop)]
pub(crate) struct CopiedKey {
    key: DocKey,
    kept: bool,
}

impl CopiedKey {
    pub(crate) fn key(&self) -> &DocKey
        ensures { result.now ≡ self.now.key }
    {
        &self.key
    }

    pub(crate) fn kept(&self) -> bool
        ensures { result ≡ self.now.kept }
    {
        self.kept
    }
}

/// A round that a publisher has begun.
#[derive(Drop)]
pub(crate) struct Round {
    done: Vec<CopiedKey>,
    left: VecDeque<DocKey>,
    /// How many of the copied keys had a document.
    kept: usize,
}

impl Model for Round {
    ghost use Rattle.std.specs.Prelude.{◌≡◌, ◌+◌, ◌≤◌, length, vec_capacity, vec_len};
    ghost use Rattle.std.specs.Coded.{codes};
    ghost use Rattle.std.specs.FinMap.{code, len};
    ghost use Rattle.disco_hub.specs.Rounds as plain;
    ghost use Rattle.disco_hub.specs.Rounds.{kept_keys};
    ghost use Rattle.disco_hub.specs.Stored.{AreNew, key_pairs};

    ghost Value = { plain.Round };

    ghost coded = { Prim.hlevel (codes, code) };

    ghost view = { λ r. record { done = key_pairs r.done.items; left = r.left.items } };

    ghost invariant = { λ r. (vec_len r.done + length r.left.items ≤ vec_capacity r.done) × (r.kept ≤ vec_len r.done)
        × (r.kept ≡ len (kept_keys (key_pairs r.done.items))) × AreNew (kept_keys (key_pairs r.done.items)) r.left.items };
}

fn copies(alloc: Global, keys: &[&DocKey]) -> Result<VecDeque<DocKey>, AllocError>
    ensures { IfOk result (λ left. left.items ≡ map (λ k. k.now) keys.now) }
{
    let mut copies = VecDeque::new(alloc);
    for key in keys {
        copies.push_back((*key).clone()?)?;
    }
    Ok(copies)
}

impl Round {
    /// A round of these keys, with room for each of them.
    pub(crate) fn of(alloc: Global, keys: &[&DocKey]) -> Result<Round, AllocError>
        requires { AreNew finmap.empty (map (λ k. k.now) keys.now) }
        ensures { IfOk result (λ r. r ≡ record { done = []; left = map (λ k. k.now) keys.now }) }
    {
        let left = copies(alloc, keys)?;
        Ok(Round {
            done: Vec::with_capacity(alloc, left.len())?,
            left,
            kept: 0,
        })
    }

    /// How many keys are left.
    pub(crate) fn len(&self) -> usize
        ensures { result ≡ length self.now.left }
    {
        self.left.len()
    }

    /// Whether no key was copied.
    pub(crate) fn is_new(&self) -> bool
        ensures { result ≡ nat_eq (length self.now.done) 0 }
    {
        self.done.is_empty()
    }

    /// The first key that is left.
    pub(crate) fn first(&self) -> Option<&DocKey>
        ensures { option_map (λ k. k.now) result ≡ slice_get self.now.left 0 }
    {
        self.left.front()
    }

    /// Removes the first key that is left, if there is one. Takes no memory.
    pub(crate) fn mark(&mut self, kept: bool) -> bool
        ensures marked { result ≡ true → Marks kept self.old self.new }
        ensures none { result ≡ false → (self.old.left ≡ []) × (self.new ≡ self.old) }
    {
        let Some(key) = self.left.pop_front() else {
            return false;
        };
        self.done.push_reserved(CopiedKey { key, kept });
        if kept {
            self.kept += 1;
        }
        true
    }

    /// The keys that were copied, and how many of them had a document. Takes no memory.
    pub(crate) fn end(self) -> (Vec<CopiedKey>, usize)
        ensures keys { key_pairs result.0.items ≡ self.done }
        ensures kept { result.1 ≡ finmap.len (kept_keys self.done) }
    {
        let Round {
            done,
            left: _,
            kept,
        } = self;
        (done, kept)
    }
}
