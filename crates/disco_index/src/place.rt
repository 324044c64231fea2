//! The place of an instance under a vip.
ghost use Rattle.std.specs.Prelude.{◌≡◌, ◌≤◌, IfOk, false, length};
ghost use Rattle.std.specs.Cmp.Lexicographic.{slice_cmp};
ghost use Rattle.std.specs.Ordering.{is_lt, nat_cmp};
ghost use Rattle.std.specs.Str.{bytes_eq};
ghost use Rattle.disco_index.specs.Names.{name, name_cmp};
ghost use Rattle.disco_index.specs.Pieces.{first_piece, vip_at};

use crate::owner::SharedOwner;
use crate::piece::{compare_piece, first_piece};
use disco_values::{Key, Text};
use std::alloc::{AllocError, Global};
use std::cmp::Ordering;
use std::marker::Model;
use std::mem;

/// The place of an instance under a vip of its address. `there` says whether the instance is there. It
/// has no text of its own.
#[derive(Drop)]
pub(crate) struct Place {
    owner: SharedOwner,
    /// At which byte of the owner's address the vip begins.
    start: u32,
    there: bool,
}

impl Model for Place {
    ghost use Rattle.std.specs.Prelude.{◌≤◌, Bool, length};
    ghost use Rattle.std.specs.Coded.{codes};
    ghost use Rattle.disco_index.specs.Names.{Name, name};
    ghost use Rattle.disco_index.specs.Pieces.{vip_at};

    ghost Value = { Name × Bool };

    ghost coded = { Prim.hlevel (codes) };

    ghost view = { λ p. (name (vip_at p.owner.address p.start) p.owner.key, p.there) };

    ghost invariant = { λ p. p.start ≤ length p.owner.address };
}

impl Place {
    /// An empty place under the vip that begins at `start` of the owner's address.
    pub(crate) fn new(
        alloc: Global,
        owner: &SharedOwner,
        start: usize,
        vip: &str,
    ) -> Result<Place, AllocError>
        requires start { start ≤ length owner.now.address }
        requires vip { vip.now ≡ vip_at owner.now.address start }
        ensures { IfOk result (λ p. p ≡ (name vip.now owner.now.key, false)) }
    {
        match u32::try_from(start) {
            Ok(start) => Ok(Place {
                owner: owner.share()?,
                start,
                there: false,
            }),
            Err(_) => Place::alone(alloc, vip, owner.key()),
        }
    }

    /// An empty place whose owner's address is its vip alone.
    fn alone(alloc: Global, vip: &str, key: &Key) -> Result<Place, AllocError>
        requires { vip.now ≡ vip_at vip.now 0 }
        ensures { IfOk result (λ p. p ≡ (name vip.now key.now, false)) }
    {
        let address = Text::new(alloc, vip)?;
        Ok(Place {
            owner: SharedOwner::new(alloc, &address, key)?,
            start: 0,
            there: false,
        })
    }

    /// The owner's address from the vip on.
    fn rest(&self) -> &[u8]
        ensures { first_piece result.now ≡ self.now.0.vip }
    {
        &self.owner.address().as_bytes()[self.start as usize..]
    }

    pub(crate) fn vip(&self) -> &[u8]
        ensures { result.now ≡ self.now.0.vip }
    {
        first_piece(self.rest())
    }

    pub(crate) fn key(&self) -> &Key
        ensures { result.now ≡ self.now.0.key }
    {
        self.owner.key()
    }

    /// The order of the place's vip and another one.
    fn compare_vip(&self, vip: &[u8]) -> Ordering
        ensures { result ≡ slice_cmp nat_cmp self.now.0.vip vip.now }
    {
        compare_piece(self.rest(), vip)
    }

    /// The order of the place and that of a key under a vip: by vip, then by key.
    pub(crate) fn compare(&self, vip: &[u8], key: &Key) -> Ordering
        ensures { result ≡ name_cmp self.now.0 (name vip.now key.now) }
    {
        match self.compare_vip(vip) {
            Ordering::Equal => self.owner.key().compare(key),
            decided => decided,
        }
    }

    /// Whether it is a place under the vip.
    pub(crate) fn is_under(&self, vip: &[u8]) -> bool
        ensures { result ≡ bytes_eq vip.now self.now.0.vip }
    {
        self.compare_vip(vip).is_eq()
    }

    /// Whether it is a place under a vip behind this one.
    pub(crate) fn is_after(&self, vip: &[u8]) -> bool
        ensures { result ≡ is_lt (slice_cmp nat_cmp vip.now self.now.0.vip) }
    {
        self.compare_vip(vip).is_gt()
    }

    /// Whether the instance is there.
    pub(crate) fn is_there(&self) -> bool
        ensures { result ≡ self.now.1 }
    {
        self.there
    }

    /// Sets whether the instance is there.
    pub(crate) fn write(&mut self, there: bool)
        ensures { self.new ≡ (self.old.0, there) }
    {
        self.there = there;
    }

    /// Takes the owner of another place of the same key under the same vip.
    pub(crate) fn renew(&mut self, place: Place)
        requires { place.0 ≡ self.old.0 }
        ensures { self.new ≡ self.old }
    {
        let Place { owner, start, .. } = place;
        let there = self.there;
        drop(mem::replace(
            self,
            Place {
                owner,
                start,
                there,
            },
        ));
    }
}
