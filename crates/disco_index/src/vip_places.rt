//! The places of keys under the vips of one kind of address.
ghost use Rattle.std.specs.Prelude.{◌≡◌, ◌∷◌, ◌≤◌, [], IfOk, IfSome, OnErr, OnOk, false, length, map};
ghost use Rattle.std.specs.FinMap.{empty};
ghost use Rattle.disco_history.specs.Query.{vips};
ghost use Rattle.disco_history.specs.Slots.{written};
ghost use Rattle.disco_index.specs.Pieces.{as_vips, vip_at};
ghost use Rattle.disco_index.specs.Places.{Alters, IsSameIn, KeepsPlacesIn, OthersOf, opened_vip, swept, under_in};

use crate::address::next_vip;
use crate::chunk::Chunk;
use crate::chunks;
use crate::owner::SharedOwner;
use crate::place::Place;
use disco_values::{Key, Text};
use std::alloc::{AllocError, Global};
use std::marker::Model;

/// The places of keys under each vip of the addresses of one kind.
#[derive(Drop)]
pub(crate) struct VipPlaces {
    alloc: Global,
    chunks: Vec<Chunk>,
}

impl Model for VipPlaces {
    ghost use Rattle.std.specs.Coded.{codes};
    ghost use Rattle.std.specs.FinMap.{code};
    ghost use Rattle.disco_index.specs.Chunks.{AreChunks, by_vip};
    ghost use Rattle.disco_index.specs.Vips.{KeysByVip};

    ghost Value = { KeysByVip };

    ghost coded = { Prim.hlevel (codes, code) };

    ghost view = { λ v. by_vip v.chunks.items };

    ghost invariant = { λ v. AreChunks v.chunks.items };
}

impl VipPlaces {
    pub(crate) fn new(alloc: Global) -> VipPlaces
        ensures { result ≡ empty }
    {
        VipPlaces {
            alloc,
            chunks: Vec::new(alloc),
        }
    }

    /// Makes an empty place for a key under each vip of an address, where there is none. Places that
    /// are there take this address as their own. Answers their owner: the other one where it has this
    /// address, and none where there are no vips.
    pub(crate) fn ready(
        &mut self,
        address: &Text,
        key: &Key,
        other: Option<SharedOwner>,
    ) -> Result<Option<SharedOwner>, AllocError>
        requires { IfSome other (λ o. o.key ≡ key.now) }
        ensures owner { IfOk result (λ o. IfSome o (λ o. o.key ≡ key.now)) }
        ensures ok { OnOk result (Alters opened_vip (vips address.now) key.now self.old self.new) }
        ensures same { IsSameIn self.old self.new }
        ensures others { OthersOf (vips address.now) key.now self.old self.new }
        ensures places { KeepsPlacesIn self.old self.new }
    {
        if next_vip(address.as_str()).is_none() {
            return Ok(None);
        }
        let owner = SharedOwner::with_address(self.alloc, address, key, other)?;
        self.open_all(&owner)?;
        Ok(Some(owner))
    }

    /// Sets under each vip of an address whether the key's instance is there, where it has a place.
    pub(crate) fn write(&mut self, address: &str, key: &Key, there: bool)
        ensures { Alters (written there) (vips address.now) key.now self.old self.new }
    {
        let mut rest = address;
        while let Some((vip, after)) = next_vip(rest) {
            self.write_one(vip, key, there);
            rest = after;
        }
    }

    /// Removes the empty places of a key under the vips of an address.
    pub(crate) fn sweep(&mut self, address: &str, key: &Key)
        ensures { Alters swept (vips address.now) key.now self.old self.new }
    {
        let mut rest = address;
        while let Some((vip, after)) = next_vip(rest) {
            self.close(vip, key);
            rest = after;
        }
    }

    /// The keys of the instances that have a vip, in their order.
    pub(crate) fn under(&self, alloc: Global, vip: &str) -> Result<Vec<&Key>, AllocError>
        ensures { IfOk result (λ found. map (λ k. k.now) found.items ≡ under_in self.now vip.now) }
    {
        Ok(chunks::under(&self.chunks, alloc, vip.as_bytes())?)
    }

    /// Makes an empty place under each vip of an owner's address, where there is none.
    fn open_all(&mut self, owner: &SharedOwner) -> Result<(), AllocError>
        ensures ok { OnOk result (Alters opened_vip (vips owner.now.address) owner.now.key self.old self.new) }
        ensures same { IsSameIn self.old self.new }
        ensures others { OthersOf (vips owner.now.address) owner.now.key self.old self.new }
        ensures places { KeepsPlacesIn self.old self.new }
    {
        let mut start = 0;
        let mut rest = owner.address();
        while let Some((piece, after)) = rest.split_once(',') {
            self.open_piece(owner, start, piece)?;
            start += piece.len() + 1;
            rest = after;
        }
        Ok(self.open_piece(owner, start, rest)?)
    }

    /// Makes an empty place under a piece of an owner's address, where the piece is a vip and there
    /// is none.
    fn open_piece(
        &mut self,
        owner: &SharedOwner,
        start: usize,
        piece: &str,
    ) -> Result<(), AllocError>
        requires start { start ≤ length owner.now.address }
        requires piece { piece.now ≡ vip_at owner.now.address start }
        ensures ok { OnOk result (Alters opened_vip (as_vips piece.now) owner.now.key self.old self.new) }
        ensures err { OnErr result (self.new ≡ self.old) }
    {
        if piece.is_empty() {
            return Ok(());
        }
        let place = Place::new(self.alloc, owner, start, piece)?;
        Ok(self.open(place)?)
    }

    /// Puts an empty place where its key has none under its vip.
    fn open(&mut self, place: Place) -> Result<(), AllocError>
        requires { place.1 ≡ false }
        ensures ok { OnOk result (Alters opened_vip (place.0.vip ∷ []) place.0.key self.old self.new) }
        ensures err { OnErr result (self.new ≡ self.old) }
    {
        Ok(chunks::open(self.alloc, &mut self.chunks, place)?)
    }

    /// Sets whether the instance is there, where its key has a place under the vip.
    fn write_one(&mut self, vip: &str, key: &Key, there: bool)
        ensures { Alters (written there) (vip.now ∷ []) key.now self.old self.new }
    {
        chunks::write(&mut self.chunks, vip.as_bytes(), key, there);
    }

    /// Removes the place of a key under a vip, where it is empty.
    fn close(&mut self, vip: &str, key: &Key)
        ensures { Alters swept (vip.now ∷ []) key.now self.old self.new }
    {
        chunks::close(&mut self.chunks, vip.as_bytes(), key);
    }
}
