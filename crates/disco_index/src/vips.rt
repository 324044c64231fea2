//! The index of vips: which instances have a vip, and which a secure vip.
ghost use Rattle.std.specs.Prelude.{◌≡◌, IfErr, IfOk, None, OnErr, OnOk, Some, map, option_map};
ghost use Rattle.std.specs.FinMap.{FinMap, get, insert, keys, remove};
ghost use Rattle.disco_values.specs.Key.{key_cmp};
ghost use Rattle.disco_instance.specs.Row.{Row, row};
ghost use Rattle.disco_values.specs.declared.key.Key.{Key};
ghost use Rattle.disco_values.specs.declared.fault.Fault.TheVariants.{OutOfMemory};
ghost use Rattle.disco_history.specs.Change.{Entry, key_of};
ghost use Rattle.disco_history.specs.Query.{of_secure_vip, of_vip, restrict};
ghost use Rattle.disco_history.specs.Slots.{written};
ghost use Rattle.disco_index.specs.Places.{AltersRow, opened_vip, swept};
ghost use Rattle.disco_index.specs.Vips.{Adds, HasNoneEmpty, HasPlaces, IsIndexOf, IsSameVips, KeepsOtherVips, KeepsVipPlaces, Removes};
ghost use Rattle.disco_index.specs.Vips.{no_vips, plain, secure, under};

use crate::vip_places::VipPlaces;
use disco_instance::Record;
use disco_values::{Fault, Key};
use std::alloc::{AllocError, Global};
use std::marker::Model;

/// The index of vips: the keys of the instances that have a vip, and of those that have a secure vip.
/// To list them costs nothing for other instances.
///
/// For a change of an instance: `ready` with its new record, `take` with the old one, `add` with
/// the new one, and `sweep` with the old one.
#[derive(Drop)]
pub struct VipIndex {
    vips: VipPlaces,
    secure_vips: VipPlaces,
}

impl Model for VipIndex {
    ghost use Rattle.std.specs.Coded.{codes};
    ghost use Rattle.std.specs.FinMap.{code};
    ghost use Rattle.disco_index.specs.Vips.{VipKeys};

    ghost Value = { VipKeys };

    ghost coded = { Prim.hlevel (codes, code) };

    ghost view = { λ v. record { vips = v.vips; secure_vips = v.secure_vips } };
}

impl VipIndex {
    /// No instances.
    pub fn new(alloc: Global) -> VipIndex
        ensures { result ≡ no_vips }
    {
        VipIndex {
            vips: VipPlaces::new(alloc),
            secure_vips: VipPlaces::new(alloc),
        }
    }

    /// Makes a place for the record under each of its vips and secure vips, so that it can be added. No
    /// answer shows an empty place.
    ///
    /// # Errors
    ///
    /// `OutOfMemory` alone. Then `sweep` gives back what was made.
    pub fn ready(&mut self, rec: &Record) -> Result<(), Fault>
        ensures same { IsSameVips self.old self.new }
        ensures ready { OnOk result (HasPlaces self.new (row rec.now)) }
        ensures others { KeepsOtherVips (row rec.now) self.old self.new }
        ensures places { KeepsVipPlaces self.old self.new }
        ensures memory { IfErr result (λ e. e ≡ OutOfMemory) }
    {
        Ok(self.open_all(rec)?)
    }

    /// Adds the record's instance under the record's vips. Takes no memory.
    pub fn add(&mut self, rec: &Record)
        requires { HasPlaces self.old (row rec.now) }
        ensures vips { Adds (row rec.now) self.old self.new }
        ensures index { (m : FinMap key_cmp Entry) (e : Entry) → e.0 ≡ row rec.now → get m (key_of e) ≡ None → IsIndexOf self.old m
            → IsIndexOf self.new (insert m (key_of e) e) }
        ensures places { KeepsVipPlaces self.old self.new }
    {
        self.place(rec);
    }

    /// Removes the record's instance from the record's vips. Its places there stay, and are empty.
    /// Takes no memory.
    pub fn take(&mut self, rec: &Record)
        ensures vips { Removes (row rec.now) self.old self.new }
        ensures index { (m : FinMap key_cmp Entry) (e : Entry) → e.0 ≡ row rec.now → get m (key_of e) ≡ Some e → IsIndexOf self.old m
            → IsIndexOf self.new (remove m (key_of e)) }
        ensures places { KeepsVipPlaces self.old self.new }
    {
        self.displace(rec);
    }

    /// Gives back the empty places under the record's vips. Takes no memory.
    pub fn sweep(&mut self, rec: &Record)
        ensures same { IsSameVips self.old self.new }
        ensures swept { HasNoneEmpty self.new (row rec.now) }
        ensures others { KeepsOtherVips (row rec.now) self.old self.new }
    {
        self.close_all(rec);
    }

    /// The keys of the instances that have a vip, in their order.
    ///
    /// # Errors
    ///
    /// `OutOfMemory` alone.
    pub fn under(&self, alloc: Global, vip: &str) -> Result<Vec<&Key>, Fault>
        ensures keys { IfOk result (λ found. map (λ k. k.now) found.items ≡ under self.now (plain vip.now)) }
        ensures restriction { (m : FinMap key_cmp Entry) (rows : FinMap key_cmp Row) → IsIndexOf self.now m
            → ((k : Key) → get rows k ≡ option_map (λ e. e.0) (get m k))
            → IfOk result (λ found. map (λ k. k.now) found.items ≡ keys (restrict rows (of_vip vip.now))) }
        ensures memory { IfErr result (λ e. e ≡ OutOfMemory) }
    {
        Ok(self.plain_keys(alloc, vip)?)
    }

    /// The keys of the instances that have a secure vip, in their order.
    ///
    /// # Errors
    ///
    /// `OutOfMemory` alone.
    pub fn under_secure(&self, alloc: Global, vip: &str) -> Result<Vec<&Key>, Fault>
        ensures keys { IfOk result (λ found. map (λ k. k.now) found.items ≡ under self.now (secure vip.now)) }
        ensures restriction { (m : FinMap key_cmp Entry) (rows : FinMap key_cmp Row) → IsIndexOf self.now m
            → ((k : Key) → get rows k ≡ option_map (λ e. e.0) (get m k))
            → IfOk result (λ found. map (λ k. k.now) found.items ≡ keys (restrict rows (of_secure_vip vip.now))) }
        ensures memory { IfErr result (λ e. e ≡ OutOfMemory) }
    {
        Ok(self.secure_keys(alloc, vip)?)
    }

    fn plain_keys(&self, alloc: Global, vip: &str) -> Result<Vec<&Key>, AllocError>
        ensures { IfOk result (λ found. map (λ k. k.now) found.items ≡ under self.now (plain vip.now)) }
    {
        Ok(self.vips.under(alloc, vip)?)
    }

    fn secure_keys(&self, alloc: Global, vip: &str) -> Result<Vec<&Key>, AllocError>
        ensures { IfOk result (λ found. map (λ k. k.now) found.items ≡ under self.now (secure vip.now)) }
    {
        Ok(self.secure_vips.under(alloc, vip)?)
    }

    fn place(&mut self, rec: &Record)
        requires { HasPlaces self.old (row rec.now) }
        ensures vips { Adds (row rec.now) self.old self.new }
        ensures places { KeepsVipPlaces self.old self.new }
    {
        self.write_all(rec, true);
    }

    fn displace(&mut self, rec: &Record)
        ensures vips { Removes (row rec.now) self.old self.new }
        ensures places { KeepsVipPlaces self.old self.new }
    {
        self.write_all(rec, false);
    }

    /// Makes an empty place for the record under each of its vips, where there is none.
    fn open_all(&mut self, rec: &Record) -> Result<(), AllocError>
        ensures ok { OnOk result (AltersRow opened_vip (row rec.now) self.old self.new) }
        ensures same { IsSameVips self.old self.new }
        ensures others { KeepsOtherVips (row rec.now) self.old self.new }
        ensures places { KeepsVipPlaces self.old self.new }
    {
        let details = &rec.details;
        let owner = self.vips.ready(&details.vip_address, &rec.key, None)?;
        self.secure_vips
            .ready(&details.secure_vip_address, &rec.key, owner)?;
        Ok(())
    }

    /// Sets under each of the record's vips whether its instance is there, where it has a place.
    fn write_all(&mut self, rec: &Record, there: bool)
        ensures { AltersRow (written there) (row rec.now) self.old self.new }
    {
        let details = &rec.details;
        self.vips
            .write(details.vip_address.as_str(), &rec.key, there);
        self.secure_vips
            .write(details.secure_vip_address.as_str(), &rec.key, there);
    }

    /// Removes the empty places under the record's vips.
    fn close_all(&mut self, rec: &Record)
        ensures { AltersRow swept (row rec.now) self.old self.new }
    {
        let details = &rec.details;
        self.vips.sweep(details.vip_address.as_str(), &rec.key);
        self.secure_vips
            .sweep(details.secure_vip_address.as_str(), &rec.key);
    }
}
