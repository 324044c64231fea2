//! A client's copy of a registry.
ghost use Rattle.std.specs.Prelude.{◌≡◌, ◌≢◌, ◌↔◌, Err, IfOk, IfErr, IsTrue, OnOk, OnErr, filter, map};
ghost use Rattle.std.specs.FinMap.{empty, get, len, values};
ghost use Rattle.std.specs.Str.{bytes_eq};
ghost use Rattle.disco_instance.specs.Row.{row};
ghost use Rattle.disco_values.specs.declared.fault.Fault.TheVariants.{BadDocument, OutOfMemory};
ghost use Rattle.disco_history.specs.Hash.{hash};
ghost use Rattle.disco_history.specs.Held.{seen_record};
ghost use Rattle.disco_history.specs.Mentions.{copied, overlay};
ghost use Rattle.disco_wire.specs.Wire.{tell_all};
ghost use Rattle.disco_wire.specs.declared.wire.Shape.TheVariants.{Many};
ghost use Rattle.disco_client.specs.Copies.{hash_equal, is_up_under};

use crate::counted::Counted;
use crate::overlaid::Overlaid;
use crate::taken::{all, known};
use crate::vip::is_up_under;
use disco_history::Held;
use disco_instance::Record;
use disco_values::{Fault, Key, Text};
use disco_wire::{Shape, Wire};
use std::alloc::Global;
use std::marker::Model;

/// A client's copy of a registry: the records by key. The time for its hash code doesn't depend on the
/// number of instances.
#[derive(Drop)]
pub struct Copy {
    alloc: Global,
    counted: Counted,
}

impl Model for Copy {
    ghost use Rattle.std.specs.FinMap.{FinMap};
    ghost use Rattle.disco_values.specs.Key.{key_cmp};
    ghost use Rattle.disco_instance.specs.Row.{Row};
    ghost use Rattle.std.specs.Coded.{codes};
    ghost use Rattle.std.specs.FinMap.{code};
    ghost use Rattle.disco_client.specs.Copies.{rows_by_key};

    ghost Value = { FinMap key_cmp Row };

    ghost coded = { Prim.hlevel (codes, code) };

    ghost view = { λ c. rows_by_key c.counted.held };
}

fn is_many(shape: Shape) -> bool
    ensures { IsTrue result ↔ (shape ≡ Many) }
{
    match shape {
        Shape::Many => true,
        Shape::App | Shape::One => false,
    }
}

impl Copy {
    /// An empty copy, which takes its memory from `alloc`.
    pub fn new(alloc: Global) -> Copy
        ensures { result ≡ empty }
    {
        Copy {
            alloc,
            counted: Counted::new(alloc),
        }
    }

    /// Replaces the copy by the records of a full document: of each key its last mention, whatever its
    /// action.
    ///
    /// # Errors
    ///
    /// `BadDocument` exactly where the document isn't of many apps, and `OutOfMemory`. The copy is
    /// then unchanged.
    pub fn full(&mut self, wire: Wire) -> Result<(), Fault>
        ensures copied { OnOk result (self.new ≡ copied (tell_all wire.mentions)) }
        ensures shape { (result ≡ Err BadDocument) ↔ (wire.shape ≢ Many) }
        ensures memory { wire.shape ≡ Many → IfErr result (λ e. e ≡ OutOfMemory) }
        ensures unchanged { OnErr result (self.new ≡ self.old) }
    {
        if !is_many(wire.shape) {
            return Err(Fault::BadDocument);
        }
        let taken = all(self.alloc, wire.mentions)?;
        let mut new = Counted::new(self.alloc);
        new.reserve(taken.len())?;
        new.follow_all(taken);
        self.counted = new;
        Ok(())
    }

    /// Overlays a delta on the copy: of each key the last mention with a known action puts the
    /// instance, or removes it where it was deleted.
    ///
    /// # Errors
    ///
    /// `BadDocument` exactly where the document isn't of many apps, and `OutOfMemory`. The copy is
    /// then unchanged.
    pub fn overlay(&mut self, wire: Wire) -> Result<Overlaid, Fault>
        ensures overlaid { OnOk result (self.new ≡ overlay self.old (tell_all wire.mentions)) }
        ensures hash_equal { IfOk result (λ o. o.hash_equal ≡ hash_equal wire.hash self.new) }
        ensures shape { (result ≡ Err BadDocument) ↔ (wire.shape ≢ Many) }
        ensures memory { wire.shape ≡ Many → IfErr result (λ e. e ≡ OutOfMemory) }
        ensures unchanged { OnErr result (self.new ≡ self.old) }
    {
        if !is_many(wire.shape) {
            return Err(Fault::BadDocument);
        }
        let taken = known(self.alloc, wire.mentions)?;
        self.counted.reserve(taken.len())?;
        self.counted.follow_all(taken);
        Ok(Overlaid {
            hash_equal: self.has_hash(&wire.hash),
        })
    }

    /// Whether there is a hash code and it is that of the copy.
    fn has_hash(&self, given: &Option<Text>) -> bool
        ensures { result ≡ hash_equal given.now self.now }
    {
        match given {
            Some(text) => self.hash_is(text.as_str()),
            None => false,
        }
    }

    /// The instances of status UP with a vip, in the order of their keys. Vips are compared without
    /// regard to the case of ASCII letters.
    ///
    /// # Errors
    ///
    /// `OutOfMemory` alone.
    pub fn up(&self, alloc: Global, vip: &str) -> Result<Vec<&Record>, Fault>
        ensures records { IfOk result (λ v. map (λ r. row r.now) v.items ≡ filter (is_up_under vip.now) (values self.now)) }
        ensures memory { IfErr result (λ e. e ≡ OutOfMemory) }
    {
        let mut up = Vec::new(alloc);
        for held in self.records() {
            if is_up_under(&held.rec, vip) {
                up.push(&*held.rec)?;
            }
        }
        Ok(up)
    }

    /// The hash code: Eureka's `apps__hashcode`.
    ///
    /// # Errors
    ///
    /// `OutOfMemory` alone.
    pub fn hash(&self, alloc: Global) -> Result<Text, Fault>
        ensures hash { IfOk result (λ t. t ≡ hash (values self.now)) }
        ensures memory { IfErr result (λ e. e ≡ OutOfMemory) }
    {
        self.counted.hash(alloc)
    }

    /// Whether a text is the hash code. Takes no memory.
    pub fn hash_is(&self, text: &str) -> bool
        ensures { result ≡ bytes_eq text.now (hash (values self.now)) }
    {
        self.counted.hash_is(text)
    }

    /// The record of a key. Takes no memory.
    pub fn get(&self, key: &Key) -> Option<&Record>
        ensures { seen_record result ≡ get self.now key.now }
    {
        self.counted.get(key)
    }

    /// A second copy, which stays as it is while this one changes. It shares the records.
    ///
    /// # Errors
    ///
    /// `OutOfMemory` alone.
    pub fn share(&self, alloc: Global) -> Result<Copy, Fault>
        ensures same { IfOk result (λ c. c ≡ self.now) }
        ensures memory { IfErr result (λ e. e ≡ OutOfMemory) }
    {
        Ok(Copy {
            alloc,
            counted: self.counted.share(alloc)?,
        })
    }

    /// The records in the order of their keys. Takes no memory. The action beside each is only what
    /// the copy did last with it: a full document adds each record, whatever was done to it before.
    pub fn records(&self) -> &[Held]
        ensures { map (λ h. row h.rec.value) result.now ≡ values self.now }
    {
        self.counted.as_slice()
    }

    /// How many records there are. Takes no memory.
    pub fn len(&self) -> usize
        ensures { result ≡ len self.now }
    {
        self.counted.len()
    }
}
