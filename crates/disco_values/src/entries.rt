//! Metadata of an instance.
ghost use Rattle.std.specs.Prelude.{◌≡◌, [], codes, IfOk, IfErr, OnOk, IsTrue, true, false};
ghost use Rattle.std.specs.Cmp.Lexicographic.{slice_cmp};
ghost use Rattle.std.specs.FinMap.Entries.{put};
ghost use Rattle.std.specs.Ordering.{nat_cmp};
ghost use Rattle.std.specs.Str.{bytes_eq};
ghost use Rattle.disco_values.specs.Entries.{entries_of, is_by_name, with_entries};
ghost use Rattle.disco_values.specs.Places.{IsNameAt, IsNameGap};
ghost use Rattle.disco_values.specs.declared.fault.Fault.TheVariants.{OutOfMemory};

use crate::fault::Fault;
use crate::merge::merged;
use crate::text::Text;
use std::alloc::{AllocError, Global};
use std::cmp::Ordering;
use std::marker::Model;
use std::mem;

/// Metadata of an instance: texts by name, each name once, in byte order, and none `@class`.
#[derive(Debug, Drop)]
pub struct Entries {
    entries: Vec<(Text, Text)>,
}

impl Model for Entries {
    ghost use Rattle.std.specs.Prelude.{List, ℕ, IsTrue};
    ghost use Rattle.disco_values.specs.Entries.{is_by_name};

    ghost Value = { List (List ℕ × List ℕ) };

    ghost view = { λ e. e.entries.items };

    ghost invariant = { λ e. IsTrue (is_by_name e.entries.items) };
}

/// Where the name is, or where it would go, among entries in the order of their names.
fn place(entries: &[(Text, Text)], name: &Text) -> Result<usize, usize>
    ensures found { IfOk result (λ i. IsNameAt entries.now name.now i) }
    ensures absent { IfErr result (λ i. IsNameGap entries.now name.now i) }
{
    for (i, entry) in entries.iter().enumerate() {
        match name.cmp(&entry.0) {
            Ordering::Greater => {}
            Ordering::Equal => return Ok(i),
            Ordering::Less => return Err(i),
        }
    }
    Err(entries.len())
}

impl Entries {
    /// No entries. Takes no memory.
    pub fn new(alloc: Global) -> Entries
        ensures { result ≡ [] }
    {
        Entries {
            entries: Vec::new(alloc),
        }
    }

    /// Entries in byte order of their names, each name once, and none `@class`.
    pub fn from_sorted(entries: Vec<(Text, Text)>) -> Entries
        requires { IsTrue (is_by_name entries.items) }
        ensures { result ≡ entries.items }
    {
        Entries { entries }
    }

    /// The entries, each a name and its text, in byte order of the names.
    pub fn as_slice(&self) -> &[(Text, Text)]
        ensures { result.now ≡ self.now }
    {
        &self.entries
    }

    /// Gives the `Vec` back, in byte order of the names. Takes no memory.
    pub fn into_vec(self) -> Vec<(Text, Text)>
        ensures { result.items ≡ self }
    {
        let Entries { entries } = self;
        entries
    }

    /// The names stand in byte order, each once, and `@class` isn't among them.
    pub fn ordered(&self)
        ensures { is_by_name self.now ≡ true }
    {
        // For the proof alone: the invariant of entries.
        let _ = &self.entries;
    }

    /// A copy of the entries.
    ///
    /// # Errors
    ///
    /// `AllocError` where memory is refused.
    pub fn copy(&self) -> Result<Entries, AllocError>
        ensures { IfOk result (λ e. e ≡ self.now) }
    {
        Ok(Entries {
            entries: self.entries.clone()?,
        })
    }

    /// The entries of pairs of a name and a text: of equal names the first counts, and an entry
    /// named `@class` is dropped.
    ///
    /// # Errors
    ///
    /// `OutOfMemory` alone.
    pub fn from_pairs(alloc: Global, pairs: Vec<(Text, Text)>) -> Result<Entries, Fault>
        ensures entries { IfOk result (λ e. e ≡ entries_of pairs.items) }
        ensures memory { IfErr result (λ e. e ≡ OutOfMemory) }
    {
        let mut rest = pairs;
        let mut entries = Entries::new(alloc);
        while let Some((name, text)) = rest.pop() {
            if name.as_str() != "@class" {
                entries.put(name, text)?;
            }
        }
        entries.entries.shrink_to_fit();
        Ok(entries)
    }

    /// Puts an entry in, and replaces that of its name where there is one.
    fn put(&mut self, name: Text, text: Text) -> Result<(), AllocError>
        requires { bytes_eq name (codes "@class") ≡ false }
        ensures { OnOk result (self.new ≡ put (slice_cmp nat_cmp) name text self.old) }
    {
        match place(&self.entries, &name) {
            Ok(i) => drop(mem::replace(&mut self.entries[i], (name, text))),
            Err(i) => self.entries.insert(i, (name, text))?,
        }
        Ok(())
    }

    /// Puts all of the other entries in, by one pass over both.
    ///
    /// # Errors
    ///
    /// `AllocError` where memory is refused.
    pub fn put_all(&mut self, others: &Entries) -> Result<(), AllocError>
        ensures { OnOk result (self.new ≡ with_entries self.old others.now) }
    {
        // For the proof alone: the names stand in byte order, each once.
        others.ordered();
        let alloc = *self.entries.allocator();
        self.entries = merged(alloc, &self.entries, others.as_slice())?;
        Ok(())
    }
}
