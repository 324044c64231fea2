//! A text that contracts see as the list of its bytes.
ghost use Rattle.std.specs.Prelude.{◌≡◌, ◌↔◌, ◌≤◌, ◌<◌, [], IfOk, IfErr, IsTrue, codes, length, not, string_bytes};
ghost use Rattle.std.specs.Char.{is_ascii_lowercase};
ghost use Rattle.std.specs.Cmp.Lexicographic.{slice_cmp};
ghost use Rattle.std.specs.List.{list_all};
ghost use Rattle.std.specs.Ordering.{nat_cmp};
ghost use Rattle.disco_values.specs.Front.{front_of};
ghost use Rattle.disco_values.specs.Text.{in_upper_case};
ghost use Rattle.disco_values.specs.declared.fault.Fault.TheVariants.{OutOfMemory};

use crate::fault::Fault;
use crate::front::{front_of, is_whole};
use crate::inline_text::{InlineText, MOST_INLINE};
use crate::storage::{DEFAULT_CLASS, Storage, unshared};
use std::alloc::{AllocError, Global};
use std::cmp::Ordering;
use std::marker::Model;

/// A text. Contracts see it as the list of its bytes.
#[derive(Debug, Drop)]
pub struct Text {
    /// The front of the text. Most comparisons need no other byte.
    front: u64,
    storage: Storage,
}

impl Model for Text {
    ghost use Rattle.std.specs.Prelude.{◌≡◌, List, ℕ, length};
    ghost use Rattle.disco_values.specs.Front.{AreBytes, front_of};
    ghost use Rattle.disco_values.specs.Storage.{bytes_in};

    ghost Value = { List ℕ };

    ghost view = { λ t. bytes_in t.storage };

    ghost invariant = { λ t. (t.front ≡ front_of (bytes_in t.storage)) × AreBytes (bytes_in t.storage) };
}

/// A text that is short enough to need no memory of its own.
fn inline(text: &str) -> Text
    requires { length text.now ≤ 30 }
    ensures { result ≡ text.now }
{
    let inline = InlineText::new(text);
    Text {
        front: inline.front(),
        storage: Storage::Inline(inline),
    }
}

/// A text in memory of its own.
fn in_memory(text: String) -> Text
    requires { 30 < length (string_bytes text) }
    ensures { result ≡ string_bytes text }
{
    let bytes = text.as_bytes();
    Text {
        front: front_of(bytes, bytes.len()),
        storage: Storage::Heap(text),
    }
}

/// The class that data centres have by default. It takes no memory.
fn default_class() -> Text
    ensures { result ≡ codes "com.netflix.appinfo.InstanceInfo$DefaultDataCenterInfo" }
{
    let bytes = DEFAULT_CLASS.as_bytes();
    Text {
        front: front_of(bytes, bytes.len()),
        storage: Storage::DefaultClass,
    }
}

/// The order of two texts with equal fronts.
#[inline(never)]
fn order_behind(one: &Text, other: &Text) -> Ordering
    requires { front_of one.now ≡ front_of other.now }
    ensures { result ≡ slice_cmp nat_cmp one.now other.now }
{
    match (&one.storage, &other.storage) {
        (Storage::Inline(one), Storage::Inline(other)) => one.order(other),
        _ => one.as_str().cmp(other.as_str()),
    }
}

/// The order of two texts, in byte order.
#[inline(always)]
fn order(one: &Text, other: &Text) -> Ordering
    ensures { result ≡ slice_cmp nat_cmp one.now other.now }
{
    if one.front > other.front {
        Ordering::Greater
    } else if one.front < other.front {
        Ordering::Less
    } else if is_whole(one.front) {
        Ordering::Equal
    } else {
        order_behind(one, other)
    }
}

impl Text {
    /// The text of a `&str`. A short one and the default class of a data centre take no memory, and
    /// copies of any other share theirs.
    ///
    /// # Errors
    ///
    /// `AllocError` where memory is refused.
    pub fn new(alloc: Global, text: &str) -> Result<Text, AllocError>
        ensures { IfOk result (λ t. t ≡ text.now) }
    {
        if text.len() <= MOST_INLINE {
            return Ok(inline(text));
        }
        if text == DEFAULT_CLASS {
            return Ok(default_class());
        }
        Ok(in_memory(String::from_str(alloc, text)?).shared(alloc)?)
    }

    /// The same text. Copies of it take no memory.
    ///
    /// # Errors
    ///
    /// `AllocError` where memory is refused.
    fn shared(self, alloc: Global) -> Result<Text, AllocError>
        ensures { IfOk result (λ t. t ≡ self) }
    {
        let Text { front, storage } = self;
        Ok(Text {
            front,
            storage: storage.shared(alloc)?,
        })
    }

    /// The text of a `String`. Takes no memory, and gives that of a short one back.
    pub fn from_string(text: String) -> Text
        ensures { result ≡ string_bytes text }
    {
        if text.len() <= MOST_INLINE {
            return inline(text.as_str());
        }
        in_memory(text)
    }

    /// The empty text. Takes no memory.
    pub fn empty(alloc: Global) -> Text
        ensures { result ≡ [] }
    {
        // No allocator is needed for a text that is in the value itself.
        let _ = alloc;
        inline("")
    }

    /// The text as a `&str`.
    pub fn as_str(&self) -> &str
        ensures { result.now ≡ self.now }
    {
        self.storage.as_str()
    }

    /// Gives the `String` back. A text of at most 30 bytes lies in the value itself, and the memory of
    /// a longer one may be shared with copies: then its `String` takes memory. One that was made of a
    /// `String` of more than 30 bytes gives that back.
    ///
    /// # Errors
    ///
    /// `AllocError` where memory is refused.
    pub fn into_string(self, alloc: Global) -> Result<String, AllocError>
        ensures { IfOk result (λ s. string_bytes s ≡ self) }
    {
        let Text { front: _, storage } = self;
        match storage {
            Storage::Inline(text) => String::from_str(alloc, text.as_str()),
            Storage::Heap(text) => Ok(text),
            Storage::Shared(text) => unshared(text, alloc),
            Storage::DefaultClass => String::from_str(alloc, DEFAULT_CLASS),
        }
    }

    /// The same text with its ASCII letters in upper case, and all else as it is. One without any in
    /// lower case is moved.
    ///
    /// # Errors
    ///
    /// `OutOfMemory` alone.
    pub fn into_upper(self, alloc: Global) -> Result<Text, Fault>
        ensures text { IfOk result (λ t. t ≡ in_upper_case self) }
        ensures memory { IfErr result (λ e. e ≡ OutOfMemory) }
    {
        if is_upper(self.as_str().as_bytes()) {
            return Ok(self);
        }
        upper(alloc, self.as_str())
    }

    /// Whether it has no byte.
    pub fn is_empty(&self) -> bool
        ensures { IsTrue result ↔ (self.now ≡ []) }
    {
        self.as_str().is_empty()
    }
}

/// The text with its ASCII letters in upper case, and all else as it is.
///
/// # Errors
///
/// `OutOfMemory` alone.
pub fn upper(alloc: Global, text: &str) -> Result<Text, Fault>
    ensures text { IfOk result (λ t. t ≡ in_upper_case text.now) }
    ensures memory { IfErr result (λ e. e ≡ OutOfMemory) }
{
    Ok(upper_text(alloc, text)?)
}

/// Whether it has no ASCII letter in lower case.
#[inline(always)]
fn is_upper(text: &[u8]) -> bool
    ensures { result ≡ list_all (λ b. not (is_ascii_lowercase b)) text.now }
{
    text.iter().all(|byte| !byte.is_ascii_lowercase())
}

/// The text with its ASCII letters in upper case, and all else as it is.
///
/// # Errors
///
/// `AllocError` where memory is refused.
pub fn upper_text(alloc: Global, text: &str) -> Result<Text, AllocError>
    ensures { IfOk result (λ t. t ≡ in_upper_case text.now) }
{
    if is_upper(text.as_bytes()) {
        return Text::new(alloc, text);
    }
    let mut upper = String::from_str(alloc, text)?;
    upper.make_ascii_uppercase();
    Ok(Text::from_string(upper).shared(alloc)?)
}

impl Clone for Text {
    ghost is_clone = { λ s t. t ≡ s };

    fn clone(&self) -> Result<Text, AllocError> {
        Ok(Text {
            front: self.front,
            storage: self.storage.clone()?,
        })
    }
}

impl PartialEq for Text {
    ghost use Rattle.std.specs.Str.{bytes_eq};
    ghost use Rattle.std.specs.Cmp;
    ghost use Rattle.std.specs.Cmp.Lexicographic.{nat_list_eq_equiv};

    ghost eq = { bytes_eq };

    ghost laws = { Cmp.partial_equiv_from_equiv nat_list_eq_equiv };

    fn eq(&self, other: &Text) -> bool {
        order(self, other).is_eq()
    }
}

impl Eq for Text {
    ghost use Rattle.std.specs.Cmp.Lexicographic.{nat_list_eq_equiv};

    ghost laws = { nat_list_eq_equiv };
}

impl PartialOrd for Text {
    ghost use Rattle.std.specs.Prelude.{Some};
    ghost use Rattle.std.specs.Ordering.{nat_cmp};
    ghost use Rattle.std.specs.Cmp.Lexicographic.{slice_cmp, texts_po};

    ghost partial_cmp = { λ x y. Some (slice_cmp nat_cmp x y) };

    ghost laws = { texts_po };

    fn partial_cmp(&self, other: &Text) -> Option<Ordering> {
        Some(self.cmp(other))
    }
}

impl Ord for Text {
    ghost use Rattle.std.proofs.Common.{refl};
    ghost use Rattle.std.specs.Ordering.{nat_cmp};
    ghost use Rattle.std.specs.Cmp.Lexicographic.{slice_cmp, nat_list_cmp_total, texts_ties};

    ghost cmp = { slice_cmp nat_cmp };

    ghost total = { nat_list_cmp_total };

    ghost matches_partial_cmp = { λ x y. refl };

    ghost matches_eq = { texts_ties };

    #[inline(always)]
    fn cmp(&self, other: &Text) -> Ordering {
        order(self, other)
    }
}
