//! How the bytes of a text are stored.
ghost use Rattle.std.specs.Prelude.{◌≡◌, IfOk, string_bytes};
ghost use Rattle.std.specs.Arc.{arc_value};
ghost use Rattle.disco_values.specs.Storage.{bytes_in};

use crate::inline_text::InlineText;
use std::alloc::{AllocError, Global};
use std::sync::Arc;

/// The class that data centres have by default.
pub(crate) const DEFAULT_CLASS: &str = "com.netflix.appinfo.InstanceInfo$DefaultDataCenterInfo";

/// How the bytes of a text are stored: inline, owned, shared or in the program.
#[derive(Debug, Drop)]
pub(crate) enum Storage {
    /// In the text itself: most texts are short, and take no memory of their own.
    Inline(InlineText),
    /// In memory of its own, as a `String` brought them.
    Heap(String),
    /// In memory that it shares with its copies.
    Shared(Arc<String, Global>),
    /// In the program: [`DEFAULT_CLASS`], which most records have.
    DefaultClass,
}

impl Storage {
    pub(crate) fn as_str(&self) -> &str
        ensures { result.now ≡ bytes_in self.now }
    {
        match self {
            Storage::Inline(text) => text.as_str(),
            Storage::Heap(text) => text.as_str(),
            Storage::Shared(text) => text.as_str(),
            Storage::DefaultClass => DEFAULT_CLASS,
        }
    }

    /// The same bytes, in memory that copies share where they need any.
    pub(crate) fn shared(self, alloc: Global) -> Result<Storage, AllocError>
        ensures { IfOk result (λ s. bytes_in s ≡ bytes_in self) }
    {
        match self {
            Storage::Inline(text) => Ok(Storage::Inline(text)),
            Storage::Heap(text) => Ok(Storage::Shared(Arc::new(alloc, text)?)),
            Storage::Shared(text) => Ok(Storage::Shared(text)),
            Storage::DefaultClass => Ok(Storage::DefaultClass),
        }
    }
}

/// The shared `String` where this is its last share, else a copy of it.
pub(crate) fn unshared(text: Arc<String, Global>, alloc: Global) -> Result<String, AllocError>
    ensures { IfOk result (λ s. string_bytes s ≡ string_bytes (arc_value text)) }
{
    match Arc::try_unwrap(text) {
        Ok(text) => Ok(text),
        Err(text) => String::from_str(alloc, text.as_str()),
    }
}

impl Clone for Storage {
    ghost use Rattle.disco_values.specs.Storage.{bytes_in};

    ghost is_clone = { λ s t. bytes_in t ≡ bytes_in s };

    fn clone(&self) -> Result<Storage, AllocError> {
        match self {
            Storage::Inline(text) => Ok(Storage::Inline(text.copy())),
            Storage::Heap(text) => Storage::Heap(text.clone()?).shared(*text.allocator()),
            Storage::Shared(text) => Ok(Storage::Shared(Arc::try_clone(text)?)),
            Storage::DefaultClass => Ok(Storage::DefaultClass),
        }
    }
}
